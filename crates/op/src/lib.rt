// The names of the operations, and text.
#![tactic(auto)]

ghost use Rattle.std.specs.Prelude.{◌≡◌, List, [], ℕ, ◌<◌, ◌≤◌, ◌+◌, ◌*◌, ◌/◌, ◌%◌, ◌^◌, length, get_or, take, drop, IfSome, MatchOption};
ghost use Rattle.fields.specs.Bytes.{Bytes};
ghost use Rattle.fields.specs.Lists.{same};
ghost use Rattle.fields.specs.Parse.{le};
ghost use Rattle.op.specs.Packed.{bits, Entry, Known};
ghost use Rattle.op.specs.Ops.{names, counts, number};
ghost use Rattle.op.specs.ByLength.{by_length, ForLength, in_six};
ghost use Rattle.op.specs.Text.{is_text};

use std::ops::Range;

// Six bytes for each name, with zeros after it.
const NAMES: [u8; 294] = *b"mov\0\0\0movsx\0str\0\0\0ldd\0\0\0neg\0\0\0add\0\0\0sub\0\0\0\
    mul\0\0\0mulhi\0imul\0\0imulhidiv\0\0\0rem\0\0\0idiv\0\0\
    irem\0\0popcntbsf\0\0\0bsr\0\0\0not\0\0\0shr\0\0\0shl\0\0\0\
    xor\0\0\0or\0\0\0\0and\0\0\0ror\0\0\0rol\0\0\0tg\0\0\0\0tge\0\0\0\
    te\0\0\0\0tne\0\0\0tl\0\0\0\0tle\0\0\0tug\0\0\0tuge\0\0tul\0\0\0\
    tule\0\0ifs\0\0\0js\0\0\0\0jmp\0\0\0vexit\0vxcallnop\0\0\0\
    sfencelfencevemit\0vpinr\0vpinw\0vpinrmvpinwm";

const LENGTHS: [usize; 49] = [
    3, 5, 3, 3, 3, 3, 3, 3, 5, 4, 6, 3, 3, 4, 4, 6, 3, 3, 3, 3, 3, 3, 2, 3, 3, 3, 2, 3, 2, 3, 2, 3,
    3, 4, 3, 4, 3, 2, 3, 5, 6, 3, 6, 6, 5, 5, 5, 6, 6,
];

const COUNTS: [u32; 49] = [
    2, 2, 3, 3, 1, 2, 2, 2, 2, 2, 2, 3, 3, 3, 3, 1, 1, 1, 1, 2, 2, 2, 2, 2, 2, 2, 3, 3, 3, 3, 3, 3,
    3, 3, 3, 3, 3, 3, 1, 1, 1, 0, 0, 0, 1, 1, 1, 3, 3,
];

// The operations by the lengths of their names: those with names of 2 bytes, then those with names of 3, up to 6.
const BY_LENGTH: [u8; 49] = [
    22, // or
    26, // tg
    28, // te
    30, // tl
    37, // js
    0, // mov
    2, // str
    3, // ldd
    4, // neg
    5, // add
    6, // sub
    7, // mul
    11, // div
    12, // rem
    16, // bsf
    17, // bsr
    18, // not
    19, // shr
    20, // shl
    21, // xor
    23, // and
    24, // ror
    25, // rol
    27, // tge
    29, // tne
    31, // tle
    32, // tug
    34, // tul
    36, // ifs
    38, // jmp
    41, // nop
    9, // imul
    13, // idiv
    14, // irem
    33, // tuge
    35, // tule
    1, // movsx
    8, // mulhi
    39, // vexit
    44, // vemit
    45, // vpinr
    46, // vpinw
    10, // imulhi
    15, // popcnt
    40, // vxcall
    42, // sfence
    43, // lfence
    47, // vpinrm
    48, // vpinwm
];

// How many bytes the name of operation `k` has. It is pub for the crates above, which have tested the number.
pub fn name_len(k: usize) -> usize
    requires { k < 49 }
    ensures { result ≡ length (get_or names k []) }
{
    LENGTHS[k]
}

// Byte `j` of the name of operation `k`, and 0 past its end. It is pub for the crates above, which have tested the number.
pub fn name_byte(k: usize, j: usize) -> u8
    requires { (k < 49) × (j < 6) }
    ensures { result ≡ get_or (get_or names k []) j 0 }
{
    NAMES[k * 6 + j]
}

// How many operands operation `k` takes: 0 where there is none with that number. The table is built on the stack at each call, so the fast ways take the count
// from fast_lookup.
pub fn operand_count(k: usize) -> u32
    ensures { result ≡ get_or counts k 0 }
{
    if k < 49 { COUNTS[k] } else { 0 }
}

// The operation at place `i` of the list by length.
fn listed_at(i: usize) -> usize
    requires { i < 49 }
    ensures { result ≡ get_or by_length i 49 }
{
    BY_LENGTH[i] as usize
}

// The places in the list by length of the operations whose names have `n` bytes. No name has fewer than 2 or more than 6.
fn with_length(n: usize) -> Range<usize>
    ensures { ForLength n result }
{
    match n {
        2 => 0..5,
        3 => 5..31,
        4 => 31..36,
        5 => 36..42,
        6 => 42..49,
        _ => 0..0,
    }
}

// Whether `w` is the name of operation `k`, which is as long as `w`. `table` is `NAMES`, lent so that it is built once for all comparisons.
fn name_is(w: &[u8], k: usize, table: &[u8]) -> bool
    requires listed { k < 49 }
    requires as_long { length w.now ≡ length (get_or names k []) }
    requires whole { table.now ≡ in_six names }
    ensures { result ≡ same w.now (get_or names k []) }
{
    w == fields::part_of(table, k * 6, w.len())
}

// The number of the operation with the name `w`. Only names as long as `w` are compared with it.
pub fn number_of(w: &[u8]) -> Option<usize>
    ensures { MatchOption result (number w.now ≡ 49) (λ k. (k < 49) × (number w.now ≡ k)) }
{
    let table = NAMES;
    let places = with_length(w.len());
    for i in places.start..places.end {
        let k = listed_at(i);
        if name_is(w, k, &table) {
            return Some(k);
        }
    }
    None
}

// An entry of the table. Of an operation, the key is its name as one number, the bytes from the lowest up, and the code is its operand count and four times
// its number. Of no operation, the key has seven bytes, as no name has.
#[derive(Clone, Copy)]
struct Slot {
    key: u64,
    code: u64,
}

// The entry for names with the bits `h`. A number is its key, and in the eighth byte its code. A `match`, since an array would be built anew at each call.
// LLVM makes a table of it where at least 40 in 100 of the 256 values have an arm, and joins arms that are like the last: so the odd values from 65 to 223
// that no name has are written out, with a number of their own.
fn slot_of(h: u64) -> Slot
    ensures { Entry (h / 32) h result }
{
    let e = match h {
        70 => 0x9700_0000_0000_736a,
        71 => 0x7300_0000_0000_6574,
        80 => 0x5a00_0000_0000_726f,
        90 => 0x6b00_0000_0000_6774,
        91 => 0x7b00_0000_0000_6c74,
        96 => 0x6200_0000_0072_6f72,
        97 => 0xb00_0000_0072_7473,
        98 => 0x6600_0000_006c_6f72,
        99 => 0x6f00_0000_0065_6774,
        100 => 0x7f00_0000_0065_6c74,
        101 => 0x5600_0000_0072_6f78,
        102 => 0x9300_0000_0073_6669,
        103 => 0x4900_0000_0074_6f6e,
        107 => 0x1a00_0000_0062_7573,
        109 => 0x4e00_0000_0072_6873,
        110 => 0x2f00_0000_0076_6964,
        111 => 0x5200_0000_006c_6873,
        112 => 0x200_0000_0076_6f6d,
        113 => 0x1600_0000_0064_6461,
        114 => 0x5e00_0000_0064_6e61,
        115 => 0xa400_0000_0070_6f6e,
        116 => 0x1100_0000_0067_656e,
        117 => 0x8300_0000_0067_7574,
        118 => 0x3300_0000_006d_6572,
        119 => 0x7700_0000_0065_6e74,
        120 => 0x1e00_0000_006c_756d,
        121 => 0x4500_0000_0072_7362,
        122 => 0xf00_0000_0064_646c,
        124 => 0x9900_0000_0070_6d6a,
        125 => 0x4100_0000_0066_7362,
        126 => 0x8b00_0000_006c_7574,
        128 => 0x3700_0000_7669_6469,
        132 => 0x2600_0000_6c75_6d69,
        148 => 0x3b00_0000_6d65_7269,
        149 => 0x8700_0000_6567_7574,
        158 => 0x8f00_0000_656c_7574,
        161 => 0xb500_0072_6e69_7076,
        163 => 0x9d00_0074_6978_6576,
        165 => 0xb900_0077_6e69_7076,
        177 => 0x2200_0069_686c_756d,
        182 => 0x600_0078_7376_6f6d,
        188 => 0xb100_0074_696d_6576,
        193 => 0xa800_6563_6e65_6673,
        196 => 0xa100_6c6c_6163_7876,
        200 => 0x2a00_6968_6c75_6d69,
        211 => 0xbf00_6d72_6e69_7076,
        215 => 0xc300_6d77_6e69_7076,
        216 => 0x3d00_746e_6370_6f70,
        219 => 0xac00_6563_6e65_666c,
        65
        | 67
        | 69
        | 73
        | 75
        | 77
        | 79
        | 81
        | 83
        | 85
        | 87
        | 89
        | 93
        | 95
        | 105
        | 123
        | 127
        | 129
        | 131
        | 133
        | 135
        | 137
        | 139
        | 141
        | 143
        | 145
        | 147
        | 151
        | 153
        | 155
        | 157
        | 159
        | 167
        | 169
        | 171
        | 173
        | 175
        | 179
        | 181
        | 183
        | 185
        | 187
        | 189
        | 191
        | 195
        | 197
        | 199
        | 201
        | 203
        | 205
        | 207
        | 209
        | 213
        | 217
        | 221
        | 223 => 0x2_0000_0000_0000,
        _ => 0x1_0000_0000_0000,
    };
    Slot {
        key: e % 0x100_0000_0000_0000,
        code: e / 0x100_0000_0000_0000,
    }
}

// The lowest `n` bytes of `v`.
fn low(v: u64, n: usize) -> u64
    requires { (2 ≤ n) × (n ≤ 6) }
    ensures { result ≡ v % 2 ^ (8 * n) }
{
    match n {
        2 => v % 0x1_0000,
        3 => v % 0x100_0000,
        4 => v % 0x1_0000_0000,
        5 => v % 0x100_0000_0000,
        6 => v % 0x1_0000_0000_0000,
        _ => 0,
    }
}

// 32 times the length `n` of a name, and five bits of a hash of its bytes, the number `v`. No two of the 49 names have the same.
fn bits_of(v: u64, n: usize) -> u64
    requires { (v < 2 ^ 48) × (n ≤ 6) }
    ensures { result ≡ bits n v }
{
    let f = v % 0x1_0000_0000 + v / 0x1_0000_0000;
    32 * (n as u64) + f * 55733 / 0x1_0000 % 32
}

// The code of the entry `found` where its key is the number `v`. Only an entry for names as long, of `n` bytes, may be asked.
fn code_of(found: Slot, v: u64, n: usize) -> Option<u64>
    requires { Entry n (bits n v) found }
    ensures { IfSome result (λ code. (found.key ≡ v) × (found.code ≡ code)) }
{
    if found.key == v {
        Some(found.code)
    } else {
        None
    }
}

// Of the operation whose name is the lowest `n` bytes of `word`: its operand count and four times its number, where the table tells. It is pub for the fast
// ways over an instruction, which have loaded the word. It is given no slice, so that a call costs little.
pub fn fast_lookup(word: u64, n: usize) -> Option<u64>
    ensures { IfSome result (λ code. (s : List ℕ) (o : ℕ) → Bytes s → o + 8 ≤ length s → word ≡ le 8 s o → Known (take n (drop o s)) n code) }
{
    if n < 2 || 6 < n {
        return None;
    }
    let v = low(word, n);
    code_of(slot_of(bits_of(v, n)), v, n)
}

// Whether the bytes are well-formed UTF-8.
pub fn is_text(s: &[u8]) -> bool
    ensures { result ≡ is_text s.now }
{
    std::str::from_utf8(s).is_ok()
}
