// Little-endian fields at an offset of a slice: the value and the offset past it, or the refusal.
#![tactic(auto)]

ghost use Rattle.std.specs.Prelude.{◌≡◌, ◌+◌, ◌≤◌, length, take, drop, leb, ◌<◌, IfOk, IfErr, ℕ};
ghost use Rattle.fields.specs.Bytes.{most_lent};
ghost use Rattle.fields.specs.Parse.{Res, bind, le, uint, part, span, u8, u16, u32, u64, i32, i64};
ghost use Rattle.fields.specs.declared.Sight.{Sight as SightValue};
ghost use Rattle.fields.specs.Refusals.{number};
ghost use Rattle.fields.specs.Sight.{of_both, run};
ghost use Rattle.fields.specs.Answers.{of_read, of_skip};

// Why a file or a call is refused. The numbers are those that C sees.
#[derive(Clone, Copy, Debug, PartialEq, Eq)]
pub enum Refusal {
    ShortFile = 1,
    NameNotText = 2,
    WrongMark = 3,
    UnknownMachine = 4,
    ForeignRegister = 5,
    UnknownOperandKind = 6,
    UnknownOperation = 7,
    WrongOperandCount = 8,
    RepeatedBlock = 9,
    LendingTooLarge = 10,
    ImageFull = 11,
    JournalFull = 12,
    SpoiledBook = 13,
    BlockPresent = 14,
    NoSuchBlock = 15,
    NothingToTakeBack = 16,
    Leftover = 17,
    ClosedBlock = 18,
    CrookedRegister = 19,
    WalkOpen = 20,
    NoWalk = 21,
}

impl From<Refusal> for u64 {
    ghost from_gives = { λ e n. n ≡ number e };

    fn from(refusal: Refusal) -> u64 {
        refusal as u64
    }
}

// What a reader answers: a value and the offset past it, or the refusal.
pub type Parsed<T> = Result<(T, usize), Refusal>;

// What is answered of a part of the file that is passed over: the offset past it, or the refusal.
pub type Skipped = Result<usize, Refusal>;

// What a walk over a part saw on its way: whether the part's bytes are its written form, and whether every register in it is sound.
#[derive(Clone, Copy, Debug, PartialEq, Eq)]
pub struct Sight {
    pub written: bool,
    pub sound: bool,
}

impl Sight {
    // What is seen of two parts, one after the other.
    pub fn and(self, other: Sight) -> Sight
        ensures { result ≡ of_both self other }
    {
        Sight {
            written: self.written & other.written,
            sound: self.sound & other.sound,
        }
    }
}

// An image or a journal is at most this long.
pub const MOST_LENT: usize = 16_777_216;

// Whether so many bytes may be lent as an image or as a journal.
pub fn is_lent(len: usize) -> bool
    ensures { result ≡ leb len most_lent }
{
    len <= MOST_LENT
}

// Whether `k` bytes from `at` stand in the file.
pub fn within(s: &[u8], at: usize, k: usize) -> bool
    ensures { result ≡ leb (at + k) (length s.now) }
{
    if s.len() < at {
        return false;
    }
    k <= s.len() - at
}

// The number of the 2, 4 and 8 bytes from `at`: without a loop, so that each is one load. Those of 4 and 8 are pub for the fast ways above, which have
// tested one length for all that they load.
fn two(s: &[u8], at: usize) -> u64
    requires { at + 2 ≤ length s.now }
    ensures { result ≡ le 2 s.now at }
{
    s[at] as u64 + 0x100 * (s[at + 1] as u64)
}

pub fn four(s: &[u8], at: usize) -> u64
    requires { at + 4 ≤ length s.now }
    ensures { result ≡ le 4 s.now at }
{
    two(s, at) + 0x1_0000 * two(s, at + 2)
}

pub fn eight(s: &[u8], at: usize) -> u64
    requires { at + 8 ≤ length s.now }
    ensures { result ≡ le 8 s.now at }
{
    four(s, at) + 0x1_0000_0000 * four(s, at + 4)
}

// The `k` bytes from `at` are passed over.
pub fn skip(s: &[u8], at: usize, k: usize) -> Skipped
    ensures field { of_skip result ≡ span (uint k s.now at) }
    ensures bytes { of_skip result ≡ span (part k s.now at) }
    ensures ok { IfOk result (λ end. (end ≡ at + k) × (end ≤ length s.now)) }
    ensures err { IfErr result (λ refusal. (refusal ≡ Refusal.ShortFile) × (length s.now < at + k)) }
{
    if within(s, at, k) {
        Ok(at + k)
    } else {
        Err(Refusal::ShortFile)
    }
}

// A number of `k` bytes, whatever the field's size: the reader of the layouts' `uint`. Only the field of 2 bytes is read by it here; those of 1, 4 and 8 are a load
// each.
pub fn uint_at(s: &[u8], at: usize, k: usize) -> Parsed<u64>
    requires { k ≤ 8 }
    ensures { of_read result ≡ uint k s.now at }
{
    let end = skip(s, at, k)?;
    let mut v = 0;
    for passed in 0..k {
        v = s[end - 1 - passed] as u64 + 256 * v;
    }
    Ok((v, end))
}

pub fn u8_at(s: &[u8], at: usize) -> Parsed<u8>
    ensures { of_read result ≡ u8 s.now at }
{
    let end = skip(s, at, 1)?;
    Ok((s[at], end))
}

pub fn u16_at(s: &[u8], at: usize) -> Parsed<u16>
    ensures { of_read result ≡ u16 s.now at }
{
    let (v, end) = uint_at(s, at, 2)?;
    Ok((v as u16, end))
}

pub fn u32_at(s: &[u8], at: usize) -> Parsed<u32>
    ensures { of_read result ≡ u32 s.now at }
{
    let end = skip(s, at, 4)?;
    Ok((four(s, at) as u32, end))
}

pub fn u64_at(s: &[u8], at: usize) -> Parsed<u64>
    ensures { of_read result ≡ u64 s.now at }
{
    let end = skip(s, at, 8)?;
    Ok((eight(s, at), end))
}

// The signed numbers, in two's complement.
#[tactic(auto, unfolding(crate::specs::Parse::bind, crate::specs::Parse::int))]
pub fn i32_at(s: &[u8], at: usize) -> Parsed<i32>
    ensures { of_read result ≡ i32 s.now at }
{
    let (v, end) = u32_at(s, at)?;
    Ok((v.cast_signed(), end))
}

#[tactic(auto, unfolding(crate::specs::Parse::bind, crate::specs::Parse::int))]
pub fn i64_at(s: &[u8], at: usize) -> Parsed<i64>
    ensures { of_read result ≡ i64 s.now at }
{
    let (v, end) = u64_at(s, at)?;
    Ok((v.cast_signed(), end))
}

// The `n` bytes from `at`. It is pub for the crates above, which have tested that they stand within.
pub fn part_of(s: &[u8], at: usize, n: usize) -> &[u8]
    requires { at + n ≤ length s.now }
    ensures { result.now ≡ take n (drop at s.now) }
{
    let end = at + n;
    &s[at..end]
}

// A list of parts: its count, and then as many, each walked over by `skip`. What is seen of all of them is said by what `walk` says of each.
pub fn list_skip<F: Fn(usize) -> Parsed<Sight>>(s: &[u8], at: usize, skip: F) -> Parsed<Sight>
    requires { F.IsAlwaysCallable skip }
    ensures { (walk : ℕ → Res SightValue) → ((o : ℕ) (r : _) → F.post skip o r → of_read r ≡ walk o) → of_read result ≡ bind (u32 s.now at) (λ n o. run walk n o) }
{
    let (count, start) = u32_at(s, at)?;
    let mut end = start;
    let mut seen = Sight {
        written: true,
        sound: true,
    };
    for passed in 0..count {
        let (sight, next) = skip(end)?;
        end = next;
        seen = seen.and(sight);
    }
    Ok((seen, end))
}
