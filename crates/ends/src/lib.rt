// The walk over blocks and conventions that were accepted before. It looks at counts, kinds and the size of a name alone, and reads no name, text or register
// again: the search for repeated vips passes each block many times, and this saves most of its time.
#![tactic(auto)]

ghost use Rattle.std.specs.Prelude.{◌≡◌, ◌+◌, ◌≤◌, length, IfSome};
ghost use Rattle.ends.specs.Ends.{word, operand_end, times, instruction_end, vips_end, block_end, registers_end, convention_end};

use pod::Vip;

// The count before a list's elements.
pub const COUNT_SIZE: usize = 4;

pub const VIP_SIZE: usize = 8;

// In a routine, where the machine's byte stands in the header of 8 bytes, the entry vip after the header, and the first convention after that.
pub const MACHINE_AT: usize = 4;

pub const ENTRY_VIP_AT: usize = 8;

pub const CONVENTIONS_AT: usize = ENTRY_VIP_AT + VIP_SIZE;

// A register: flags 8, combined id 8, bit count 4, bit offset 4.
pub const REGISTER_SIZE: usize = 24;

// An immediate: value 8, bit count 4.
pub const IMMEDIATE_SIZE: usize = 12;

// In a block, where the numbers after its vip stand: sp offset 8, sp index 4, last temporary index 4.
pub const SP_OFFSET_AT: usize = VIP_SIZE;

pub const SP_INDEX_AT: usize = SP_OFFSET_AT + 8;

pub const LAST_TEMPORARY_AT: usize = SP_INDEX_AT + 4;

// In a block, the numbers before its lists. The count of its instructions stands after them.
pub const BLOCK_HEAD_SIZE: usize = LAST_TEMPORARY_AT + 4;

// In a block, where its instructions begin: after their count.
pub const INSTRUCTIONS_AT: usize = BLOCK_HEAD_SIZE + COUNT_SIZE;

// A block whose three lists are empty, and where its last count stands.
pub const EMPTY_BLOCK_SIZE: usize = BLOCK_HEAD_SIZE + 3 * COUNT_SIZE;

pub const LAST_COUNT_AT: usize = EMPTY_BLOCK_SIZE - COUNT_SIZE;

// In an instruction, the fields past its operands: vip 8, sp offset 8, sp index 4, sp reset 1.
pub const INSTRUCTION_TAIL: usize = 21;

// In a convention, from its frame register on: where the shadow space stands, and where the purge.
pub const SHADOW_SPACE_AT: usize = REGISTER_SIZE;

pub const PURGE_AT: usize = SHADOW_SPACE_AT + 8;

// In a convention, the fields past its lists: frame register 24, shadow space 8, purge 1.
pub const CONVENTION_TAIL: usize = PURGE_AT + 1;

// A block that was passed: its vip, and the offset past it.
#[derive(Clone, Copy)]
pub struct PassedBlock {
    pub vip: Vip,
    pub next: usize,
}

// `k` bytes further, and at most the end.
#[tactic(auto, unfolding(crate::specs::Ends::jump, fields::specs::Lists::choose))]
pub fn jump(s: &[u8], at: usize, k: usize) -> usize
    ensures { result ≡ Rattle.ends.specs.Ends.jump s.now at k }
{
    at.saturating_add(k).min(s.len())
}

// The u32 that stands there, or 0.
pub fn word32(s: &[u8], at: usize) -> u32
    ensures { result ≡ word 4 s.now at }
{
    fields::u32_at(s, at).map_or(0, |(v, _)| v)
}

// The u64 that stands there, or 0.
pub fn word64(s: &[u8], at: usize) -> u64
    ensures { result ≡ word 8 s.now at }
{
    fields::u64_at(s, at).map_or(0, |(v, _)| v)
}

// The end of the operand at `at`: its kind, then an immediate or a register.
#[tactic(auto, unfolding(crate::specs::Ends::operand_end, fields::specs::Lists::choose))]
fn operand_end(s: &[u8], at: usize) -> usize
    ensures { result ≡ operand_end s.now at }
{
    let a = jump(s, at, 4);
    if word32(s, at) == 0 {
        jump(s, a, IMMEDIATE_SIZE)
    } else {
        jump(s, a, REGISTER_SIZE)
    }
}

// The end of `count` operands from `at` on.
fn operands_end(s: &[u8], at: usize, count: u32) -> usize
    ensures { result ≡ times (operand_end s.now) count at }
{
    (0..count).fold(at, |at, _| operand_end(s, at))
}

// The end of the operand at `at`, where the longer of the two kinds is within.
fn fast_operand_end(s: &[u8], at: usize) -> usize
    requires { at + 28 ≤ length s.now }
    ensures end { result ≡ operand_end s.now at }
    ensures near { result ≤ at + 28 }
{
    if fields::four(s, at) == 0 {
        at + 16
    } else {
        at + 28
    }
}

// The end of the instruction at `at`, with one length test for all its fields. It does not tell near the end of the bytes, and where the name or the list
// of operands is longer than any operation has.
fn fast_instruction_end(s: &[u8], at: usize) -> Option<usize>
    ensures { IfSome result (λ end. end ≡ instruction_end s.now at) }
{
    if !fields::within(s, at, 128) {
        return None;
    }
    let size = fields::four(s, at) as usize;
    if 6 < size {
        return None;
    }
    let n = at + 4 + size;
    let count = fields::four(s, n);
    if 3 < count {
        return None;
    }
    let mut end = n + COUNT_SIZE;
    for passed in 0..count {
        end = fast_operand_end(s, end);
    }
    Some(end + INSTRUCTION_TAIL)
}

// The end of the instruction at `at`.
#[tactic(auto, unfolding(crate::specs::Ends::instruction_end))]
pub fn instruction_end(s: &[u8], at: usize) -> usize
    ensures { result ≡ instruction_end s.now at }
{
    if let Some(end) = fast_instruction_end(s, at) {
        return end;
    }
    let a = jump(s, at, 4);
    let size = word32(s, at);
    let n = jump(s, a, size as usize);
    let count = word32(s, n);
    let b = jump(s, n, COUNT_SIZE);
    let e = operands_end(s, b, count);
    jump(s, e, INSTRUCTION_TAIL)
}

// The end of `count` instructions from `at` on.
pub fn instructions_end(s: &[u8], at: usize, count: u32) -> usize
    ensures { result ≡ times (instruction_end s.now) count at }
{
    (0..count).fold(at, |at, _| instruction_end(s, at))
}

// The end of the list of vips at `at`.
#[tactic(auto, unfolding(crate::specs::Ends::vips_end))]
pub fn vips_end(s: &[u8], at: usize) -> usize
    ensures { result ≡ vips_end s.now at }
{
    let a = jump(s, at, COUNT_SIZE);
    let count = word32(s, at);
    jump(s, a, VIP_SIZE * (count as usize))
}

// The end of the block at `at` where it has no instruction and no vips, as one length test and three loads tell.
fn fast_block_end(s: &[u8], at: usize) -> Option<usize>
    ensures { IfSome result (λ end. end ≡ block_end s.now at) }
{
    if !fields::within(s, at, EMPTY_BLOCK_SIZE) {
        return None;
    }
    if fields::four(s, at + BLOCK_HEAD_SIZE) != 0 {
        return None;
    }
    if fields::four(s, at + INSTRUCTIONS_AT) != 0 {
        return None;
    }
    if fields::four(s, at + LAST_COUNT_AT) != 0 {
        return None;
    }
    Some(at + EMPTY_BLOCK_SIZE)
}

// The end of the block at `at`, list by list. Not inlined: so the fast way, which most blocks of a search take, is a few instructions where it is used.
#[inline(never)]
#[tactic(auto, unfolding(crate::specs::Ends::block_end))]
fn listed_block_end(s: &[u8], at: usize) -> usize
    ensures { result ≡ block_end s.now at }
{
    let i = jump(s, at, BLOCK_HEAD_SIZE);
    let count = word32(s, i);
    let a = jump(s, i, COUNT_SIZE);
    let e = instructions_end(s, a, count);
    let p = vips_end(s, e);
    vips_end(s, p)
}

// The end of the block at `at`.
#[inline(always)]
pub fn block_end(s: &[u8], at: usize) -> usize
    ensures { result ≡ block_end s.now at }
{
    if let Some(end) = fast_block_end(s, at) {
        return end;
    }
    listed_block_end(s, at)
}

// The vip and the end of the block at `at`. Inlined into the search for repeated vips, which asks it of each block in each pass.
#[inline(always)]
pub fn block_at(s: &[u8], at: usize) -> PassedBlock
    ensures { (result.vip.0 ≡ word 8 s.now at) × (result.next ≡ block_end s.now at) }
{
    let vip = Vip(word64(s, at));
    let next = block_end(s, at);
    PassedBlock { vip, next }
}

// The end of `count` blocks from `at` on.
pub fn blocks_end(s: &[u8], at: usize, count: usize) -> usize
    ensures { result ≡ times (block_end s.now) count at }
{
    (0..count).fold(at, |at, _| block_end(s, at))
}

// The end of the list of registers at `at`.
#[tactic(auto, unfolding(crate::specs::Ends::registers_end))]
pub fn registers_end(s: &[u8], at: usize) -> usize
    ensures { result ≡ registers_end s.now at }
{
    let a = jump(s, at, COUNT_SIZE);
    let count = word32(s, at);
    jump(s, a, REGISTER_SIZE * (count as usize))
}

// The end of the convention at `at`.
#[tactic(auto, unfolding(crate::specs::Ends::convention_end))]
pub fn convention_end(s: &[u8], at: usize) -> usize
    ensures { result ≡ convention_end s.now at }
{
    let a = registers_end(s, at);
    let b = registers_end(s, a);
    let c = registers_end(s, b);
    jump(s, c, CONVENTION_TAIL)
}

// The end of `count` conventions from `at` on.
pub fn conventions_end(s: &[u8], at: usize, count: usize) -> usize
    ensures { result ≡ times (convention_end s.now) count at }
{
    (0..count).fold(at, |at, _| convention_end(s, at))
}
