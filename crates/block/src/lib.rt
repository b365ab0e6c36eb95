// Blocks.
#![tactic(auto)]

ghost use Rattle.std.specs.Prelude.{◌≡◌, true, ◌+◌, ◌≤◌, length};
ghost use Rattle.fields.specs.Parse.{ok, part, counted, bind, span, u64};
ghost use Rattle.fields.specs.Lists.{every};
ghost use Rattle.fields.specs.Sight.{sight};
ghost use Rattle.fields.specs.Answers.{of_read, of_skip};
ghost use Rattle.pod.specs.Layout.{instruction, block};
ghost use Rattle.pod.specs.Sound.{instruction_sound, block_sound};
ghost use Rattle.pod.specs.Written.{counted_bytes, instruction_bytes, block_bytes, walked};

use fields::{Parsed, Sight, Skipped};

// A block's numbers before its lists: vip 8, sp offset 8, sp index 4, last temporary index 4.
const HEAD_SIZE: usize = 24;

// A block without lists: these numbers, and three counts.
const BARE_SIZE: usize = 36;

const VIP_SIZE: usize = 8;

// One instruction: the fast way, or else field by field.
fn one_skip(s: &[u8], at: usize) -> Parsed<Sight>
    ensures { of_read result ≡ walked instruction instruction_bytes instruction_sound s.now at }
{
    match instruction::fast_skip(s, at) {
        Some(seen) => Ok(seen),
        None => instruction::instruction_skip(s, at),
    }
}

// A list of vips. Nothing is asked of a vip but its 8 bytes, so all are passed over at once. It is pub, as the next is, for the reader that answers where a
// block's lists stand.
#[tactic(auto, unfolding(fields::specs::Parse::bind, fields::specs::Parse::span))]
pub fn vips_skip(s: &[u8], at: usize) -> Skipped
    ensures { of_skip result ≡ span (counted u64 s.now at) }
{
    let (count, at) = fields::u32_at(s, at)?;
    fields::skip(s, at, VIP_SIZE * (count as usize))
}

// The numbers of the block at `at`, of which nothing is asked but their bytes, and its instructions are walked over.
#[tactic(auto, unfolding(fields::specs::Parse::bind))]
pub fn instructions_skip(s: &[u8], at: usize) -> Parsed<Sight>
    ensures { of_read result ≡ bind (span (part 24 s.now at)) (λ _ n. walked (counted instruction) (counted_bytes instruction_bytes) (every instruction_sound) s.now n) }
{
    let at = fields::skip(s, at, HEAD_SIZE)?;
    fields::list_skip(s, at, |at| one_skip(s, at))
}

// Whether the block at `at` has no lists: all three counts are 0. Two of them are one load.
fn is_bare(s: &[u8], at: usize) -> bool
    ensures { result ≡ true → (at + 36 ≤ length s.now) × (walked block block_bytes block_sound s.now at ≡ ok (sight true true) (at + 36)) }
{
    fields::within(s, at, BARE_SIZE)
        && fields::eight(s, at + HEAD_SIZE) == 0
        && fields::four(s, at + HEAD_SIZE + 8) == 0
}

// The block at `at` is walked over. A block without lists is passed at once: in a file of such blocks the calls below would be most of the time. Inlined, so
// that it is passed without a call in the run over a routine's blocks, which every call on a book makes. Vips are written as they are read and are no
// registers, so what was seen of the instructions is seen of the block.
#[inline(always)]
#[tactic(auto, unfolding(fields::specs::Parse::bind))]
pub fn block_skip(s: &[u8], at: usize) -> Parsed<Sight>
    ensures { of_read result ≡ walked block block_bytes block_sound s.now at }
{
    if is_bare(s, at) {
        let seen = Sight {
            written: true,
            sound: true,
        };
        return Ok((seen, at + BARE_SIZE));
    }
    let (seen, at) = instructions_skip(s, at)?;
    let at = vips_skip(s, at)?;
    let end = vips_skip(s, at)?;
    Ok((seen, end))
}
