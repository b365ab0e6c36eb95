// The whole routine.
#![tactic(auto)]

ghost use Rattle.std.specs.Prelude.{◌≡◌, true, ◌+◌, ◌≤◌, ◌<◌, IfOk};
ghost use Rattle.fields.specs.Parse.{many, counted, span};
ghost use Rattle.fields.specs.Lists.{every};
ghost use Rattle.fields.specs.Sight.{run};
ghost use Rattle.fields.specs.Answers.{of_read, of_skip};
ghost use Rattle.routine.specs.Head.{head_walked};
ghost use Rattle.sorting.specs.Buffer.{TOP};
ghost use Rattle.routine.specs.Rising.{of_run, Apart};
ghost use Rattle.routine.specs.Noted.{Note, of_noted, BlocksNote, RoutineNotes};
ghost use Rattle.pod.specs.Layout.{header, convention, block, blocks, routine};
ghost use Rattle.pod.specs.Sound.{convention_sound, block_sound, routine_sound};
ghost use Rattle.pod.specs.Told.{no_register_in};
ghost use Rattle.pod.specs.Written.{counted_bytes, header_bytes, convention_bytes, block_bytes, routine_bytes, walked};

use fields::{Parsed, Refusal, Sight, Skipped};
use pod::Vip;

const VTIL_MAGIC_1: u32 = 0x4c49_5456;

const VTIL_MAGIC_2: u16 = 0xdead;

// In the header, where the pad stands.
const PAD: usize = 5;

// Where a block begins and ends.
#[derive(Clone, Copy, Debug, PartialEq, Eq)]
pub struct Extent {
    pub from: usize,
    pub to: usize,
}

// The blocks of a routine, or a routine, that was walked over: what was seen, the offset past it, and where the block at the place that was asked for stands,
// if there is one.
#[derive(Clone, Copy, Debug, PartialEq, Eq)]
pub struct Noted {
    pub sight: Sight,
    pub end: usize,
    pub block: Option<Extent>,
}

// The header is passed over.
#[tactic(auto, unfolding(fields::specs::Parse::bind, fields::specs::Parse::span, fields::specs::Parse::pad, fields::specs::Lists::choose, pod::specs::Layout::header))]
fn header_past(s: &[u8], at: usize) -> Skipped
    ensures { of_skip result ≡ span (header s.now at) }
{
    let (mark, at) = fields::u32_at(s, at)?;
    if mark != VTIL_MAGIC_1 {
        return Err(Refusal::WrongMark);
    }
    let (machine, at) = fields::u8_at(s, at)?;
    if 2 < machine {
        return Err(Refusal::UnknownMachine);
    }
    let (_, at) = fields::u8_at(s, at)?;
    let (mark, end) = fields::u16_at(s, at)?;
    if mark != VTIL_MAGIC_2 {
        return Err(Refusal::WrongMark);
    }
    Ok(end)
}

// The header is walked over: in written form its pad is 0. It has no register.
fn header_skip(s: &[u8], at: usize) -> Parsed<Sight>
    ensures { of_read result ≡ walked header header_bytes no_register_in s.now at }
{
    let end = header_past(s, at)?;
    let written = s[at + PAD] == 0;
    Ok((
        Sight {
            written,
            sound: true,
        },
        end,
    ))
}

// The list of conventions at `at`.
fn conventions_skip(s: &[u8], at: usize) -> Parsed<Sight>
    ensures { of_read result ≡ walked (counted convention) (counted_bytes convention_bytes) (every convention_sound) s.now at }
{
    fields::list_skip(s, at, |at| convention::convention_skip(s, at))
}

// The least vip that may come after `vip` where vips rise, one more, if `vip` itself may come. If not, the highest number, and it stays that.
// Not an `Option`: tried, and the walk over empty blocks takes a third longer.
fn floor_after(floor: u64, vip: Vip) -> u64
    ensures { result < TOP → (floor ≤ vip.0) × (result ≡ vip.0 + 1) }
{
    if vip.0 < floor {
        sorting::TOP
    } else {
        vip.0.saturating_add(1)
    }
}

// `count` blocks, with a note of the one at `place`; and whether their vips were seen to rise, as compilers write them: then no search for repeated ones is
// needed. A loop of its own beside fields::list_skip, since it keeps the least vip that may come, and the note.
fn blocks_run(s: &[u8], at: usize, count: u32, place: u64) -> Result<(Noted, bool), Refusal>
    ensures walk { of_run result ≡ run (walked block block_bytes block_sound s.now) count at }
    ensures rising { IfOk result (λ x. x.1 ≡ true → Apart (many block count s.now at)) }
    ensures note { IfOk result (λ x. Note s.now at count place x.0.block) }
{
    let mut end = at;
    let mut seen = Sight {
        written: true,
        sound: true,
    };
    let mut floor: u64 = 0;
    let mut block = None;
    for passed in 0..count {
        let (sight, next) = block::block_skip(s, end)?;
        floor = floor_after(floor, Vip(ends::word64(s, end)));
        if passed as u64 == place {
            block = Some(Extent {
                from: end,
                to: next,
            });
        }
        end = next;
        seen = seen.and(sight);
    }
    let noted = Noted {
        sight: seen,
        end,
        block,
    };
    Ok((noted, floor < sorting::TOP))
}

// The blocks, of which no two share a vip, with a note of the one at `place`.
fn blocks_noting(s: &[u8], at: usize, place: u64) -> Result<Noted, Refusal>
    ensures walk { of_noted result ≡ walked blocks (counted_bytes block_bytes) (every block_sound) s.now at }
    ensures note { BlocksNote s.now at place result }
{
    let (count, start) = fields::u32_at(s, at)?;
    let (noted, rising) = blocks_run(s, start, count, place)?;
    if !rising && distinct::has_repeat(s, start, count) {
        return Err(Refusal::RepeatedBlock);
    }
    Ok(noted)
}

// The blocks, where none is asked for. It is pub, as head_skip is, for the reader that answers where the blocks stand.
pub fn blocks_skip(s: &[u8], at: usize) -> Parsed<Sight>
    ensures { of_read result ≡ walked blocks (counted_bytes block_bytes) (every block_sound) s.now at }
{
    let noted = blocks_noting(s, at, 0)?;
    Ok((noted.sight, noted.end))
}

// What stands before the blocks is walked over: header, entry vip and conventions. The entry vip is written as it is read and is no register.
#[tactic(auto, unfolding(fields::specs::Parse::bind, crate::specs::Head::head_walked))]
pub fn head_skip(s: &[u8], at: usize) -> Parsed<Sight>
    ensures { of_read result ≡ head_walked s.now at }
{
    let (header, at) = header_skip(s, at)?;
    let (_, at) = fields::u64_at(s, at)?;
    let (own, at) = convention::convention_skip(s, at)?;
    let (sub, at) = convention::convention_skip(s, at)?;
    let (special, end) = conventions_skip(s, at)?;
    Ok((header.and(own).and(sub).and(special), end))
}

// The routine at `at` is walked over.
pub fn routine_skip(s: &[u8], at: usize) -> Parsed<Sight>
    ensures { of_read result ≡ walked routine routine_bytes routine_sound s.now at }
{
    let (head, at) = head_skip(s, at)?;
    let (blocks, end) = blocks_skip(s, at)?;
    Ok((head.and(blocks), end))
}

// The routine at `at` is walked over, with a note of its block at `place`.
pub fn routine_noting(s: &[u8], at: usize, place: u64) -> Result<Noted, Refusal>
    ensures walk { of_noted result ≡ walked routine routine_bytes routine_sound s.now at }
    ensures note { RoutineNotes s.now at place result }
{
    let (head, at) = head_skip(s, at)?;
    let noted = blocks_noting(s, at, place)?;
    Ok(Noted {
        sight: head.and(noted.sight),
        ..noted
    })
}
