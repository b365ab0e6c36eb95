// A lent image: document 01's test for 10 and 13, and where things stand in an image that holds a routine. What is looked for in an image was
// inspected before, so the walk that reads no name, text or register again is enough.
#![tactic(auto)]

ghost use Rattle.std.specs.Prelude.{◌≡◌, ◌-◌, ℕ, ◌≤◌, ◌<◌, length, IfOk, MatchOption};
ghost use Rattle.fields.specs.Refusals.{spoiled_book};
ghost use Rattle.fields.specs.Answers.{number_in};
ghost use Rattle.fields.specs.Outcome.{refuse_unless};
ghost use Rattle.pod.specs.Values.{Routine};
ghost use Rattle.machine.specs.Edits.{block_at};
ghost use Rattle.machine.specs.Look.{conventions};
ghost use Rattle.machine.specs.Book.{held};
ghost use Rattle.machine.specs.Walk.{walk_fits};
ghost use Rattle.book.specs.Says.{state_of, refusal_of};
ghost use Rattle.book.specs.Holding.{Holding, block_start};
ghost use Rattle.image.specs.Stand.{BlocksStand};
ghost use Rattle.image.specs.Places.{is_routine, IsAbsent, Finds, FindsLast, convention_start, instruction_start};
ghost use Rattle.image.specs.Inspected.{Notes, FindsBlock, unwalked};

pub mod blocks;

pub use blocks::Blocks;
use book::Lent;
use fields::Refusal;
use pod::Vip;
use routine::Extent;

// 13 unless `s` is exactly one accepted routine in written form. The walk over it notes where its block at `place` stands.
fn pass_image(s: &[u8], place: u64) -> Result<Option<Extent>, Refusal>
    ensures refusal { number_in result ≡ refusal_of (refuse_unless (is_routine s.now) spoiled_book) }
    ensures block { IfOk result (λ block. Notes s.now place block) }
{
    let Ok(noted) = routine::routine_noting(s, 0, place) else {
        return Err(Refusal::SpoiledBook);
    };
    let whole = (noted.end == s.len()) & noted.sight.written;
    if !whole {
        return Err(Refusal::SpoiledBook);
    }
    Ok(noted.block)
}

// The place of the block that next hands out, where a walk is open; else 0, which is not looked at.
fn place_of(walk: u64) -> u64
    ensures { result ≡ walk - 1 }
{
    if walk == 0 { 0 } else { walk - 1 }
}

// Whether an open walk's place is not over the number of blocks.
fn walk_fits(image: &[u8], walk: u64) -> bool
    ensures { (x : Routine) → Holding image.now x → result ≡ walk_fits walk x }
{
    if walk == 0 {
        return true;
    }
    let blocks = blocks_of(image);
    walk - 1 <= blocks.count as u64
}

// The test that every call on a book makes first: 10, then 13. The walk over the image passes the block at the place of an open walk on its way, which next hands
// out: where that stands, if there is one. Where no walk is open this is not looked at.
pub fn inspect_at(lent: Lent) -> Result<Option<Extent>, Refusal>
    ensures refusal { number_in result ≡ refusal_of (held (state_of lent.entry)) }
    ensures block { IfOk result (λ block. FindsBlock (state_of lent.entry) block) }
{
    let Lent {
        book,
        image,
        journal,
    } = lent;
    if !fields::is_lent(image.len()) {
        return Err(Refusal::LendingTooLarge);
    }
    if !fields::is_lent(journal.len()) {
        return Err(Refusal::LendingTooLarge);
    }
    let written = book.written;
    let used = book.used;
    if (image.len() as u64) < written {
        return Err(Refusal::SpoiledBook);
    }
    if (journal.len() as u64) < used {
        return Err(Refusal::SpoiledBook);
    }
    let end = written as usize;
    let block = pass_image(&image[..end], place_of(book.walk))?;
    if !buffer::is_zero(image, end) {
        return Err(Refusal::SpoiledBook);
    }
    if !walk_fits(image, book.walk) {
        return Err(Refusal::SpoiledBook);
    }
    Ok(block)
}

// The test alone.
pub fn inspect(lent: Lent) -> Result<(), Refusal>
    ensures { number_in result ≡ refusal_of (held (state_of lent.entry)) }
{
    inspect_at(lent)?;
    Ok(())
}

// The same, and then 20 where a walk is open: what start, remove and undo test first.
pub fn inspect_unwalked(lent: Lent) -> Result<(), Refusal>
    ensures { number_in result ≡ refusal_of (unwalked (state_of lent.entry)) }
{
    inspect(lent)?;
    if lent.book.walk != 0 {
        return Err(Refusal::WalkOpen);
    }
    Ok(())
}

// A block's place, and the offset at which it begins.
#[derive(Clone, Copy)]
pub struct Found {
    pub place: u32,
    pub at: usize,
}

// Where the last instruction of a block begins, if it has instructions, and where they end.
#[derive(Clone, Copy)]
pub struct LastInstruction {
    pub from: Option<usize>,
    pub end: usize,
}

// The number of special conventions, which stands after the routine's and the subroutine's.
pub fn special_count(image: &[u8]) -> u32
    ensures { (x : Routine) → Holding image.now x → result ≡ length x.spec_subroutine_conventions }
{
    let a = ends::convention_end(image, ends::CONVENTIONS_AT);
    let b = ends::convention_end(image, a);
    ends::word32(image, b)
}

// After the header and the entry vip: the two conventions, the special ones after their count, and the count of blocks.
pub fn blocks_of(image: &[u8]) -> Blocks<'_>
    ensures stand { BlocksStand image.now result.start result.count }
    ensures image { result.image.now ≡ image.now }
{
    let a = ends::convention_end(image, ends::CONVENTIONS_AT);
    let b = ends::convention_end(image, a);
    let special = ends::word32(image, b);
    let c = ends::jump(image, b, ends::COUNT_SIZE);
    let d = ends::conventions_end(image, c, special as usize);
    let count = ends::word32(image, d);
    let start = ends::jump(image, d, ends::COUNT_SIZE);
    Blocks {
        image,
        start,
        count,
    }
}

impl Blocks<'_> {
    // The block with the vip. The blocks before it are passed, and it is not.
    pub fn find(&self, vip: Vip) -> Option<Found>
        ensures { (x : Routine) → Holding self.now.image.now x → MatchOption result (IsAbsent x vip.0) (Finds x vip.0) }
    {
        let v = vip.0;
        let mut at = self.start;
        for place in 0..self.count {
            if ends::word64(self.image, at) == v {
                return Some(Found { place, at });
            }
            at = ends::block_end(self.image, at);
        }
        None
    }

    // The offset of the block at a place, or past the last where the place is the number of blocks.
    pub fn offset(&self, place: usize) -> usize
        ensures { (x : Routine) → Holding self.now.image.now x → place ≤ length x.explored_blocks → result ≡ block_start x place }
    {
        ends::blocks_end(self.image, self.start, place)
    }
}

// The offset of the convention at a place: the routine's, the subroutine's, and after the count of the special ones these.
pub fn convention_offset(image: &[u8], place: usize) -> usize
    ensures { (x : Routine) → Holding image.now x → place < length (conventions x) → result ≡ convention_start x place }
{
    if place == 0 {
        return ends::CONVENTIONS_AT;
    }
    let a = ends::convention_end(image, ends::CONVENTIONS_AT);
    if place == 1 {
        return a;
    }
    let b = ends::convention_end(image, a);
    let c = ends::jump(image, b, ends::COUNT_SIZE);
    ends::conventions_end(image, c, place - 2)
}

// The offset of instruction `k` of the block at offset `at`, or past its last where `k` is their number.
pub fn instruction_offset(image: &[u8], at: usize, k: u32) -> usize
    ensures { (x : Routine) (i : ℕ) → Holding image.now x → i < length x.explored_blocks → at ≡ block_start x i
        → k ≤ length (block_at i x.explored_blocks).instructions → result ≡ instruction_start x i k }
{
    let a = ends::jump(image, at, ends::INSTRUCTIONS_AT);
    ends::instructions_end(image, a, k)
}

// The last instruction of the block at offset `at`, in one walk over those before it.
pub fn last_instruction(image: &[u8], at: usize) -> LastInstruction
    ensures { (x : Routine) (i : ℕ) → Holding image.now x → i < length x.explored_blocks → at ≡ block_start x i → FindsLast x i result }
{
    let head = ends::jump(image, at, ends::BLOCK_HEAD_SIZE);
    let count = ends::word32(image, head);
    if count == 0 {
        let end = instruction_offset(image, at, 0);
        return LastInstruction { from: None, end };
    }
    let from = instruction_offset(image, at, count - 1);
    let end = ends::instruction_end(image, from);
    LastInstruction {
        from: Some(from),
        end,
    }
}
