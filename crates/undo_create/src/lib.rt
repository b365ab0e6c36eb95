// Taking back a create, from the trailer of the journal's last entry, which is all of that entry.
//
// undo_create has a `requires` that the state is sound and has an entry: it is for the crate above, whose call inspects the lent image and the book
// first, and reads the trailer.
#![tactic(auto)]

ghost use Rattle.std.specs.Prelude.{◌≡◌, ◌+◌, ◌≤◌, length};
ghost use Rattle.fields.specs.Outcome.{accepted};
ghost use Rattle.pod.specs.Values.{BasicBlock, Routine};
ghost use Rattle.pod.specs.Written.{block_bytes};
ghost use Rattle.laws.specs.Holds.{BlockHolds};
ghost use Rattle.laws.specs.At.{At};
ghost use Rattle.machine.specs.Journal.{is_fresh, undo_create};
ghost use Rattle.machine.specs.Book.{held, in_image};
ghost use Rattle.book.specs.Says.{state, leaves, taking_back};
ghost use Rattle.book.specs.Holding.{IsSound};
ghost use Rattle.journal.specs.Says.{trailer_of};
ghost use Rattle.undo_create.specs.Last.{EndsWith, up_to};

use book::{Answered, Book};
use fields::Refusal;
use journal::Trailer;

// Whether the block at `at` is as create left it: no list has an element, and the fields before them but the vip are 0. Where a list is empty, the
// count of the next follows its own.
fn is_fresh(image: &[u8], at: usize) -> bool
    requires { at + 36 ≤ length image.now }
    ensures { (b : BasicBlock) → BlockHolds b → At image.now at (block_bytes b) → result ≡ is_fresh b }
{
    if ends::word64(image, at + ends::SP_OFFSET_AT) != 0 {
        return false;
    }
    if ends::word32(image, at + ends::SP_INDEX_AT) != 0 {
        return false;
    }
    if ends::word32(image, at + ends::LAST_TEMPORARY_AT) != 0 {
        return false;
    }
    if ends::word32(image, at + ends::BLOCK_HEAD_SIZE) != 0 {
        return false;
    }
    if ends::word32(image, at + ends::INSTRUCTIONS_AT) != 0 {
        return false;
    }
    ends::word32(image, at + ends::LAST_COUNT_AT) == 0
}

// The last block, the one at `place`, which begins at `at`, becomes zeros, and the count of blocks, which stands before the first at `start`, one less.
fn drop_block(image: &mut [u8], start: usize, at: usize, written: usize, place: u32)
    requires { (4 ≤ start) × ((start ≤ at) × ((at ≤ written) × (written ≤ length image.old))) }
    ensures { (r : Routine) → EndsWith image.old r start at written place → image.new ≡ in_image (length image.old) (up_to r place) }
{
    buffer::clear(image, at, written);
    buffer::put_u32(image, start - ends::COUNT_SIZE, place);
}

// Taking back a create: the last block, which must be the one that was created and as it was then, becomes zeros. It has no instructions, so the sum stays,
// whatever it is.
pub fn undo_create(book: Book, image: &mut [u8], journal: &mut [u8], last: Trailer) -> Answered
    requires { IsSound (state image.old journal.old book) × (20 ≤ book.used) }
    ensures { (r : Routine) → held (state image.old journal.old book) ≡ accepted r
        → leaves book result image.new journal.new ≡ taking_back (state image.old journal.old book) r (undo_create r (trailer_of last)) }
{
    let place = last.place;
    if last.len != 0 {
        return Err(Refusal::SpoiledBook);
    }
    let blocks = image::blocks_of(image);
    if place as usize + 1 != blocks.count as usize {
        return Err(Refusal::SpoiledBook);
    }
    let start = blocks.start;
    let at = blocks.offset(place as usize);
    if ends::word64(image, at) != last.vip.0 {
        return Err(Refusal::SpoiledBook);
    }
    if !is_fresh(image, at) {
        return Err(Refusal::SpoiledBook);
    }
    drop_block(image, start, at, book.written as usize, place);
    let before = journal::clear_trailer(journal, book.used as usize);
    Ok(Book {
        written: at as u64,
        used: before as u64,
        ..book
    })
}
