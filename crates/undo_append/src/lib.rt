// Taking back an append, from the trailer of the journal's last entry, which is all of that entry.
//
// undo_append has a `requires` that the state is sound and has an entry: it is for the crate above, whose call inspects the lent image and the book
// first, and reads the trailer.
#![tactic(auto)]

ghost use Rattle.std.specs.Prelude.{◌≡◌, ℕ, ◌≤◌, length};
ghost use Rattle.fields.specs.Outcome.{accepted};
ghost use Rattle.pod.specs.Values.{Routine};
ghost use Rattle.machine.specs.Journal.{undo_append};
ghost use Rattle.machine.specs.Book.{held, in_image};
ghost use Rattle.book.specs.Says.{state, leaves, taking_back};
ghost use Rattle.book.specs.Holding.{IsSound};
ghost use Rattle.journal.specs.Says.{trailer_of};
ghost use Rattle.undo_append.specs.Last.{LastIn, HasLast, shortened};

use book::{Answered, Book};
use fields::Refusal;
use journal::Trailer;

// The last instruction of the block at offset `at`, which has so many bytes and ends at `end`, goes, and what stands after it moves down.
fn drop_instruction(image: &mut [u8], at: usize, end: usize, size: usize, written: usize)
    requires { HasLast image.old at end size written }
    ensures { (r : Routine) (i : ℕ) → LastIn image.old r i at end size written → image.new ≡ in_image (length image.old) (shortened r i) }
{
    let count = ends::word32(image, at + ends::BLOCK_HEAD_SIZE);
    buffer::move_within(image, end, end - size, written - end);
    buffer::clear(image, written - size, written);
    buffer::put_u32(image, at + ends::BLOCK_HEAD_SIZE, count - 1);
}

// Taking back an append: the last instruction of the block, which must have the size that was appended, goes, and what stands after it moves down. 13 where
// the entry does not fit, and then where the sum is smaller than what the instruction comes to. One walk over the block tells where the instruction is.
pub fn undo_append(book: Book, image: &mut [u8], journal: &mut [u8], last: Trailer) -> Answered
    requires { IsSound (state image.old journal.old book) × (20 ≤ book.used) }
    ensures { (r : Routine) → held (state image.old journal.old book) ≡ accepted r
        → leaves book result image.new journal.new ≡ taking_back (state image.old journal.old book) r (undo_append r (trailer_of last)) }
{
    let place = last.place;
    let blocks = image::blocks_of(image);
    if blocks.count <= place {
        return Err(Refusal::SpoiledBook);
    }
    let at = blocks.offset(place as usize);
    if ends::word64(image, at) != last.vip.0 {
        return Err(Refusal::SpoiledBook);
    }
    let instruction = image::last_instruction(image, at);
    let Some(from) = instruction.from else {
        return Err(Refusal::SpoiledBook);
    };
    let size = last.len as usize;
    if instruction.end - from != size {
        return Err(Refusal::SpoiledBook);
    }
    let sum = book.sum;
    let less = charge::sum_of_instruction(image, from, book.rates);
    if sum < less {
        return Err(Refusal::SpoiledBook);
    }
    let written = book.written as usize;
    let left = written - size;
    drop_instruction(image, at, instruction.end, size, written);
    let before = journal::clear_trailer(journal, book.used as usize);
    Ok(Book {
        written: left as u64,
        used: before as u64,
        sum: sum - less,
        ..book
    })
}
