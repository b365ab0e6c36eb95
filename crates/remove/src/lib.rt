// Removing a block from the routine in an image, in place.
//
// `remove_block` requires that the state is sound and that no walk is open: it is for the crate above, whose call inspects the lent image and the book first.
#![tactic(auto)]

ghost use Rattle.std.specs.Prelude.{◌≡◌, ◌++◌, ℕ, ◌+◌, ◌≤◌, length};
ghost use Rattle.fields.specs.Bytes.{put};
ghost use Rattle.pod.specs.Values.{Routine};
ghost use Rattle.fields.specs.Bytes.{most_lent};
ghost use Rattle.machine.specs.Trailer.{trailer_with, trailer_bytes};
ghost use Rattle.machine.specs.Edits.{remove, remove_at, with_blocks};
ghost use Rattle.machine.specs.Machine.{edit};
ghost use Rattle.machine.specs.Book.{in_image, step};
ghost use Rattle.book.specs.Says.{state, leaves};
ghost use Rattle.book.specs.Holding.{IsUnwalked};
ghost use Rattle.remove.specs.Removable.{Removable, HasRemovable};

use book::{Answered, Book};
use fields::Refusal;
use journal::{Edit, Trailer};
use pod::Vip;

// The block from `at` to `end` leaves the routine that ends at `written`, and the last block takes its place: no other block moves further than by
// the difference of the two sizes, and what is freed at the end becomes 0. A block that ends where the routine does is the last itself, and nothing
// moves. The count of blocks stands in the 4 bytes before them.
fn swap_remove(image: &mut [u8], at: usize, end: usize, written: usize)
    requires { HasRemovable image.old at end written }
    ensures { (r : Routine) (i : ℕ) → Removable r i image.old at end written
        → image.new ≡ in_image (length image.old) (with_blocks (remove_at i r.explored_blocks) r) }
{
    let blocks = image::blocks_of(image);
    let count_at = blocks.start - 4;
    let fewer = blocks.count - 1;
    if end == written {
        buffer::clear(image, at, end);
        buffer::put_u32(image, count_at, fewer);
        return;
    }
    let last = blocks.offset(fewer as usize);
    let size = end - at;
    let left = written - size;
    exchange::exchange(image, at, end, last, written);
    buffer::clear(image, left, written);
    buffer::put_u32(image, count_at, fewer);
}

// The entry of a removal goes after the used part of the journal: the bytes of the block, and then the trailer.
fn put_entry(journal: &mut [u8], used: usize, block: &[u8], vip: Vip, place: u32)
    requires { (used + length block.now + 20 ≤ length journal.old) × (length journal.old ≤ most_lent) }
    ensures { journal.new ≡ put used (block.now ++ trailer_bytes (trailer_with vip.0 place (length block.now) 2)) journal.old }
{
    let size = block.len();
    let end = used + size;
    buffer::copy_at(journal, used, block);
    let trailer = Trailer {
        vip,
        place,
        len: size as u32,
        kind: u32::from(Edit::Remove),
    };
    journal::put_trailer(journal, end, trailer);
}

// The block with the vip goes, into the journal: 15, then 12, and 13 where the sum is smaller than what the block comes to.
pub fn remove_block(book: Book, image: &mut [u8], journal: &mut [u8], vip: Vip) -> Answered
    requires { IsUnwalked (state image.old journal.old book) }
    ensures { leaves book result image.new journal.new ≡ step (edit (remove vip.0)) (state image.old journal.old book) }
{
    let written = book.written as usize;
    let used = book.used as usize;
    let Some(found) = image::blocks_of(image).find(vip) else {
        return Err(Refusal::NoSuchBlock);
    };
    let at = found.at;
    let end = ends::block_end(image, at);
    let size = end - at;
    let left = written - size;
    let spent = used + size + journal::TRAILER_SIZE;
    book::admit(image.len(), journal.len(), left, spent)?;
    let sum = book.sum;
    let less = charge::sum_of_block(image, at, book.rates);
    if sum < less {
        return Err(Refusal::SpoiledBook);
    }
    put_entry(journal, used, &image[at..end], vip, found.place);
    swap_remove(image, at, end, written);
    Ok(Book {
        written: left as u64,
        used: spent as u64,
        sum: sum - less,
        ..book
    })
}
