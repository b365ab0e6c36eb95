// Taking back a removal: the block that the journal's last entry holds goes back to its place in the image.
//
// `undo_remove` requires that the state is sound: it is for the crate above, whose call inspects the lent image and the book first.
#![tactic(auto)]

ghost use Rattle.std.specs.Prelude.{◌≡◌, ◌-◌, ◌≤◌, length, take};
ghost use Rattle.fields.specs.Answers.{number_in};
ghost use Rattle.fields.specs.Outcome.{accepted};
ghost use Rattle.pod.specs.Values.{BasicBlock, Routine};
ghost use Rattle.pod.specs.Written.{block_bytes};
ghost use Rattle.machine.specs.Edits.{insert_at, with_blocks, size};
ghost use Rattle.machine.specs.Journal.{undo_remove};
ghost use Rattle.machine.specs.Book.{in_image, held};
ghost use Rattle.book.specs.Says.{state, leaves, taking_back, refusal_of};
ghost use Rattle.book.specs.Holding.{Holding};
ghost use Rattle.journal.specs.Says.{trailer_of};
ghost use Rattle.book.specs.Holding.{IsSound};
ghost use Rattle.undo_remove.specs.Blocks.{is_block};
ghost use Rattle.undo_remove.specs.Insertable.{Insertable, HasInsertable};

use book::{Answered, Book};
use fields::Refusal;
use journal::Trailer;
use pod::Vip;

// Whether `s` is exactly one block in written form, with the vip.
fn is_block(s: &[u8], vip: Vip) -> bool
    ensures { result ≡ is_block vip.0 s.now }
{
    match block::block_skip(s, 0) {
        Ok((sight, end)) => {
            if (end == s.len()) & sight.written {
                fields::eight(s, 0) == vip.0
            } else {
                false
            }
        }
        Err(_) => false,
    }
}

// The block goes to its place, and the one standing there goes last: it is written after the last block, and then the two change places. Where its
// place is the number of blocks, it stays there. The count of blocks stands in the 4 bytes before them.
fn swap_insert(image: &mut [u8], place: usize, written: usize, block: &[u8])
    requires { HasInsertable image.old place written block.now }
    ensures { (r : Routine) (b : BasicBlock) → Insertable r image.old place written block.now → block.now ≡ block_bytes b
        → image.new ≡ in_image (length image.old) (with_blocks (insert_at place b r.explored_blocks) r) }
{
    let blocks = image::blocks_of(image);
    let count = blocks.count;
    let count_at = blocks.start - 4;
    let more = count + 1;
    let end = written + block.len();
    if count as usize <= place {
        buffer::copy_at(image, written, block);
        buffer::put_u32(image, count_at, more);
        return;
    }
    let at = blocks.offset(place);
    let next = ends::block_end(image, at);
    buffer::copy_at(image, written, block);
    exchange::exchange(image, at, next, written, end);
    buffer::put_u32(image, count_at, more);
}

// Whether the removal whose entry ends in the trailer `last`, after `entries`, is taken back: the block's bytes are one written block with the vip, no block has it, the place is one of the blocks' or the next, and there is room. What `last` says comes from the journal, so it is compared
// before it is subtracted.
fn entry_fits(image: &[u8], written: usize, entries: &[u8], last: Trailer) -> Result<(), Refusal>
    requires { written ≤ length image.now }
    ensures { (r : Routine) → Holding image.now r → written ≡ size r → number_in result ≡ refusal_of (undo_remove (length image.now) r entries.now (trailer_of last)) }
{
    let vip = last.vip;
    let size = last.len as usize;
    let place = last.place as usize;
    if entries.len() < size {
        return Err(Refusal::SpoiledBook);
    }
    let from = entries.len() - size;
    if !is_block(&entries[from..], vip) {
        return Err(Refusal::SpoiledBook);
    }
    let blocks = image::blocks_of(image);
    if blocks.find(vip).is_some() {
        return Err(Refusal::SpoiledBook);
    }
    if (blocks.count as usize) < place {
        return Err(Refusal::SpoiledBook);
    }
    if image.len() - written < size {
        return Err(Refusal::SpoiledBook);
    }
    Ok(())
}

// The removal whose entry ends in the trailer `last` is taken back, or refused with 13 where the entry does not fit, and then where the sum is too large for
// what the block comes to.
pub fn undo_remove(book: Book, image: &mut [u8], journal: &mut [u8], last: Trailer) -> Answered
    requires { (IsSound (state image.old journal.old book)) × (20 ≤ book.used) }
    ensures { (r : Routine) → held (state image.old journal.old book) ≡ accepted r
        → leaves book result image.new journal.new
        ≡ taking_back (state image.old journal.old book) r (undo_remove (length image.old) r (take (book.used - 20) journal.old) (trailer_of last)) }
{
    let written = book.written as usize;
    let used = book.used as usize;
    let before = used - journal::TRAILER_SIZE;
    // named, so that the goals are named for it and not for the call
    let fits = entry_fits(image, written, &journal[..before], last);
    fits?;
    let size = last.len as usize;
    let from = before - size;
    let more = charge::sum_of_block(&journal[from..before], 0, book.rates);
    let sum = book::carry(book.sum, more)?;
    swap_insert(image, last.place as usize, written, &journal[from..before]);
    buffer::clear(journal, from, used);
    let grown = written + size;
    Ok(Book {
        written: grown as u64,
        used: from as u64,
        sum,
        ..book
    })
}
