// The edit create, in place. Its journal entry is a trailer alone.
//
// create_block has a `requires` that the state is sound: it is for the crate above, whose call inspects the lent image and the book first.
#![tactic(auto)]

ghost use Rattle.std.specs.Prelude.{◌≡◌, ◌+◌, ◌≤◌, length};
ghost use Rattle.pod.specs.Values.{Routine};
ghost use Rattle.machine.specs.Edits.{create};
ghost use Rattle.machine.specs.Machine.{edit};
ghost use Rattle.machine.specs.Book.{in_image, step};
ghost use Rattle.book.specs.Says.{state, leaves};
ghost use Rattle.book.specs.Holding.{IsSound};
ghost use Rattle.image.specs.Filled.{Filled, IsFilled};
ghost use Rattle.create.specs.Created.{with_new};

use book::{Answered, Book};
use fields::Refusal;
use journal::{Edit, Trailer};
use pod::Vip;

// A block with the vip goes last. The image is zeros after the blocks, so of the new block only its vip is stored.
fn add_block(image: &mut [u8], written: usize, vip: Vip)
    requires { IsFilled image.old written × (written + 36 ≤ length image.old) }
    ensures { (x : Routine) → Filled image.old written x → image.new ≡ in_image (length image.old) (with_new vip.0 x) }
{
    let blocks = image::blocks_of(image);
    let start = blocks.start;
    let count = blocks.count;
    buffer::put_u64(image, written, vip.0);
    buffer::put_u32(image, start - ends::COUNT_SIZE, count + 1);
}

// The block, where its vip is not present yet: 14, then 11, 12. It has no instructions, so the sum stays, whatever it is.
pub fn create_block(book: Book, image: &mut [u8], journal: &mut [u8], vip: Vip) -> Answered
    requires { IsSound (state image.old journal.old book) }
    ensures { leaves book result image.new journal.new ≡ step (edit (create vip.0)) (state image.old journal.old book) }
{
    let written = book.written as usize;
    let used = book.used as usize;
    let blocks = image::blocks_of(image);
    if blocks.find(vip).is_some() {
        return Err(Refusal::BlockPresent);
    }
    let count = blocks.count;
    let grown = written + ends::EMPTY_BLOCK_SIZE;
    let spent = used + journal::TRAILER_SIZE;
    book::admit(image.len(), journal.len(), grown, spent)?;
    add_block(image, written, vip);
    let trailer = Trailer {
        vip,
        place: count,
        len: 0,
        kind: u32::from(Edit::Create),
    };
    journal::put_trailer(journal, used, trailer);
    Ok(Book {
        written: grown as u64,
        used: spent as u64,
        ..book
    })
}
