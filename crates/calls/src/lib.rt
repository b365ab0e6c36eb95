// The calls on a book. Each first inspects the lent image and the book, so a caller may hand in any bytes and any numbers: 10 and 13 come before
// all else, and nothing is required.
#![tactic(auto)]

ghost use Rattle.std.specs.Prelude.{◌≡◌};
ghost use Rattle.machine.specs.Edits.{create, remove, append};
ghost use Rattle.machine.specs.Machine.{edit, undo};
ghost use Rattle.machine.specs.Book.{step};
ghost use Rattle.book.specs.Says.{state, leaves};

use book::{Answered, Book, Lent};
use pod::Vip;

// A block with the vip goes last: 14 where it is present, then 11, 12.
pub fn create_block(book: Book, image: &mut [u8], journal: &mut [u8], vip: Vip) -> Answered
    ensures { leaves book result image.new journal.new ≡ step (edit (create vip.0)) (state image.old journal.old book) }
{
    image::inspect(Lent {
        book,
        image,
        journal,
    })?;
    create::create_block(book, image, journal, vip)
}

// The block with the vip goes, and the last block takes its place: 20 where a walk is open, 15 where it is absent, then 12, and 13 for the sum.
pub fn remove_block(book: Book, image: &mut [u8], journal: &mut [u8], vip: Vip) -> Answered
    ensures { leaves book result image.new journal.new ≡ step (edit (remove vip.0)) (state image.old journal.old book) }
{
    image::inspect_unwalked(Lent {
        book,
        image,
        journal,
    })?;
    remove::remove_block(book, image, journal, vip)
}

// The instruction that the bytes say goes last in the block with the vip: what reading them refuses, 17, 15, 18, then 11, 12, and 13 for the
// sum.
pub fn append(
    book: Book,
    image: &mut [u8],
    journal: &mut [u8],
    vip: Vip,
    instruction: &[u8],
) -> Answered
    ensures { leaves book result image.new journal.new ≡ step (edit (append vip.0 instruction.now)) (state image.old journal.old book) }
{
    image::inspect(Lent {
        book,
        image,
        journal,
    })?;
    append::append(book, image, journal, vip, instruction)
}

// The last accepted edit that stands is taken back: 20 where a walk is open, 16 where no edit stands, 13 where the journal's last entry does not fit the
// image, and 13 for the sum.
pub fn undo(book: Book, image: &mut [u8], journal: &mut [u8]) -> Answered
    ensures { leaves book result image.new journal.new ≡ step undo (state image.old journal.old book) }
{
    image::inspect_unwalked(Lent {
        book,
        image,
        journal,
    })?;
    undo::undo(book, image, journal)
}
