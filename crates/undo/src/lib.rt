// Taking back the last edit, of whichever kind it was.
//
// `undo` requires that the state is sound and that no walk is open: it is for the crate above, whose call inspects the lent image and the book first.
#![tactic(auto)]

ghost use Rattle.std.specs.Prelude.{◌≡◌};
ghost use Rattle.machine.specs.Machine.{undo};
ghost use Rattle.machine.specs.Book.{step};
ghost use Rattle.book.specs.Says.{state, leaves};
ghost use Rattle.book.specs.Holding.{IsUnwalked};

use book::{Answered, Book};
use fields::Refusal;
use journal::Edit;

// The entry that ends the journal's used part says what to take back; 16 where nothing is used, and 13 where that is no entry.
pub fn undo(book: Book, image: &mut [u8], journal: &mut [u8]) -> Answered
    requires { IsUnwalked (state image.old journal.old book) }
    ensures { leaves book result image.new journal.new ≡ step undo (state image.old journal.old book) }
{
    let used = book.used as usize;
    if used == 0 {
        return Err(Refusal::NothingToTakeBack);
    }
    if used < journal::TRAILER_SIZE {
        return Err(Refusal::SpoiledBook);
    }
    let last = journal::read_trailer(journal, used - journal::TRAILER_SIZE);
    let Some(edit) = journal::edit_of(last.kind) else {
        return Err(Refusal::SpoiledBook);
    };
    match edit {
        Edit::Create => undo_create::undo_create(book, image, journal, last),
        Edit::Remove => undo_remove::undo_remove(book, image, journal, last),
        Edit::Append => undo_append::undo_append(book, image, journal, last),
    }
}
