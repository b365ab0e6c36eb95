// Sending a routine block by block, document 02's walk: start, next, abandon. Each first inspects the lent image and the book, and changes nothing but the book's
// walk. The walk is 0 where none is open, else 1 + the place of the block that next hands out.
#![tactic(auto)]

ghost use Rattle.std.specs.Prelude.{◌≡◌};
ghost use Rattle.machine.specs.Walk.{walk_start, walk_next, walk_abandon};
ghost use Rattle.machine.specs.Machine.{walking};
ghost use Rattle.machine.specs.Book.{step};
ghost use Rattle.machine.specs.CallList.{told_step};
ghost use Rattle.book.specs.Says.{state_of, leaves, hands};

use book::{Answered, Book, HandedOut, Lent, Part};
use fields::Refusal;

// A walk that is open at the first place.
const FIRST: u64 = 1;

// No walk is open.
const CLOSED: u64 = 0;

// A walk begins at the first block: 20 where one is open.
pub fn start(lent: Lent) -> Answered
    ensures { leaves lent.entry.book result lent.entry.image.now lent.entry.journal.now ≡ step (walking walk_start) (state_of lent.entry) }
{
    image::inspect_unwalked(lent)?;
    Ok(Book {
        walk: FIRST,
        ..lent.book
    })
}

// The block at the walk's place, by the part of the image that it is; after the last the end, which closes the walk: 21 where none is open. The inspection
// passes the block on its way, so that this takes one walk over the image.
pub fn next(lent: Lent) -> Result<HandedOut, Refusal>
    ensures { hands lent.entry.book result lent.entry.image.now lent.entry.journal.now
        ≡ told_step (walking walk_next) (state_of lent.entry) }
{
    let found = image::inspect_at(lent)?;
    let walk = lent.book.walk;
    if walk == CLOSED {
        return Err(Refusal::NoWalk);
    }
    let Some(block) = found else {
        return Ok(HandedOut {
            book: Book {
                walk: CLOSED,
                ..lent.book
            },
            part: None,
        });
    };
    Ok(HandedOut {
        book: Book {
            walk: walk + 1,
            ..lent.book
        },
        part: Some(Part {
            offset: block.from as u64,
            len: (block.to - block.from) as u64,
        }),
    })
}

// The walk is closed before its end: 21 where none is open.
pub fn abandon(lent: Lent) -> Answered
    ensures { leaves lent.entry.book result lent.entry.image.now lent.entry.journal.now ≡ step (walking walk_abandon) (state_of lent.entry) }
{
    image::inspect(lent)?;
    if lent.book.walk == CLOSED {
        return Err(Refusal::NoWalk);
    }
    let walk = CLOSED;
    Ok(Book { walk, ..lent.book })
}
