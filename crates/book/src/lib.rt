// The book that a caller keeps, what a call on it answers, and the rates of a charge. What C sees of an answer is made of it here, by `new` and
// `opening`; and what edits test last is tested here: 11 and 12.
#![tactic(auto)]

ghost use Rattle.std.specs.Prelude.{◌≡◌, ◌+◌, ◌^◌, ◌≤◌, ◌<◌, List, ℕ, IfOk, IfErr};
ghost use Rattle.fields.specs.Answers.{number_in};
ghost use Rattle.machine.specs.Edits as edits;
ghost use Rattle.book.specs.Says.{outcome, walk_outcome, leaves, opens, hands, refusal_of};

pub mod lent;

use fields::Refusal;
pub use lent::Lent;

// The rates of the six groups of operations, in hundredths of a cent per instruction.
#[repr(C)]
#[derive(Clone, Copy)]
pub struct Rates {
    pub rate: [u32; 6],
}

// Document 01's book: the written length of the routine in the image, and the journal bytes used. And document 02's, d: the rates, fixed at opening, and
// the running sum in hundredths of a cent; and f: the walk, 0 where none is open, else 1 + the place of the block that next hands out.
#[repr(C)]
#[derive(Clone, Copy)]
pub struct Book {
    pub written: u64,
    pub used: u64,
    pub rates: Rates,
    pub sum: u64,
    pub walk: u64,
}

// What a call on a book answers: the book after it; or the refusal, and then the book stays as it was.
pub type Answered = Result<Book, Refusal>;

// A part of the image.
#[derive(Clone, Copy)]
pub struct Part {
    pub offset: u64,
    pub len: u64,
}

// An accepted next: the book after it, and the part of the image that it hands out, if this is not the end.
#[derive(Clone, Copy)]
pub struct HandedOut {
    pub book: Book,
    pub part: Option<Part>,
}

// What C sees where no part is handed out.
const NO_PART: Part = Part { offset: 0, len: 0 };

// What C sees of an opening, an edit, an undo, a start or an abandon: refusal 0 with the new book, or a refusal's number with the book as handed in (of an
// opening: a book of zeros).
#[repr(C)]
#[derive(Clone, Copy)]
pub struct Answer {
    pub refusal: u64,
    pub book: Book,
}

// What C sees of next: the part of the image that it hands out beside. At the end, and where it is refused, offset and length are 0.
#[repr(C)]
#[derive(Clone, Copy)]
pub struct WalkAnswer {
    pub refusal: u64,
    pub book: Book,
    pub offset: u64,
    pub len: u64,
}

impl Answer {
    // What C sees of a call on the book `before`.
    pub fn new(before: Book, answered: Answered) -> Answer
        ensures { (image journal : List ℕ) → outcome result image journal ≡ leaves before answered image journal }
    {
        match answered {
            Ok(book) => Answer { refusal: 0, book },
            Err(refusal) => Answer {
                refusal: u64::from(refusal),
                book: before,
            },
        }
    }

    // What C sees of an opening: where it is refused, a book of zeros.
    pub fn opening(answered: Answered) -> Answer
        ensures { (image journal : List ℕ) → outcome result image journal ≡ opens answered image journal }
    {
        match answered {
            Ok(book) => Answer { refusal: 0, book },
            Err(refusal) => Answer {
                refusal: u64::from(refusal),
                book: Book {
                    written: 0,
                    used: 0,
                    rates: Rates { rate: [0; 6] },
                    sum: 0,
                    walk: 0,
                },
            },
        }
    }
}

impl WalkAnswer {
    // What C sees of a next on the book `before`.
    pub fn new(before: Book, answered: Result<HandedOut, Refusal>) -> WalkAnswer
        ensures { (image journal : List ℕ) → walk_outcome result image journal ≡ hands before answered image journal }
    {
        match answered {
            Ok(handed) => {
                let book = handed.book;
                let part = handed.part.unwrap_or(NO_PART);
                WalkAnswer {
                    refusal: 0,
                    book,
                    offset: part.offset,
                    len: part.len,
                }
            }
            Err(refusal) => WalkAnswer {
                refusal: u64::from(refusal),
                book: before,
                offset: 0,
                len: 0,
            },
        }
    }
}

// Whether there is room for what is written and used after an edit: 11, then 12.
pub fn admit(
    image_len: usize,
    journal_len: usize,
    written: usize,
    used: usize,
) -> Result<(), Refusal>
    ensures { number_in result ≡ refusal_of (edits.admit (record { image = image_len; journal = journal_len }) written used) }
{
    if image_len < written {
        return Err(Refusal::ImageFull);
    }
    if journal_len < used {
        return Err(Refusal::JournalFull);
    }
    Ok(())
}

// The sum with so much more: 13 where it does not fit 64 bits.
pub fn carry(sum: u64, more: u64) -> Result<u64, Refusal>
    ensures ok { IfOk result (λ after. (after ≡ sum + more) × (after < 2 ^ 64)) }
    ensures err { IfErr result (λ refusal. (refusal ≡ Refusal.SpoiledBook) × (2 ^ 64 ≤ sum + more)) }
{
    match sum.checked_add(more) {
        Some(after) => Ok(after),
        None => Err(Refusal::SpoiledBook),
    }
}
