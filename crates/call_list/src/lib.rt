// A list of calls, run on a book that is there, or on a file from its opening on.
#![tactic(auto)]

ghost use Rattle.std.specs.Prelude.{◌≡◌, ◌≤◌, ◌/◌, true, List, ℕ, length, slice_index};
ghost use Rattle.std.specs.Simd.{first_chunks};
ghost use Rattle.book.specs.Says.{state, walk_outcome, leaves, hands};
ghost use Rattle.book.specs.declared.Book.{Book as Prior};
ghost use Rattle.machine.specs.CallList.{is_call_list, call_of, call_at, calls, told, told_step, nothing_told, ran, run_on};
ghost use Rattle.call_list.specs.Says.{run_outcome, run_told};
ghost use Rattle.call_list.specs.Runs.{Runs};

use book::{Answer, Answered, Book, HandedOut, Lent, Rates, WalkAnswer};
use fields::Refusal;
use pod::Vip;

// The kinds of calls are 0 to this one.
const LAST_KIND: u64 = 6;

// What a run over a list answers: `refusal` of the words or the opening, after which nothing is changed; else 0, and `last`, the refusal of the last
// call, or 0 where it was accepted or the list is empty. The book is the one after the list. Offset and length are those that the last call handed out, where it
// is an accepted next, else 0.
#[repr(C)]
#[derive(Clone, Copy)]
pub struct RunAnswer {
    pub refusal: u64,
    pub last: u64,
    pub book: Book,
    pub offset: u64,
    pub len: u64,
}

// A run that was refused before its first call.
fn not_run(answer: Answer) -> RunAnswer
    ensures { (image journal : List ℕ) → run_outcome result image journal ≡ (answer.refusal, nothing_told, state image journal answer.book) }
{
    let book = answer.book;
    RunAnswer {
        refusal: answer.refusal,
        last: 0,
        book,
        offset: 0,
        len: 0,
    }
}

// A run that went through its list, of which the last call answered so.
fn done(last: WalkAnswer) -> RunAnswer
    ensures { (image journal : List ℕ) → run_outcome result image journal ≡ (0, (walk_outcome last image journal).0, (walk_outcome last image journal).1) }
{
    let book = last.book;
    RunAnswer {
        refusal: 0,
        last: last.refusal,
        book,
        offset: last.offset,
        len: last.len,
    }
}

// Whether the words and bytes encode a list of calls.
fn is_call_list(words: &[u64], bytes: &[u8]) -> bool
    ensures { result ≡ is_call_list words.now bytes.now }
{
    let most = bytes.len() as u64;
    let (calls, rest) = words.as_chunks::<4>();
    for call in calls {
        if LAST_KIND < call[0] {
            return false;
        }
        if call[3] < call[2] {
            return false;
        }
        if most < call[3] {
            return false;
        }
    }
    rest.is_empty()
}

// A call that hands out no part of the image.
fn without_part(answered: Answered) -> Result<HandedOut, Refusal>
    ensures { (book : Prior) (image journal : List ℕ) → hands book result image journal
        ≡ (told (leaves book answered image journal).0, (leaves book answered image journal).1) }
{
    let book = answered?;
    Ok(HandedOut { book, part: None })
}

// One call, by its kind, the number that C hands over: nothing else reads it, so it is no enum. Only next hands out a part of the image.
fn call(
    book: Book,
    image: &mut [u8],
    journal: &mut [u8],
    kind: u64,
    vip: Vip,
    bytes: &[u8],
) -> Result<HandedOut, Refusal>
    ensures { hands book result image.new journal.new ≡ told_step (call_of kind vip.0 bytes.now) (state image.old journal.old book) }
{
    match kind {
        0 => without_part(calls::create_block(book, image, journal, vip)),
        1 => without_part(calls::remove_block(book, image, journal, vip)),
        2 => without_part(calls::append(book, image, journal, vip, bytes)),
        3 => without_part(calls::undo(book, image, journal)),
        4 => without_part(walk::start(Lent {
            book,
            image,
            journal,
        })),
        5 => walk::next(Lent {
            book,
            image,
            journal,
        }),
        _ => without_part(walk::abandon(Lent {
            book,
            image,
            journal,
        })),
    }
}

// The call that four words say.
fn call_in(
    book: Book,
    image: &mut [u8],
    journal: &mut [u8],
    words: &[u64; 4],
    bytes: &[u8],
) -> Result<HandedOut, Refusal>
    requires ordered { slice_index words.now 2 ≤ slice_index words.now 3 }
    requires inside { slice_index words.now 3 ≤ length bytes.now }
    ensures { hands book result image.new journal.new ≡ told_step (call_at words.now bytes.now 0) (state image.old journal.old book) }
{
    let begin = words[2] as usize;
    let end = words[3] as usize;
    call(
        book,
        image,
        journal,
        words[0],
        Vip(words[1]),
        &bytes[begin..end],
    )
}

// The words of the calls of a list: four for each call, from the first call to the last.
fn words_of_calls(words: &[u64]) -> &[[u64; 4]]
    ensures number { length result.now ≡ length words.now / 4 }
    ensures fours { result.now ≡ first_chunks 4 (length words.now / 4) words.now }
{
    words.as_chunks::<4>().0
}

// The calls of a list on a book, each with the book that the one before it answered. What the last call answers tells of any call of a list: it is that of
// the list that ends there. Every call inspects image and book anew; no other work grows with the list's length.
fn run_calls(
    book: Book,
    image: &mut [u8],
    journal: &mut [u8],
    words: &[u64],
    bytes: &[u8],
) -> WalkAnswer
    requires { is_call_list words.now bytes.now ≡ true }
    ensures { walk_outcome result image.new journal.new ≡ ran nothing_told (calls words.now bytes.now) (state image.old journal.old book) }
{
    let calls = words_of_calls(words);
    let mut last = WalkAnswer {
        refusal: 0,
        book,
        offset: 0,
        len: 0,
    };
    for call in calls {
        let held = last.book;
        let answered = call_in(held, image, journal, call, bytes);
        last = WalkAnswer::new(held, answered);
    }
    last
}

// Opens a file at rates and runs a list of calls.
pub fn run(
    file: &[u8],
    image: &mut [u8],
    journal: &mut [u8],
    words: &[u64],
    bytes: &[u8],
    rates: Rates,
) -> RunAnswer
    ensures { Runs file.now image.old journal.old words.now bytes.now rates.rate (run_outcome result image.new journal.new) }
{
    if !is_call_list(words, bytes) {
        return not_run(Answer::opening(Err(Refusal::NoSuchBlock)));
    }
    match opening::open(file, image, journal, rates) {
        Ok(fresh) => done(run_calls(fresh, image, journal, words, bytes)),
        Err(refusal) => not_run(Answer::opening(Err(refusal))),
    }
}

// Runs a list of calls on a book that is there.
pub fn run_on(
    book: Book,
    image: &mut [u8],
    journal: &mut [u8],
    words: &[u64],
    bytes: &[u8],
) -> RunAnswer
    ensures { run_outcome result image.new journal.new ≡ run_told (run_on words.now bytes.now (state image.old journal.old book)) }
{
    if !is_call_list(words, bytes) {
        return not_run(Answer::new(book, Err(Refusal::NoSuchBlock)));
    }
    done(run_calls(book, image, journal, words, bytes))
}
