// Opening: a file's routine goes into the lent image in its written form, with zeros after it, the lent journal is cleared, and the book carries the rates
// and what the routine comes to at them.
#![tactic(auto)]

ghost use Rattle.std.specs.Prelude.{◌≡◌, ◌≤◌, length};
ghost use Rattle.fields.specs.Parse.{ok};
ghost use Rattle.fields.specs.Bytes.{put};
ghost use Rattle.fields.specs.Outcome.{attempt};
ghost use Rattle.pod.specs.Values.{Routine};
ghost use Rattle.pod.specs.Layout.{read_file};
ghost use Rattle.pod.specs.Written.{routine_bytes};
ghost use Rattle.machine.specs.Charge.{sum};
ghost use Rattle.machine.specs.Book.{unopened, opened, open_book};
ghost use Rattle.book.specs.Says.{opens};
ghost use Rattle.opening.specs.Said.{Said};

use book::{Answered, Book, Rates};
use fields::Refusal;

// The written form of the routine that the file's first `n` bytes say, over the first `n` of the image. Answers what the routine comes to: the walk that
// brings the copy to written form adds it up.
fn put_written(file: &[u8], image: &mut [u8], n: usize, rates: Rates) -> u64
    requires { (n ≤ length file.now) × ((n ≤ length image.old) × Said file.now image.old n) }
    ensures { (x : Routine) → read_file file.now ≡ ok x n → (image.new ≡ put 0 (routine_bytes x) image.old) × (result ≡ sum rates.rate x) }
{
    let mut table = [0; 49];
    charge::fill(&mut table, rates);
    buffer::copy_at(image, 0, &file[..n]);
    let passed = normal::normalise_routine(image, &table);
    passed.sum
}

// The routine that the file's first `n` bytes say goes into the image where there is room for it. A written form is as long as what it was read
// from, so its size is `n`, whatever the file has after it.
fn fill(file: &[u8], image: &mut [u8], journal: &mut [u8], n: usize, rates: Rates) -> Answered
    requires { (n ≤ length file.now) × Said file.now image.old n }
    ensures { (x : Routine) → read_file file.now ≡ ok x n
        → opens result image.new journal.new ≡ attempt (unopened image.old journal.old) (opened image.old journal.old rates.rate x) }
{
    let room = image.len();
    if room < n {
        return Err(Refusal::ImageFull);
    }
    let sum = put_written(file, image, n, rates);
    buffer::clear(image, n, room);
    let all = journal.len();
    buffer::clear(journal, 0, all);
    Ok(Book {
        written: n as u64,
        used: 0,
        rates,
        sum,
        walk: 0,
    })
}

// Document 01's opening, at rates.
pub fn open(file: &[u8], image: &mut [u8], journal: &mut [u8], rates: Rates) -> Answered
    ensures { opens result image.new journal.new ≡ open_book file.now image.old journal.old rates.rate }
{
    if !fields::is_lent(image.len()) {
        return Err(Refusal::LendingTooLarge);
    }
    if !fields::is_lent(journal.len()) {
        return Err(Refusal::LendingTooLarge);
    }
    let (_, n) = reader::pass_file(file)?;
    fill(file, image, journal, n, rates)
}
