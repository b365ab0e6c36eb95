// The C interface: include/vtil.h says the same in C.
#![tactic(auto)]

ghost use Rattle.std.specs.Prelude.{◌≡◌, ◌<◌, ◌^◌, pos, length};
ghost use Rattle.fields.specs.Parse.{u64};
ghost use Rattle.pod.specs.Layout.{register, convention, instruction, block, read_file};
ghost use Rattle.pod.specs.Descs.{write_instruction};
ghost use Rattle.machine.specs.Edits.{create, remove, append};
ghost use Rattle.machine.specs.Walk.{walk_start, walk_next, walk_abandon};
ghost use Rattle.machine.specs.Machine.{edit, undo, walking};
ghost use Rattle.machine.specs.Book.{open_book, step};
ghost use Rattle.machine.specs.Outside.{outside_copy};
ghost use Rattle.machine.specs.Look.{look_routine, look_block, look_instruction, look_vip, look_convention, look_register, look_charge};
ghost use Rattle.book.specs.Says.{state, outcome, walk_outcome};
ghost use Rattle.look.specs.Answers.{routine_look, block_look, instruction_look, vip_look, convention_look, register_look};
ghost use Rattle.charge.specs.Answers.{charge_look};
ghost use Rattle.value.specs.Answers.{instruction_read};
ghost use Rattle.pread.specs.Answers.{routine_read, convention_read, register_read, block_read, vip_read};
ghost use Rattle.writer.specs.Answers.{write_answer};
ghost use Rattle.machine.specs.CallList.{told_step, run_on};
ghost use Rattle.call_list.specs.Says.{run_outcome, run_told};
ghost use Rattle.call_list.specs.Runs.{Runs};
ghost use Rattle.vtil.specs.Check.{check_file};

use book::{Answer, Book, Lent, Rates, WalkAnswer};
use call_list::RunAnswer;
use charge::ChargeLook;
use fields::Refusal;
use look::{BlockLook, ConventionLook, InstructionLook, RegisterLook, RoutineLook, VipLook};
use pod::{InstructionDesc, Vip};
use pread::{BlockRead, ConventionRead, RegisterRead, RoutineRead, VipRead};
use value::InstructionRead;
use writer::Written;

// The most that a slice's length can be: 2^63 - 1. A C caller may hand in more.
const MOST_LENGTH: usize = 0x7fff_ffff_ffff_ffff;

// A length as a signed number. It is only called with lengths of parts of a slice.
fn signed(n: usize) -> i64
    requires { n < 2 ^ 63 }
    ensures { result ≡ pos n }
{
    n as i64
}

// The file check: the consumed length, or minus the refusal.
pub fn vtil_check(file: &[u8]) -> i64
    ensures { result ≡ check_file file.now }
{
    if file.len() > MOST_LENGTH {
        return 0 - (Refusal::LendingTooLarge as i64);
    }
    match reader::pass_file(file) {
        Ok((_, n)) => signed(n),
        Err(refusal) => 0 - (u64::from(refusal) as i64),
    }
}

// Reading by offset, without a book: the whole routine that a file starts with,
pub fn vtil_read_routine(file: &[u8]) -> RoutineRead
    ensures { result ≡ routine_read 0 (read_file file.now) }
{
    reader::read_at(file, 0)
}

// and what stands at an offset: a convention,
pub fn vtil_read_convention(file: &[u8], at: usize) -> ConventionRead
    ensures { result ≡ convention_read at (convention file.now at) }
{
    reader::read_at(file, at)
}

// a register,
pub fn vtil_read_register(file: &[u8], at: usize) -> RegisterRead
    ensures { result ≡ register_read (register file.now at) }
{
    reader::read_at(file, at)
}

// a block,
pub fn vtil_read_block(file: &[u8], at: usize) -> BlockRead
    ensures { result ≡ block_read at (block file.now at) }
{
    reader::read_at(file, at)
}

// an instruction,
pub fn vtil_read_instruction(file: &[u8], at: usize) -> InstructionRead
    ensures { result ≡ instruction_read (instruction file.now at) }
{
    reader::read_at(file, at)
}

// a vip.
pub fn vtil_read_vip(file: &[u8], at: usize) -> VipRead
    ensures { result ≡ vip_read (u64 file.now at) }
{
    reader::read_at(file, at)
}

// Opening: the file's written form into the image, zeros after it and into the journal, and a fresh book, which carries the rates and what the routine comes
// to at them.
pub fn vtil_open(file: &[u8], image: &mut [u8], journal: &mut [u8], rates: Rates) -> Answer
    ensures { outcome result image.new journal.new ≡ open_book file.now image.old journal.old rates.rate }
{
    Answer::opening(opening::open(file, image, journal, rates))
}

// The writer of an instruction value.
pub fn vtil_write_instruction(value: InstructionDesc, image: &mut [u8]) -> Written
    ensures { (result ≡ write_answer (write_instruction image.old value).0) × (image.new ≡ (write_instruction image.old value).1) }
{
    writer::write_instruction(value, image)
}

// Looking, by place from 0: at the routine,
pub fn vtil_routine(book: Book, image: &[u8], journal: &[u8]) -> RoutineLook
    ensures { result ≡ routine_look (look_routine (state image.now journal.now book)) }
{
    look::look_routine(Lent {
        book,
        image,
        journal,
    })
}

// a block,
pub fn vtil_block(book: Book, image: &[u8], journal: &[u8], place: u64) -> BlockLook
    ensures { result ≡ block_look (look_block place (state image.now journal.now book)) }
{
    look::blocks::look_block(
        Lent {
            book,
            image,
            journal,
        },
        place,
    )
}

// one of a block's instructions,
pub fn vtil_instruction(
    book: Book,
    image: &[u8],
    journal: &[u8],
    block: u64,
    place: u64,
) -> InstructionLook
    ensures { result ≡ instruction_look (look_instruction block place (state image.now journal.now book)) }
{
    look::blocks::look_instruction(
        Lent {
            book,
            image,
            journal,
        },
        block,
        place,
    )
}

// one of its prev (list 0) or next (1) vips,
pub fn vtil_block_vip(
    book: Book,
    image: &[u8],
    journal: &[u8],
    block: u64,
    list: u64,
    place: u64,
) -> VipLook
    ensures { result ≡ vip_look (look_vip block list place (state image.now journal.now book)) }
{
    look::blocks::look_vip(
        Lent {
            book,
            image,
            journal,
        },
        block,
        list,
        place,
    )
}

// a convention: 0 the routine's, 1 the subroutine's, then the special ones,
pub fn vtil_convention(book: Book, image: &[u8], journal: &[u8], place: u64) -> ConventionLook
    ensures { result ≡ convention_look (look_convention place (state image.now journal.now book)) }
{
    look::conventions::look_convention(
        Lent {
            book,
            image,
            journal,
        },
        place,
    )
}

// one of its volatile (list 0), param (1) or retval (2) registers.
pub fn vtil_convention_register(
    book: Book,
    image: &[u8],
    journal: &[u8],
    convention: u64,
    list: u64,
    place: u64,
) -> RegisterLook
    ensures { result ≡ register_look (look_register convention list place (state image.now journal.now book)) }
{
    look::conventions::look_register(
        Lent {
            book,
            image,
            journal,
        },
        convention,
        list,
        place,
    )
}

// The charge for the routine at the rates of the six groups, in whole cents.
pub fn vtil_charge(book: Book, image: &[u8], journal: &[u8], rates: Rates) -> ChargeLook
    ensures { result ≡ charge_look (look_charge rates.rate (state image.now journal.now book)) }
{
    charge::charge(
        Lent {
            book,
            image,
            journal,
        },
        rates,
    )
}

// The edits, and undo: document 01's take back.
pub fn vtil_create_block(book: Book, image: &mut [u8], journal: &mut [u8], vip: u64) -> Answer
    ensures { outcome result image.new journal.new ≡ step (edit (create vip)) (state image.old journal.old book) }
{
    Answer::new(book, calls::create_block(book, image, journal, Vip(vip)))
}

pub fn vtil_remove_block(book: Book, image: &mut [u8], journal: &mut [u8], vip: u64) -> Answer
    ensures { outcome result image.new journal.new ≡ step (edit (remove vip)) (state image.old journal.old book) }
{
    Answer::new(book, calls::remove_block(book, image, journal, Vip(vip)))
}

pub fn vtil_append(
    book: Book,
    image: &mut [u8],
    journal: &mut [u8],
    vip: u64,
    instruction: &[u8],
) -> Answer
    ensures { outcome result image.new journal.new ≡ step (edit (append vip instruction.now)) (state image.old journal.old book) }
{
    Answer::new(
        book,
        calls::append(book, image, journal, Vip(vip), instruction),
    )
}

pub fn vtil_undo(book: Book, image: &mut [u8], journal: &mut [u8]) -> Answer
    ensures { outcome result image.new journal.new ≡ step undo (state image.old journal.old book) }
{
    Answer::new(book, calls::undo(book, image, journal))
}

// Sending block by block: a walk begins,
pub fn vtil_walk_start(book: Book, image: &[u8], journal: &[u8]) -> Answer
    ensures { outcome result image.now journal.now ≡ step (walking walk_start) (state image.now journal.now book) }
{
    Answer::new(
        book,
        walk::start(Lent {
            book,
            image,
            journal,
        }),
    )
}

// hands out the next block, or says end,
pub fn vtil_walk_next(book: Book, image: &[u8], journal: &[u8]) -> WalkAnswer
    ensures { walk_outcome result image.now journal.now ≡ told_step (walking walk_next) (state image.now journal.now book) }
{
    WalkAnswer::new(
        book,
        walk::next(Lent {
            book,
            image,
            journal,
        }),
    )
}

// or is abandoned.
pub fn vtil_walk_abandon(book: Book, image: &[u8], journal: &[u8]) -> Answer
    ensures { outcome result image.now journal.now ≡ step (walking walk_abandon) (state image.now journal.now book) }
{
    Answer::new(
        book,
        walk::abandon(Lent {
            book,
            image,
            journal,
        }),
    )
}

// A copy for outside reviewers: the routine without the values of its immediates, in a second image.
pub fn vtil_outside_copy(book: Book, image: &[u8], journal: &[u8], copy: &mut [u8]) -> Written
    ensures { (result ≡ write_answer (outside_copy (state image.now journal.now book) copy.old).0)
        × (copy.new ≡ (outside_copy (state image.now journal.now book) copy.old).1) }
{
    outside::outside_copy(
        Lent {
            book,
            image,
            journal,
        },
        copy,
    )
}

// Opens a file at rates and runs a list of calls on it. By its contract it leaves what the routine machine leaves, and carries the sum of the machine's
// routine; demand 3 adds which books hold equal bytes, and what a take back returns to.
pub fn vtil_run(
    file: &[u8],
    image: &mut [u8],
    journal: &mut [u8],
    words: &[u64],
    bytes: &[u8],
    rates: Rates,
) -> RunAnswer
    ensures { Runs file.now image.old journal.old words.now bytes.now rates.rate (run_outcome result image.new journal.new) }
{
    call_list::run(file, image, journal, words, bytes, rates)
}

// The same on a book that is there: words that encode no list are refused 15, with the book as handed in.
pub fn vtil_run_on(
    book: Book,
    image: &mut [u8],
    journal: &mut [u8],
    words: &[u64],
    bytes: &[u8],
) -> RunAnswer
    ensures { run_outcome result image.new journal.new ≡ run_told (run_on words.now bytes.now (state image.old journal.old book)) }
{
    call_list::run_on(book, image, journal, words, bytes)
}
