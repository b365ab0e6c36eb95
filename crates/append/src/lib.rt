// The edit append, in place. Its journal entry is a trailer alone.
//
// append has a `requires` that the state is sound: it is for the crate above, whose call inspects the lent image and the book first.
#![tactic(auto)]

ghost use Rattle.std.specs.Prelude.{◌≡◌, ℕ, ◌+◌, ◌≤◌, ◌<◌, length};
ghost use Rattle.fields.specs.Bytes.{put};
ghost use Rattle.fields.specs.Answers.{number_in};
ghost use Rattle.laws.specs.Normal.{normalise, last_flag};
ghost use Rattle.pod.specs.Values.{Routine};
ghost use Rattle.machine.specs.Edits.{append, block_at, leaves_block, is_closed};
ghost use Rattle.machine.specs.Machine.{edit};
ghost use Rattle.machine.specs.Book.{in_image, step};
ghost use Rattle.book.specs.Says.{state, leaves, refusal_of};
ghost use Rattle.book.specs.Holding.{IsSound, Holding};
ghost use Rattle.image.specs.Places.{FindsLast};
ghost use Rattle.append.specs.Whole.{Whole, one_instruction};
ghost use Rattle.append.specs.Target.{Target, IsTarget, with_one};

use book::{Answered, Book};
use fields::Refusal;
use image::LastInstruction;
use journal::{Edit, Trailer};
use pod::Vip;

// Whether the bytes are one instruction with sound registers: what reading them refuses, each register asked as soon as it has been read, then 17.
fn one_instruction(instruction: &[u8]) -> Result<(), Refusal>
    ensures { number_in result ≡ refusal_of (one_instruction instruction.now) }
{
    let end = instruction::appended_past(instruction, 0)?;
    if end < instruction.len() {
        return Err(Refusal::Leftover);
    }
    Ok(())
}

// The bytes of an instruction over those from `at` on; of its last, the sp reset, the written form is stored.
fn put_instruction(image: &mut [u8], at: usize, instruction: &[u8])
    requires { (0 < length instruction.now) × (at + length instruction.now ≤ length image.old) }
    ensures { image.new ≡ put at (normalise (last_flag instruction.now) instruction.now) image.old }
{
    let last = instruction.len() - 1;
    buffer::copy_at(image, at, instruction);
    let came = instruction[last];
    let reset = value::flag_bit(came);
    buffer::put_u8(image, at + last, reset);
}

// One instruction goes last in the block that begins at `at` and whose instructions end at `end`: what stands from there on moves up to make room.
fn insert_instruction(image: &mut [u8], at: usize, end: usize, written: usize, instruction: &[u8])
    requires { IsTarget image.old written at end × (Whole instruction.now × (written + length instruction.now ≤ length image.old)) }
    ensures { (x : Routine) (i : ℕ) (y : Whole instruction.now) → Target image.old written at end x i
        → image.new ≡ in_image (length image.old) (with_one x i y.x) }
{
    let size = instruction.len();
    let count = ends::word32(image, at + ends::BLOCK_HEAD_SIZE);
    buffer::move_within(image, end, end + size, written - end);
    put_instruction(image, end, instruction);
    buffer::put_u32(image, at + ends::BLOCK_HEAD_SIZE, count + 1);
}

// Whether the engine leaves a block at the operation: js, jmp, vexit and vxcall.
#[tactic(auto, using(crate::proofs::Closed::leaving, crate::proofs::Closed::before_them, crate::proofs::Closed::behind_them))]
fn leaves_block(op: usize) -> bool
    ensures { result ≡ leaves_block op }
{
    match op {
        37..=40 => true,
        _ => false,
    }
}

// Whether the block is closed whose last instruction is `last`. A block without instructions is open.
fn is_closed(image: &[u8], last: LastInstruction) -> bool
    ensures { (x : Routine) (i : ℕ) → Holding image.now x → i < length x.explored_blocks → FindsLast x i last
        → result ≡ is_closed (block_at i x.explored_blocks) }
{
    match last.from {
        Some(from) => leaves_block(instruction::op_of(image, from)),
        None => false,
    }
}

// The instruction that `instruction` is, and nothing after it, goes last in the block with the vip: what reading refuses, and 19, 17, 15, 18, then 11, 12, and 13
// where the sum is too large for what the instruction adds. The walk to the block's last instruction also tells where the new one goes.
pub fn append(
    book: Book,
    image: &mut [u8],
    journal: &mut [u8],
    vip: Vip,
    instruction: &[u8],
) -> Answered
    requires { IsSound (state image.old journal.old book) }
    ensures { leaves book result image.new journal.new ≡ step (edit (append vip.0 instruction.now)) (state image.old journal.old book) }
{
    one_instruction(instruction)?;
    let Some(found) = image::blocks_of(image).find(vip) else {
        return Err(Refusal::NoSuchBlock);
    };
    let last = image::last_instruction(image, found.at);
    if is_closed(image, last) {
        return Err(Refusal::ClosedBlock);
    }
    let written = book.written as usize;
    let used = book.used as usize;
    let size = instruction.len();
    let grown = written + size;
    let spent = used + journal::TRAILER_SIZE;
    book::admit(image.len(), journal.len(), grown, spent)?;
    let more = charge::sum_of_instruction(instruction, 0, book.rates);
    let sum = book::carry(book.sum, more)?;
    insert_instruction(image, found.at, last.end, written, instruction);
    let trailer = Trailer {
        vip,
        place: found.place,
        len: size as u32,
        kind: u32::from(Edit::Append),
    };
    journal::put_trailer(journal, used, trailer);
    Ok(Book {
        written: grown as u64,
        used: spent as u64,
        sum,
        ..book
    })
}
