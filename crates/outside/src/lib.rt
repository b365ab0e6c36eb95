// A copy for outside reviewers, document 02, g: the routine's bytes go into a second image, and a light walk over the copy puts 0 over the value of every
// immediate. Nothing else of a written form depends on these values, and masking moves nothing, so one copy and one walk suffice.
//
// The walk knows that a written form stands where it goes, so it tests no length on its way.
#![tactic(auto)]

ghost use Rattle.std.specs.Prelude.{◌≡◌, ℕ, List, ◌≤◌, ◌<◌, length};
ghost use Rattle.fields.specs.Outcome.{of_result};
ghost use Rattle.pod.specs.Values.{Routine};
ghost use Rattle.pod.specs.Written.{operand_bytes, instruction_bytes, block_bytes};
ghost use Rattle.laws.specs.Holds.{OperandHolds, InstructionHolds, BlockHolds};
ghost use Rattle.machine.specs.Book.{in_image};
ghost use Rattle.machine.specs.Outside.{mask_operand, mask_instruction, mask_block, masked, outside_copy};
ghost use Rattle.book.specs.Says.{state_of};
ghost use Rattle.image.specs.Filled.{IsFilled, Filled};
ghost use Rattle.writer.specs.Answers.{write_answer};
ghost use Rattle.outside.specs.Masks.{Stands, Masks};
ghost use Rattle.outside.specs.Chains.{Chain};
ghost use denote.Ref.{MutBor};

use book::Lent;
use fields::Refusal;
use writer::Written;

// In an operand, its kind stands before the immediate or the register. An immediate begins with its value.
const VALUE_AT: usize = 4;

const IMMEDIATE_OPERAND: usize = VALUE_AT + ends::IMMEDIATE_SIZE;

// How much longer a register is.
const REGISTER_MORE: usize = ends::REGISTER_SIZE - ends::IMMEDIATE_SIZE;

// `count` parts from `at` on, each masked by `one`, which answers its end. Answers the end of the last.
fn mask_each<F: Fn(&mut [u8], usize) -> usize>(a: &mut [u8], at: usize, count: u64, one: F) -> usize
    requires { (n : ℕ) (s : List ℕ) (o : ℕ) → n < count → Chain (F.post one) n a.old at s o → (x : MutBor (List ℕ)) → x.now ≡ s → F.pre one x o }
    ensures { Chain (F.post one) count a.old at a.new result }
{
    let mut end = at;
    for part in 0..count {
        end = one(a, end);
    }
    end
}

// The operand at `at`: of an immediate the value becomes 0, and its width stays. Answers its end, as all of these do. The kind is 0 of an immediate and 1 of
// a register, so it is a factor and no branch: a file's operands follow no pattern that a processor foresees.
fn mask_operand(a: &mut [u8], at: usize) -> usize
    requires { Stands OperandHolds operand_bytes a.old at }
    ensures { Masks OperandHolds operand_bytes mask_operand a.old at result a.new }
{
    let kind = fields::four(a, at);
    let kept = fields::eight(a, at + VALUE_AT) * kind;
    buffer::put_u64(a, at + VALUE_AT, kept);
    let more = REGISTER_MORE * (kind as usize);
    at + IMMEDIATE_OPERAND + more
}

// The instruction at `at`: its operands stand after its name, which follows the name's size, and after their count.
fn mask_instruction(a: &mut [u8], at: usize) -> usize
    requires { Stands InstructionHolds instruction_bytes a.old at }
    ensures { Masks InstructionHolds instruction_bytes mask_instruction a.old at result a.new }
{
    let name = at + 4;
    let counted = name + fields::four(a, at) as usize;
    let count = fields::four(a, counted);
    let operands = counted + ends::COUNT_SIZE;
    let tail = mask_each(a, operands, count, mask_operand);
    tail + ends::INSTRUCTION_TAIL
}

// The block at `at`: the numbers before its lists and its vips stay.
fn mask_block(a: &mut [u8], at: usize) -> usize
    requires { Stands BlockHolds block_bytes a.old at }
    ensures { Masks BlockHolds block_bytes mask_block a.old at result a.new }
{
    let counted = at + ends::BLOCK_HEAD_SIZE;
    let count = fields::four(a, counted);
    let first = counted + ends::COUNT_SIZE;
    let prev = mask_each(a, first, count, mask_instruction);
    let next = ends::vips_end(a, prev);
    ends::vips_end(a, next)
}

// The routine whose written form is the image's first `n` bytes, masked, at the start of a second image that has room for it; then zeros.
fn put_masked(image: &[u8], copy: &mut [u8], n: usize)
    requires { IsFilled image.now n × (n ≤ length copy.old) }
    ensures { (x : Routine) → Filled image.now n x → copy.new ≡ in_image (length copy.old) (masked x) }
{
    let all = copy.len();
    buffer::copy_at(copy, 0, &image[..n]);
    buffer::clear(copy, n, all);
    let blocks = image::blocks_of(copy);
    let first = blocks.start;
    let count = blocks.count as u64;
    mask_each(copy, first, count, mask_block);
}

// How many bytes were copied: 10 for any of the three lendings, 13, then 11. A masked routine is as long as it was, so its size is the book's.
fn masked_copy(lent: Lent, copy: &mut [u8]) -> Result<u64, Refusal>
    ensures { (of_result result, copy.new) ≡ outside_copy (state_of lent.entry) copy.old }
{
    if !fields::is_lent(copy.len()) {
        return Err(Refusal::LendingTooLarge);
    }
    image::inspect(lent)?;
    let written = lent.book.written;
    if (copy.len() as u64) < written {
        return Err(Refusal::ImageFull);
    }
    put_masked(lent.image, copy, written as usize);
    Ok(written)
}

// The call, as C sees it.
pub fn outside_copy(lent: Lent, copy: &mut [u8]) -> Written
    ensures { (result ≡ write_answer (outside_copy (state_of lent.entry) copy.old).0)
        × (copy.new ≡ (outside_copy (state_of lent.entry) copy.old).1) }
{
    masked_copy(lent, copy).into()
}
