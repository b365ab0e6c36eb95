// The writer of an instruction value: the written form at the start of an image.
//
// A function that has a `requires` is called only with numbers that `write_instruction` has tested.
#![tactic(auto)]

ghost use Rattle.std.specs.Prelude.{◌≡◌, ◌+◌, ◌≤◌, ◌<◌, length};
ghost use Rattle.fields.specs.Bytes.{put};
ghost use Rattle.fields.specs.Outcome.{of_result};
ghost use Rattle.fields.specs.Lists.{any};
ghost use Rattle.pod.specs.Written.{register_bytes, immediate_bytes, operand_bytes, name_bytes, instruction_bytes};
ghost use Rattle.pod.specs.Descs.{is_foreign, is_unknown, desc_operand, desc_instruction, write_instruction};
ghost use Rattle.writer.specs.Answers.{write_answer};
ghost use Rattle.writer.specs.Forms.{operand_len, operands_bytes, tail_bytes};

use fields::Refusal;
use pod::{ImmediateDesc, InstructionDesc, OperandDesc, RegisterDesc};

// Refusal 0: written, so many bytes. The outside copy answers it too.
#[repr(C)]
#[derive(Clone, Copy)]
pub struct Written {
    pub refusal: u64,
    pub size: u64,
}

// How many bytes were written, or why none was, as C sees it.
impl From<Result<u64, Refusal>> for Written {
    ghost from_gives = { λ written answer. answer ≡ write_answer (of_result written) };

    #[tactic(auto, unfolding(crate::specs::Answers::write_answer))]
    fn from(written: Result<u64, Refusal>) -> Written {
        match written {
            Ok(size) => Written { refusal: 0, size },
            Err(refusal) => Written {
                refusal: refusal.into(),
                size: 0,
            },
        }
    }
}

// A register that no layout holds. The register of another kind of place is not looked at.
fn is_foreign(place: &OperandDesc) -> bool
    ensures { result ≡ is_foreign place.now }
{
    place.kind == 1 && 2 < place.register.combined_id / 0x0100_0000_0000_0000
}

fn any_foreign(used: &[OperandDesc]) -> bool
    ensures { result ≡ any is_foreign used.now }
{
    used.iter().any(is_foreign)
}

// A kind that no layout holds.
fn any_unknown(used: &[OperandDesc]) -> bool
    ensures { result ≡ any is_unknown used.now }
{
    used.iter().any(|place| 1 < place.kind)
}

// How many bytes the operand in a place takes.
fn operand_size(place: &OperandDesc) -> usize
    ensures { (result ≡ operand_len place.now) × (result ≤ 28) }
{
    if place.kind == 0 { 16 } else { 28 }
}

// How many bytes the used operands take.
fn operands_size(used: &[OperandDesc]) -> usize
    requires { length used.now ≤ 3 }
    ensures { (result ≡ length (operands_bytes used.now)) × (result ≤ 84) }
{
    used.iter().map(operand_size).sum()
}

// How many bytes the written form takes.
fn instruction_size(value: InstructionDesc) -> usize
    requires { (value.op < 49) × (value.count ≤ 3) }
    ensures { result ≡ length (instruction_bytes (desc_instruction value)) }
{
    let used = &value.operands[..value.count as usize];
    29 + op::name_len(value.op as usize) + operands_size(used)
}

fn put_immediate(v: ImmediateDesc, image: &mut [u8], at: usize)
    requires { at + 12 ≤ length image.old }
    ensures { image.new ≡ put at (immediate_bytes v) image.old }
{
    buffer::put_u64(image, at, v.value);
    buffer::put_u32(image, at + 8, v.bit_count);
}

fn put_register(v: RegisterDesc, image: &mut [u8], at: usize)
    requires { at + 24 ≤ length image.old }
    ensures { image.new ≡ put at (register_bytes v) image.old }
{
    buffer::put_u64(image, at, v.flags);
    buffer::put_u64(image, at + 8, v.combined_id);
    buffer::put_u32(image, at + 16, v.bit_count.cast_unsigned());
    buffer::put_u32(image, at + 20, v.bit_offset.cast_unsigned());
}

// The operand in a place, and the offset past it.
fn put_operand(place: &OperandDesc, image: &mut [u8], at: usize) -> usize
    requires { at + operand_len place.now ≤ length image.old }
    ensures { (result ≡ at + operand_len place.now) × (image.new ≡ put at (operand_bytes (desc_operand place.now)) image.old) }
{
    if place.kind == 0 {
        buffer::put_u32(image, at, 0);
        put_immediate(place.immediate, image, at + 4);
        return at + 16;
    }
    buffer::put_u32(image, at, 1);
    put_register(place.register, image, at + 4);
    at + 28
}

// The used operands, and the offset past them.
fn put_operands(used: &[OperandDesc], image: &mut [u8], at: usize) -> usize
    requires { at + length (operands_bytes used.now) ≤ length image.old }
    ensures { (result ≡ at + length (operands_bytes used.now)) × (image.new ≡ put at (operands_bytes used.now) image.old) }
{
    let mut end = at;
    for place in used {
        end = put_operand(place, image, end);
    }
    end
}

// The name of operation `k` with its size before it, and the offset past it.
fn put_name(k: usize, image: &mut [u8]) -> usize
    requires { (k < 49) × (length (name_bytes k) ≤ length image.old) }
    ensures { (result ≡ length (name_bytes k)) × (image.new ≡ put 0 (name_bytes k) image.old) }
{
    let n = op::name_len(k);
    buffer::put_u32(image, 0, n as u32);
    for j in 0..n {
        image[4 + j] = op::name_byte(k, j);
    }
    4 + n
}

// What follows the operands.
fn put_tail(value: InstructionDesc, image: &mut [u8], at: usize)
    requires { at + 21 ≤ length image.old }
    ensures { image.new ≡ put at (tail_bytes value) image.old }
{
    let vip = value.vip;
    buffer::put_u64(image, at, vip.0);
    buffer::put_u64(image, at + 8, value.sp_offset.cast_unsigned());
    buffer::put_u32(image, at + 16, value.sp_index);
    buffer::put_u8(image, at + 20, value::flag_bit(value.sp_reset));
}

// The whole written form.
fn put_instruction(value: InstructionDesc, image: &mut [u8])
    requires { (value.op < 49) × ((value.count ≤ 3) × (length (instruction_bytes (desc_instruction value)) ≤ length image.old)) }
    ensures { image.new ≡ put 0 (instruction_bytes (desc_instruction value)) image.old }
{
    let count = put_name(value.op as usize, image);
    buffer::put_u32(image, count, value.count);
    let used = &value.operands[..value.count as usize];
    let tail = put_operands(used, image, count + 4);
    put_tail(value, image, tail);
}

// How many bytes were written. Every test comes before the first store, so that a refusal leaves the image as it was.
#[tactic(auto, unfolding(pod::specs::Descs::writing, pod::specs::Descs::written_to, fields::specs::Outcome::refuse_if, fields::specs::Outcome::refuse_unless, fields::specs::Outcome::after, fields::specs::Outcome::attempt, fields::specs::Lists::choose))]
fn written_size(value: InstructionDesc, image: &mut [u8]) -> Result<u64, Refusal>
    ensures { (of_result result, image.new) ≡ write_instruction image.old value }
{
    if !fields::is_lent(image.len()) {
        return Err(Refusal::LendingTooLarge);
    }
    if 48 < value.op {
        return Err(Refusal::UnknownOperation);
    }
    if value.count != op::operand_count(value.op as usize) {
        return Err(Refusal::WrongOperandCount);
    }
    let used = &value.operands[..value.count as usize];
    if any_foreign(used) {
        return Err(Refusal::ForeignRegister);
    }
    if any_unknown(used) {
        return Err(Refusal::UnknownOperandKind);
    }
    let size = instruction_size(value);
    if image.len() < size {
        return Err(Refusal::ImageFull);
    }
    put_instruction(value, image);
    Ok(size as u64)
}

// Writes the value at the image's start and touches no byte after. The answer is as C sees it.
pub fn write_instruction(value: InstructionDesc, image: &mut [u8]) -> Written
    ensures { (result ≡ write_answer (write_instruction image.old value).0) × (image.new ≡ (write_instruction image.old value).1) }
{
    written_size(value, image).into()
}
