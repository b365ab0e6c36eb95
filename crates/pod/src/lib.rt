// The values of src/pod.rs, and registers, immediates and operands read at an offset of a slice.
#![tactic(auto)]

ghost use Rattle.std.specs.Prelude.{◌≡◌, ◌+◌, ◌≤◌, length, IfSome};
ghost use Rattle.pod.specs.Layout.{register, immediate, operand};
ghost use Rattle.pod.specs.Sound.{is_slice, is_sound, operand_sound};
ghost use Rattle.pod.specs.Told.{judged};
ghost use Rattle.fields.specs.Parse.{ok, many, counted};
ghost use Rattle.fields.specs.Lists.{every};
ghost use Rattle.fields.specs.Answers.{of_read};

use fields::{Parsed, Refusal};

// A block's address. It is a type of its own, so that it can't stand where a byte offset is due.
#[repr(C)]
#[derive(Clone, Copy)]
pub struct Vip(pub u64);

#[repr(C)]
#[derive(Clone, Copy)]
pub struct RegisterDesc {
    pub flags: u64,
    pub combined_id: u64,
    pub bit_count: i32,
    pub bit_offset: i32,
}

// The 64 bits of the value, whether they are meant signed or not.
#[repr(C)]
#[derive(Clone, Copy)]
pub struct ImmediateDesc {
    pub value: u64,
    pub bit_count: u32,
}

// The fields of a register and of an immediate that are not there.
pub const NO_REGISTER: RegisterDesc = RegisterDesc {
    flags: 0,
    combined_id: 0,
    bit_count: 0,
    bit_offset: 0,
};

pub const NO_IMMEDIATE: ImmediateDesc = ImmediateDesc {
    value: 0,
    bit_count: 0,
};

#[derive(Clone, Copy)]
pub enum Operand {
    Imm(ImmediateDesc),
    Reg(RegisterDesc),
}

// An operand in its place in an instruction value: kind 0 is the immediate, 1 the register. The other's fields are 0 when read, and ignored
// when written.
#[repr(C)]
#[derive(Clone, Copy)]
pub struct OperandDesc {
    pub kind: u32,
    pub immediate: ImmediateDesc,
    pub register: RegisterDesc,
}

// An instruction by value: document 01's instruction value. `op` is the operation's number; `count` says how many places are used. A nonzero
// `sp_reset` is true.
#[repr(C)]
#[derive(Clone, Copy)]
pub struct InstructionDesc {
    pub op: u32,
    pub count: u32,
    pub operands: [OperandDesc; 3],
    pub vip: Vip,
    pub sp_offset: i64,
    pub sp_index: u32,
    pub sp_reset: u8,
}

impl RegisterDesc {
    // Whether it is a slice of a register of 64 bits: a width of at least 1 from an offset of at least 0, and together at most 64.
    pub fn is_sound(self) -> bool
        ensures { result ≡ is_sound self }
    {
        is_slice(self.bit_count, self.bit_offset)
    }
}

impl Operand {
    // Whether its register, if it is one, is sound.
    pub fn is_sound(self) -> bool
        ensures { result ≡ operand_sound self }
    {
        match self {
            Operand::Imm(_) => true,
            Operand::Reg(register) => register.is_sound(),
        }
    }
}

// Whether a register with this width and offset is sound. Their sum is taken in 64 bits, where it cannot wrap.
#[tactic(auto, using(crate::proofs::Slices::narrow, crate::proofs::Slices::before))]
fn is_slice(width: i32, offset: i32) -> bool
    ensures { result ≡ is_slice width offset }
{
    if width < 1 {
        return false;
    }
    if offset < 0 {
        return false;
    }
    let reach = width as u64 + offset as u64;
    reach <= 64
}

#[tactic(auto, unfolding(fields::specs::Parse::bind, crate::specs::Layout::immediate))]
fn immediate_at(s: &[u8], at: usize) -> Parsed<ImmediateDesc>
    ensures { of_read result ≡ immediate s.now at }
{
    let (value, at) = fields::u64_at(s, at)?;
    let (bit_count, at) = fields::u32_at(s, at)?;
    Ok((ImmediateDesc { value, bit_count }, at))
}

#[tactic(auto, unfolding(fields::specs::Parse::bind, fields::specs::Lists::choose, crate::specs::Layout::register))]
pub fn register_at(s: &[u8], at: usize) -> Parsed<RegisterDesc>
    ensures { of_read result ≡ register s.now at }
{
    let (flags, at) = fields::u64_at(s, at)?;
    let (combined_id, at) = fields::u64_at(s, at)?;
    if 2 < combined_id / 0x0100_0000_0000_0000 {
        return Err(Refusal::ForeignRegister);
    }
    let (bit_count, at) = fields::i32_at(s, at)?;
    let (bit_offset, at) = fields::i32_at(s, at)?;
    Ok((
        RegisterDesc {
            flags,
            combined_id,
            bit_count,
            bit_offset,
        },
        at,
    ))
}

#[tactic(auto, unfolding(fields::specs::Parse::bind, fields::specs::Lists::choose, crate::specs::Layout::operand))]
pub fn operand_at(s: &[u8], at: usize) -> Parsed<Operand>
    ensures { of_read result ≡ operand s.now at }
{
    let (kind, at) = fields::u32_at(s, at)?;
    match kind {
        0 => {
            let (immediate, at) = immediate_at(s, at)?;
            Ok((Operand::Imm(immediate), at))
        }
        1 => {
            let (register, at) = register_at(s, at)?;
            Ok((Operand::Reg(register), at))
        }
        _ => Err(Refusal::UnknownOperandKind),
    }
}

// The operand at `at` is passed over: whether its register, if it is one, is sound, and the offset past it; none where this does not tell. It is pub for the
// fast way over an instruction, which has tested the length. It has no branch on the kind: an immediate's size and 12 more for a register; the highest byte
// of the id of a register; and its width and offset, read as unsigned, so that a negative one is too large.
pub fn fast_operand(s: &[u8], at: usize) -> Option<(bool, usize)>
    requires { at + 28 ≤ length s.now }
    ensures { IfSome result (λ x. (judged operand operand_sound s.now at ≡ ok x.0 x.1) × (x.1 ≤ at + 28)) }
{
    let kind = fields::four(s, at);
    let top = u64::from(s[at + 19]);
    if 1 < kind {
        return None;
    }
    if 2 < kind * top {
        return None;
    }
    let width = fields::four(s, at + 20);
    let offset = fields::four(s, at + 24);
    let reach = width + offset;
    let sound = (kind <= width) & (kind * reach <= 64);
    Some((sound, at + 16 + 12 * (kind as usize)))
}

// `count` registers are passed over: whether every one is sound. A loop of its own beside fields::list_skip, which also tells whether each part is in written
// form: of a register nothing is told of that.
fn registers_run(s: &[u8], at: usize, count: u32) -> Parsed<bool>
    ensures { of_read result ≡ judged (many register count) (every is_sound) s.now at }
{
    let mut end = at;
    let mut sound = true;
    for passed in 0..count {
        let (register, next) = register_at(s, end)?;
        end = next;
        sound &= register.is_sound();
    }
    Ok((sound, end))
}

// A list of registers is passed over.
pub fn registers_skip(s: &[u8], at: usize) -> Parsed<bool>
    ensures { of_read result ≡ judged (counted register) (every is_sound) s.now at }
{
    let (count, at) = fields::u32_at(s, at)?;
    registers_run(s, at, count)
}
