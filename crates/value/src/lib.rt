// An instruction by value, read at an offset of a slice.
#![tactic(auto)]

ghost use Rattle.std.specs.Prelude.{◌≡◌, not, ◌+◌, ◌≤◌, ◌<◌, length, eqb, IfSome};
ghost use Rattle.fields.specs.Lists.{choose};
ghost use Rattle.fields.specs.Parse.{ok, many};
ghost use Rattle.fields.specs.Answers.{of_read};
ghost use Rattle.pod.specs.Layout.{operand, instruction};
ghost use Rattle.pod.specs.Written.{bit};
ghost use Rattle.pod.specs.Descs.{operand_desc, no_immediate, no_register};
ghost use Rattle.value.specs.Answers.{placed, described, seen, instruction_read};
ghost use Rattle.value.specs.Tail.{tail};
ghost use Rattle.value.specs.Fast.{immediate_from, register_from, Fills};

use fields::Parsed;
use pod::{ImmediateDesc, InstructionDesc, Operand, OperandDesc, RegisterDesc, Vip};

// An unused place: immediate 0 of width 0.
const UNUSED: OperandDesc = OperandDesc {
    kind: 0,
    immediate: pod::NO_IMMEDIATE,
    register: pod::NO_REGISTER,
};

// Operation 0 with no operand, and zeros: the instruction of an answer that has none.
pub const NO_INSTRUCTION: InstructionDesc = InstructionDesc {
    op: 0,
    count: 0,
    operands: [UNUSED; 3],
    vip: Vip(0),
    sp_offset: 0,
    sp_index: 0,
    sp_reset: 0,
};

// The fields after the operands, as they come.
#[derive(Clone, Copy)]
struct Tail {
    vip: Vip,
    sp_offset: i64,
    sp_index: u32,
    sp_reset: u8,
}

// For C: refusal 0, the instruction and the offset past it; or a refusal, and the rest is 0.
#[repr(C)]
#[derive(Clone, Copy)]
pub struct InstructionRead {
    pub refusal: u64,
    pub end: usize,
    pub instruction: InstructionDesc,
}

// What was read, as C sees it.
impl From<Parsed<InstructionDesc>> for InstructionRead {
    ghost from_gives = { λ read answer. answer ≡ seen read };

    #[tactic(auto, unfolding(pod::specs::Descs::places))]
    fn from(read: Parsed<InstructionDesc>) -> InstructionRead {
        match read {
            Ok((instruction, end)) => InstructionRead {
                refusal: 0,
                end,
                instruction,
            },
            Err(refusal) => InstructionRead {
                refusal: refusal.into(),
                end: 0,
                instruction: NO_INSTRUCTION,
            },
        }
    }
}

// An operand in its place.
#[tactic(auto, unfolding(pod::specs::Descs::operand_desc))]
fn operand_desc(x: Operand) -> OperandDesc
    ensures { result ≡ operand_desc x }
{
    match x {
        Operand::Imm(immediate) => OperandDesc {
            immediate,
            ..UNUSED
        },
        Operand::Reg(register) => OperandDesc {
            kind: 1,
            register,
            ..UNUSED
        },
    }
}

// `count` operands in their places. It asks for at most three, since that is how many places there are; no operation takes more.
#[tactic(auto, using(crate::proofs::Gather::gather_start, crate::proofs::Gather::gather_next), unfolding(pod::specs::Descs::places))]
fn operands_at(s: &[u8], at: usize, count: usize) -> Parsed<[OperandDesc; 3]>
    requires { count ≤ 3 }
    ensures { of_read result ≡ placed (many operand count s.now at) }
{
    let mut places = [UNUSED; 3];
    let mut end = at;
    for i in 0..count {
        let (operand, next) = pod::operand_at(s, end)?;
        places[i] = operand_desc(operand);
        end = next;
    }
    Ok((places, end))
}

// A flag's written form: 1 where it is not 0.
pub fn flag_bit(b: u8) -> u8
    ensures { result ≡ bit (not (eqb b 0)) }
{
    u8::from(b != 0)
}

// The fields after the operands.
#[tactic(auto, unfolding(fields::specs::Parse::bind, crate::specs::Tail::tail))]
fn tail_at(s: &[u8], at: usize) -> Parsed<Tail>
    ensures { of_read result ≡ tail s.now at }
{
    let (vip, at) = fields::u64_at(s, at)?;
    let (sp_offset, at) = fields::i64_at(s, at)?;
    let (sp_index, at) = fields::u32_at(s, at)?;
    let (sp_reset, at) = fields::u8_at(s, at)?;
    Ok((
        Tail {
            vip: Vip(vip),
            sp_offset,
            sp_index,
            sp_reset,
        },
        at,
    ))
}

// The instruction at `at`, field by field.
#[tactic(auto, unfolding(fields::specs::Parse::bind, pod::specs::Layout::instruction))]
fn fields_at(s: &[u8], at: usize) -> Parsed<InstructionDesc>
    ensures { of_read result ≡ described (instruction s.now at) }
{
    let (op, at) = instruction::op_at(s, at)?;
    let count = op::operand_count(op);
    let (operands, at) = operands_at(s, at, count as usize)?;
    let (tail, at) = tail_at(s, at)?;
    Ok((
        InstructionDesc {
            op: op as u32,
            count,
            operands,
            vip: tail.vip,
            sp_offset: tail.sp_offset,
            sp_index: tail.sp_index,
            sp_reset: flag_bit(tail.sp_reset),
        },
        at,
    ))
}

// The same, as C sees it. It is pub for a look at one instruction, which spends its time elsewhere.
#[tactic(auto, using(crate::proofs::Seen::seen_is))]
pub fn instruction_by_fields(s: &[u8], at: usize) -> InstructionRead
    ensures { result ≡ instruction_read (instruction s.now at) }
{
    fields_at(s, at).into()
}

// A number where it counts, and else 0. It is at hand in both cases, so that no branch is needed.
#[tactic(auto, unfolding(fields::specs::Lists::choose))]
fn kept(counts: bool, v: u64) -> u64
    ensures kept { result ≡ choose counts v 0 }
    ensures most { result ≤ v }
{
    if counts { v } else { 0 }
}

// The immediate at `at` where it is there, and else none: its fields are loaded in both cases.
#[tactic(auto, using(fields::proofs::Le::le_lt))]
fn fast_immediate(s: &[u8], at: usize, there: bool) -> ImmediateDesc
    requires { at + 12 ≤ length s.now }
    ensures { result ≡ choose there (immediate_from s.now at) no_immediate }
{
    let value = kept(there, fields::eight(s, at));
    let width = kept(there, fields::four(s, at + 8));
    ImmediateDesc {
        value,
        bit_count: width as u32,
    }
}

// The register at `at` where it is there, and else none.
#[tactic(auto, using(fields::proofs::Le::le_lt))]
fn fast_register(s: &[u8], at: usize, there: bool) -> RegisterDesc
    requires { at + 24 ≤ length s.now }
    ensures { result ≡ choose there (register_from s.now at) no_register }
{
    let flags = kept(there, fields::eight(s, at));
    let id = kept(there, fields::eight(s, at + 8));
    let width = kept(there, fields::four(s, at + 8 + 8));
    let offset = kept(there, fields::four(s, at + 8 + 8 + 4));
    RegisterDesc {
        flags,
        combined_id: id,
        bit_count: (width as u32).cast_signed(),
        bit_offset: (offset as u32).cast_signed(),
    }
}

// The operand at `at` in its place, or an unused one, and the offset past it; none where the fast way does not tell. It has no branch on the kind: the mark
// is 0 of an unused place, and else 1 more than the kind.
#[tactic(auto, using(fields::proofs::Le::le_lt))]
fn fast_place(s: &[u8], at: usize, used: bool) -> Option<(OperandDesc, usize)>
    requires { at + 28 ≤ length s.now }
    ensures { IfSome result (λ x. Fills s.now at used x.0 x.1) }
{
    let mark = kept(used, fields::four(s, at) + 1);
    if 2 < mark {
        return None;
    }
    let is_immediate = mark == 1;
    let is_register = mark == 2;
    let a = at + 4;
    let register = fast_register(s, a, is_register);
    if 2 < register.combined_id / 0x0100_0000_0000_0000 {
        return None;
    }
    let immediate = fast_immediate(s, a, is_immediate);
    let size = kept(is_immediate, 16) + kept(is_register, 28);
    let kind = kept(is_register, 1) as u32;
    Some((
        OperandDesc {
            kind,
            immediate,
            register,
        },
        at + size as usize,
    ))
}

// The fields after the operands, where they stand within.
#[tactic(auto, using(fields::proofs::Le::le_lt))]
fn fast_tail(s: &[u8], at: usize) -> Tail
    requires { at + 21 ≤ length s.now }
    ensures { ok result (at + 21) ≡ tail s.now at }
{
    let vip = Vip(fields::eight(s, at));
    let offset = fields::eight(s, at + 8).cast_signed();
    let index = fields::four(s, at + 8 + 8);
    let reset = s[at + 8 + 8 + 4];
    Tail {
        vip,
        sp_offset: offset,
        sp_index: index as u32,
        sp_reset: reset,
    }
}

// The instruction at `at` the fast way, which does not tell near the end of the file, and where something is refused.
fn fast_at(s: &[u8], at: usize) -> Option<(InstructionDesc, usize)>
    ensures { IfSome result (λ x. ok x.0 x.1 ≡ described (instruction s.now at)) }
{
    let code = instruction::fast_code(s, at)?;
    let count = code % 4;
    let start = at + 4 + fields::four(s, at) as usize + 4;
    let (first, end) = fast_place(s, start, 0 < count)?;
    let (second, end) = fast_place(s, end, 1 < count)?;
    let (third, end) = fast_place(s, end, 2 < count)?;
    let tail = fast_tail(s, end);
    Some((
        InstructionDesc {
            op: (code / 4) as u32,
            count: count as u32,
            operands: [first, second, third],
            vip: tail.vip,
            sp_offset: tail.sp_offset,
            sp_index: tail.sp_index,
            sp_reset: flag_bit(tail.sp_reset),
        },
        end + 21,
    ))
}

// The instruction at `at`: the fast way, or else field by field. It should have one caller only: then it is compiled into that one, and its large answer is
// not copied.
#[tactic(auto, using(crate::proofs::Seen::seen_is))]
pub fn instruction_at(s: &[u8], at: usize) -> InstructionRead
    ensures { result ≡ instruction_read (instruction s.now at) }
{
    match fast_at(s, at) {
        Some(read) => Ok(read).into(),
        None => instruction_by_fields(s, at),
    }
}
