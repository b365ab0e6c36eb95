// Instructions.
#![tactic(auto)]

ghost use Rattle.std.specs.Prelude.{◌≡◌, true, ℕ, ◌≤◌, IfSome};
ghost use Rattle.fields.specs.Parse.{ok, many, span, uint};
ghost use Rattle.fields.specs.Answers.{of_read, of_skip};
ghost use Rattle.pod.specs.Values.{Instruction};
ghost use Rattle.pod.specs.Layout.{operand, named, opcode, instruction};
ghost use Rattle.pod.specs.Sound.{instruction_sound, sound_operand, appended};
ghost use Rattle.pod.specs.Told.{asked};
ghost use Rattle.pod.specs.Written.{instruction_bytes, walked};
ghost use Rattle.instruction.specs.Answers.{Found, of_asked, when_asked};

use fields::{Parsed, Refusal, Sight, Skipped};

// In an instruction, the fields past its operands: vip 8, sp offset 8, sp index 4, sp reset 1.
const TAIL_SIZE: usize = 21;

// Why operands, or an instruction, are refused, and whether every register before the fault is sound. So it also says what append is refused, which asks a
// register as soon as it has been read.
#[derive(Clone, Copy, Debug, PartialEq, Eq)]
pub struct Fault {
    pub refusal: Refusal,
    pub sound: bool,
}

// A fault before the first register.
impl From<Refusal> for Fault {
    ghost from_gives = { λ e fault. fault ≡ record { refusal = e; sound = true } };

    fn from(refusal: Refusal) -> Fault {
        Fault {
            refusal,
            sound: true,
        }
    }
}

// What is answered of operands, or of an instruction, that are passed over: whether every register is sound, and the offset past them; or the fault.
pub type Asked = Result<(bool, usize), Fault>;

// The operation with the name `name`, whose operand count stands at `at`.
#[tactic(auto, unfolding(fields::specs::Parse::bind, fields::specs::Lists::choose, pod::specs::Layout::named))]
fn named_at(s: &[u8], name: &[u8], at: usize) -> Parsed<usize>
    ensures { of_read result ≡ named name.now s.now at }
{
    if !op::is_text(name) {
        return Err(Refusal::NameNotText);
    }
    let (count, end) = fields::u32_at(s, at)?;
    let Some(k) = op::number_of(name) else {
        return Err(Refusal::UnknownOperation);
    };
    if count != op::operand_count(k) {
        return Err(Refusal::WrongOperandCount);
    }
    Ok((k, end))
}

// Of the operation of the instruction at `at`: its operand count and four times its number, where it is found by the table and 128 bytes from there
// stand in the file, which is more than an instruction has. It is pub for the fast way to an instruction by value.
pub fn fast_code(s: &[u8], at: usize) -> Option<u64>
    ensures { IfSome result (λ code. Found s.now at code) }
{
    if !fields::within(s, at, 128) {
        return None;
    }
    let a = at + 4;
    let n = fields::four(s, at) as usize;
    let code = op::fast_lookup(fields::eight(s, a), n)?;
    if fields::four(s, a + n) != code % 4 {
        return None;
    }
    Some(code)
}

// The operation of the instruction at `at`, its name looked for among all.
#[tactic(auto, unfolding(fields::specs::Parse::bind, pod::specs::Layout::opcode))]
fn listed_op_at(s: &[u8], at: usize) -> Parsed<usize>
    ensures { of_read result ≡ opcode s.now at }
{
    let (size, start) = fields::u32_at(s, at)?;
    let n = size as usize;
    let end = fields::skip(s, start, n)?;
    named_at(s, fields::part_of(s, start, n), end)
}

// The operation of the instruction at `at`: by the table, or else its name is looked for among all.
pub fn op_at(s: &[u8], at: usize) -> Parsed<usize>
    ensures { of_read result ≡ opcode s.now at }
{
    if let Some(code) = fast_code(s, at) {
        let n = fields::four(s, at) as usize;
        return Ok(((code / 4) as usize, at + 4 + n + 4));
    }
    listed_op_at(s, at)
}

// The operation of the instruction at `at`, which was accepted before. The fast way is asked here first, though `op_at` asks it too: through that alone the
// charge takes a tenth longer. Where it does not tell, as near the end of the bytes, the name is looked for among all. It is never refused, so 0 is never answered.
pub fn op_of(s: &[u8], at: usize) -> usize
    ensures { (i : Instruction) (n : ℕ) → instruction s.now at ≡ ok i n → result ≡ i.op }
{
    if let Some(code) = fast_code(s, at) {
        return (code / 4) as usize;
    }
    match op_at(s, at) {
        Ok((k, _)) => k,
        Err(_) => 0,
    }
}

// `count` operands. A loop of its own beside fields::list_skip, since a refusal here also says what was seen before it.
fn operands_run(s: &[u8], at: usize, count: u32) -> Asked
    ensures plain { of_asked result ≡ span (many operand count s.now at) }
    ensures asked { when_asked result ≡ span (many sound_operand count s.now at) }
{
    let mut end = at;
    let mut sound = true;
    for passed in 0..count {
        match pod::operand_at(s, end) {
            Ok((operand, next)) => {
                let register = operand.is_sound();
                end = next;
                sound &= register;
            }
            Err(refusal) => return Err(Fault { refusal, sound }),
        }
    }
    Ok((sound, end))
}

// The fields past the operands are passed over, of which it was told whether every register is sound.
fn tail_past(s: &[u8], at: usize, sound: bool) -> Asked
    ensures plain { of_asked result ≡ span (uint 21 s.now at) }
    ensures asked { when_asked result ≡ asked sound (span (uint 21 s.now at)) }
{
    match fields::skip(s, at, TAIL_SIZE) {
        Ok(end) => Ok((sound, end)),
        Err(refusal) => Err(Fault { refusal, sound }),
    }
}

// The instruction at `at` is passed over, field by field. It says both what a walk refuses and what append does.
pub fn instruction_past(s: &[u8], at: usize) -> Asked
    ensures plain { of_asked result ≡ span (instruction s.now at) }
    ensures asked { when_asked result ≡ span (appended s.now at) }
{
    let (k, start) = op_at(s, at)?;
    let (sound, end) = operands_run(s, start, op::operand_count(k))?;
    tail_past(s, end, sound)
}

// An answer where registers are asked: 19 unless they are sound.
fn if_sound(sound: bool, answer: Skipped) -> Skipped
    ensures { of_skip result ≡ asked sound (of_skip answer) }
{
    if sound {
        answer
    } else {
        Err(Refusal::CrookedRegister)
    }
}

// The instruction at `at` is passed over as append reads it, which asks each register as soon as it has been read.
pub fn appended_past(s: &[u8], at: usize) -> Skipped
    ensures { of_skip result ≡ span (appended s.now at) }
{
    match instruction_past(s, at) {
        Ok((sound, end)) => if_sound(sound, Ok(end)),
        Err(fault) => if_sound(fault.sound, Err(fault.refusal)),
    }
}

// The instruction at `at` is walked over the fast way, which does not tell near the end of the file, and where the instruction is refused. It is pub for the
// walk over a block, which asks it first: asked by `instruction_skip`, whose answers go through memory, it makes the walk over a file half as long again. It
// has the tests of `fast_code` a second time: the walk over a file spends its time here, and shared they slow it by a tenth and more. The loop goes by the
// count in the file, which is at hand before the table's.
pub fn fast_skip(s: &[u8], at: usize) -> Option<(Sight, usize)>
    ensures { IfSome result (λ x. walked instruction instruction_bytes instruction_sound s.now at ≡ ok x.0 x.1) }
{
    if !fields::within(s, at, 128) {
        return None;
    }
    let a = at + 4;
    let n = fields::four(s, at) as usize;
    let code = op::fast_lookup(fields::eight(s, a), n)?;
    let b = a + n;
    let count = fields::four(s, b);
    if count != code % 4 {
        return None;
    }
    let mut end = b + 4;
    let mut sound = true;
    for passed in 0..count {
        let (told, next) = pod::fast_operand(s, end)?;
        end = next;
        sound &= told;
    }
    let written = s[end + 20] <= 1;
    Some((Sight { written, sound }, end + TAIL_SIZE))
}

// The instruction at `at` is walked over, field by field. Its flag, sp reset, is its last byte: in written form it is at most 1.
pub fn instruction_skip(s: &[u8], at: usize) -> Parsed<Sight>
    ensures { of_read result ≡ walked instruction instruction_bytes instruction_sound s.now at }
{
    match instruction_past(s, at) {
        Ok((sound, end)) => {
            let written = s[end - 1] <= 1;
            Ok((Sight { written, sound }, end))
        }
        Err(fault) => Err(fault.refusal),
    }
}
