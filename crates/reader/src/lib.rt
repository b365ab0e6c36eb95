// The lent file and the offset reached in it: document 01's record in the place of scroll's `gread` with `offset: &mut`. Each
// function over the record is thin: it takes it apart and leaves the work to functions on slice and numbers. `pass_at` and
// `read_at` are the entries with plain parameters.
#![tactic(auto)]

ghost use Rattle.std.specs.Prelude.{◌≡◌, ℕ, List};
ghost use Rattle.fields.specs.Parse.{u64};
ghost use Rattle.fields.specs.Answers.{of_read};
ghost use Rattle.pod.specs.Layout.{register, convention, instruction, block, routine};
ghost use Rattle.pod.specs.Sound.{routine_sound};
ghost use Rattle.pod.specs.Written.{routine_bytes, walked};
ghost use Rattle.value.specs.Answers.{instruction_read};
ghost use Rattle.pread.specs.Answers.{routine_read, convention_read, register_read, block_read, vip_read};
ghost use Rattle.reader.specs.Past.{past, passes};

use fields::{Parsed, Sight};
use pread::{BlockRead, ConventionRead, RegisterRead, RoutineRead, VipRead};
use value::InstructionRead;

// Document 01: "one record carries the lent file and the offset reached".
#[derive(Clone, Copy)]
pub struct Reader<'a> {
    pub src: &'a [u8],
    pub at: usize,
}

impl<'a> Reader<'a> {
    // The record at an offset of a file.
    pub fn new(src: &'a [u8], at: usize) -> Reader<'a>
        ensures { (result.src ≡ src.entry) × (result.at ≡ at) }
    {
        Reader { src, at }
    }

    // The routine at the offset reached is walked over. The record is passed by value: it stays where it stands.
    pub fn pass_routine(self) -> Parsed<Sight>
        ensures { of_read result ≡ walked routine routine_bytes routine_sound self.entry.src.now self.entry.at }
    {
        routine::routine_skip(self.src, self.at)
    }
}

// The routine at an offset of a file is walked over.
pub fn pass_at(s: &[u8], offset: usize) -> Parsed<Sight>
    ensures { of_read result ≡ walked routine routine_bytes routine_sound s.now offset }
{
    Reader::new(s, offset).pass_routine()
}

// The routine that a file starts with is walked over.
pub fn pass_file(s: &[u8]) -> Parsed<Sight>
    ensures { of_read result ≡ walked routine routine_bytes routine_sound s.now 0 }
{
    pass_at(s, 0)
}

// What is answered of a part of a routine that is read by offset: `read_of` says it by the bytes and the offset, and `past_of` where a reader stands after it.
// Each part has its own `gread`: one function over a method that reads would copy the answer once more, and take a sixth longer to read an instruction.
pub trait Part: Sized {
    ghost read_of: { List ℕ → ℕ → Self };

    ghost past_of: { List ℕ → ℕ → ℕ };

    // scroll's `gread`: the part at the offset reached, and the offset moved past it. A read that is refused moves nothing.
    fn gread(r: &mut Reader) -> Self
        ensures { (result ≡ read_of r.old.src.now r.old.at)
            × (r.new.src ≡ r.old.src)
            × (r.new.at ≡ past_of r.old.src.now r.old.at) };
}

// The offset after a read at `at`: the read's end, and `at` itself where it is refused.
fn passed(at: usize, refusal: u64, end: usize) -> usize
    ensures { result ≡ passes at refusal end }
{
    if refusal == 0 { end } else { at }
}

impl Part for RoutineRead {
    ghost read_of = { λ s at. routine_read at (routine s at) };

    ghost past_of = { λ s at. past at (routine s at) };

    #[tactic(auto, using(crate::proofs::Moves::routine_moves))]
    fn gread(r: &mut Reader) -> RoutineRead {
        let v = pread::routine_at(r.src, r.at);
        r.at = passed(r.at, v.refusal, v.end);
        v
    }
}

impl Part for ConventionRead {
    ghost read_of = { λ s at. convention_read at (convention s at) };

    ghost past_of = { λ s at. past at (convention s at) };

    #[tactic(auto, using(crate::proofs::Moves::convention_moves))]
    fn gread(r: &mut Reader) -> ConventionRead {
        let v = pread::convention_at(r.src, r.at);
        r.at = passed(r.at, v.refusal, v.end);
        v
    }
}

impl Part for RegisterRead {
    ghost read_of = { λ s at. register_read (register s at) };

    ghost past_of = { λ s at. past at (register s at) };

    #[tactic(auto, using(crate::proofs::Moves::register_moves))]
    fn gread(r: &mut Reader) -> RegisterRead {
        let v = pread::register_at(r.src, r.at);
        r.at = passed(r.at, v.refusal, v.end);
        v
    }
}

impl Part for BlockRead {
    ghost read_of = { λ s at. block_read at (block s at) };

    ghost past_of = { λ s at. past at (block s at) };

    #[tactic(auto, using(crate::proofs::Moves::block_moves))]
    fn gread(r: &mut Reader) -> BlockRead {
        let v = pread::block_at(r.src, r.at);
        r.at = passed(r.at, v.refusal, v.end);
        v
    }
}

impl Part for InstructionRead {
    ghost read_of = { λ s at. instruction_read (instruction s at) };

    ghost past_of = { λ s at. past at (instruction s at) };

    #[tactic(auto, using(crate::proofs::Moves::instruction_moves))]
    fn gread(r: &mut Reader) -> InstructionRead {
        let v = value::instruction_at(r.src, r.at);
        r.at = passed(r.at, v.refusal, v.end);
        v
    }
}

impl Part for VipRead {
    ghost read_of = { λ s at. vip_read (u64 s at) };

    ghost past_of = { λ s at. past at (u64 s at) };

    #[tactic(auto, using(crate::proofs::Moves::vip_moves))]
    fn gread(r: &mut Reader) -> VipRead {
        let v = pread::vip_at(r.src, r.at);
        r.at = passed(r.at, v.refusal, v.end);
        v
    }
}

// The part at an offset of a file.
pub fn read_at<T: Part>(s: &[u8], offset: usize) -> T
    ensures { result ≡ T.read_of s.now offset }
{
    let mut r = Reader::new(s, offset);
    T::gread(&mut r)
}
