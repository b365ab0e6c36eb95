// An accepted routine brought to its written form in place: the pad becomes 0, and each flag 0 or 1. These are the only bytes in which a file and
// the written form of what it says can differ, so a light walk over the counts finds all that is to be changed. On its way it adds up what a table has of
// the instructions: opening needs both, and a second walk would take as long again.
//
// Bytes that are no routine come to no harm, and only of accepted bytes is anything promised. What adds up blocks requires that the whole fits.
#![tactic(auto)]

ghost use Rattle.std.specs.Prelude.{◌≡◌, ℕ, List, ◌+◌, ◌-◌, ◌≤◌, ◌<◌, ◌^◌, length, get_or, set};
ghost use Rattle.fields.specs.Parse.{counted};
ghost use Rattle.pod.specs.Layout.{instruction, convention, block, routine};
ghost use Rattle.pod.specs.Written.{counted_bytes, instruction_bytes, convention_bytes, block_bytes, routine_bytes};
ghost use Rattle.laws.specs.Normal.{normal, flag};
ghost use Rattle.machine.specs.Charge.{total};
ghost use Rattle.charge.specs.Sums.{in_table, block_in, routine_in};
ghost use Rattle.ends.specs.Ends.{jump, word};
ghost use Rattle.normal.specs.Over.{Normalised, nothing, Countable};
ghost use Rattle.normal.specs.Chains.{Chain};
ghost use denote.Ref.{MutBor};

use charge::Summed;

// The header's pad, which stands after the machine's byte.
const PAD: usize = ends::MACHINE_AT + 1;

// The byte before `end`, as a flag is written: 0 stays, and all else becomes 1. It is stored without a branch, since a file's flags follow no pattern.
fn normalise_flag(a: &mut [u8], end: usize)
    ensures { 0 < end → end ≤ length a.old → a.new ≡ set a.old (end - 1) (normal flag (get_or a.old (end - 1) 0)) }
{
    if end == 0 {
        return;
    }
    if a.len() < end {
        return;
    }
    a[end - 1] = (a[end - 1] != 0) as u8;
}

// The list at `at`, each part by `one`. A sum of parts that were normalised so far has to leave room for the next part.
fn normalise_each<F: Fn(&mut [u8], usize) -> Summed>(a: &mut [u8], at: usize, one: F) -> Summed
    requires { (n : ℕ) (s : List ℕ) (o sum : ℕ) → n < word 4 a.old at → Chain (F.post one) n a.old (jump a.old at 4) s o sum → (x : MutBor (List ℕ)) → x.now ≡ s
        → F.pre one x o × ((r : Summed) (y : MutBor (List ℕ)) → F.post one x o r y → sum + r.sum < 2 ^ 64) }
    ensures { Chain (F.post one) (word 4 a.old at) a.old (jump a.old at 4) a.new result.end result.sum }
{
    let count = ends::word32(a, at);
    let mut end = ends::jump(a, at, ends::COUNT_SIZE);
    let mut sum = 0;
    for part in 0..count {
        let passed = one(a, end);
        sum += passed.sum;
        end = passed.end;
    }
    Summed { sum, end }
}

// Sp reset is an instruction's last byte.
fn normalise_instruction(a: &mut [u8], at: usize, table: &[u32]) -> Summed
    ensures { Normalised instruction instruction_bytes (in_table table.now) a.old at result.end result.sum a.new × (result.sum < 2 ^ 32) }
{
    let rate = charge::rate_at(a, at, table);
    let end = ends::instruction_end(a, at);
    normalise_flag(a, end);
    Summed {
        sum: rate as u64,
        end,
    }
}

// Purge is a convention's last byte.
fn normalise_convention(a: &mut [u8], at: usize) -> usize
    ensures { Normalised convention convention_bytes nothing a.old at result 0 a.new }
{
    let end = ends::convention_end(a, at);
    normalise_flag(a, end);
    end
}

// A block's vips are written as they were read, and the numbers before its lists too.
fn normalise_block(a: &mut [u8], at: usize, table: &[u32]) -> Summed
    ensures { Normalised block block_bytes (block_in table.now) a.old at result.end result.sum a.new }
{
    let list = ends::jump(a, at, ends::BLOCK_HEAD_SIZE);
    let instructions = normalise_each(a, list, |a, at| normalise_instruction(a, at, table));
    let sum = instructions.sum;
    let next = ends::vips_end(a, instructions.end);
    let end = ends::vips_end(a, next);
    Summed { sum, end }
}

// The routine at the start of `a`: answers its end, and what its instructions come to.
pub fn normalise_routine(a: &mut [u8], table: &[u32]) -> Summed
    requires { Countable routine (routine_in table.now) a.old 0 }
    ensures { Normalised routine routine_bytes (routine_in table.now) a.old 0 result.end result.sum a.new }
{
    // No routine is so short.
    if a.len() <= PAD {
        return Summed { sum: 0, end: 0 };
    }
    a[PAD] = 0;
    let sub = normalise_convention(a, ends::CONVENTIONS_AT);
    let special = normalise_convention(a, sub);
    let conventions = normalise_each(
        a,
        special,
        |a, at| Summed {
            sum: 0,
            end: normalise_convention(a, at),
        },
    );
    normalise_each(a, conventions.end, |a, at| normalise_block(a, at, table))
}
