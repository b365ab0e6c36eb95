// The charge for a routine, document 02, a. One walk over an inspected image: each instruction counts the rate of its operation's group, in hundredths of
// a cent, and the sum is rounded up once. And what an instruction and a block come to, for the sum that a book carries.
#![tactic(auto)]

ghost use Rattle.std.specs.Prelude.{◌≡◌, ◌<◌, ℕ, length};
ghost use Rattle.pod.specs.Values.{BasicBlock};
ghost use Rattle.fields.specs.Parse.{ok, many};
ghost use Rattle.fields.specs.Outcome.{of_result};
ghost use Rattle.pod.specs.Values.{Instruction};
ghost use Rattle.pod.specs.Layout.{instruction, block};
ghost use Rattle.machine.specs.Charge.{group, total, rate_of, block_sum, cents};
ghost use Rattle.machine.specs.Charge as charges;
ghost use Rattle.machine.specs.Look.{look_charge};
ghost use Rattle.book.specs.Says.{state_of};
ghost use Rattle.charge.specs.Answers.{charge_look};
ghost use Rattle.charge.specs.Sums.{Table, in_table, Sums, Summable};

use book::{Lent, Rates};
use fields::Refusal;

// The charge in whole cents. With a refusal they are 0.
#[repr(C)]
#[derive(Clone, Copy)]
pub struct ChargeLook {
    pub refusal: u64,
    pub cents: u64,
}

// What was passed: its sum, in hundredths of a cent, and the offset past it.
#[derive(Clone, Copy)]
pub struct Summed {
    pub sum: u64,
    pub end: usize,
}

// The group of an operation: the last arm is 41 to 48, for there is none after them.
#[tactic(auto, unfolding(machine::specs::Charge::group, fields::specs::Lists::choose))]
fn group_of(op: usize) -> usize
    ensures is { result ≡ group op }
    ensures small { result < 6 }
{
    match op {
        0..=3 => 0,
        4..=14 => 1,
        15..=25 => 2,
        26..=36 => 3,
        37..=40 => 4,
        _ => 5,
    }
}

// The rate of each operation, that of its group. The walk looks here, and not at the groups' ranges: a test for each range is a jump that no processor
// foresees.
pub fn fill(table: &mut [u32], rates: Rates)
    requires { length table.old ≡ 49 }
    ensures { Table rates.rate table.new }
{
    for (op, rate) in table.iter_mut().enumerate() {
        *rate = rates.rate[group_of(op)];
    }
}

// What the table has of the instruction at `at`, which was accepted before.
pub fn rate_at(s: &[u8], at: usize, table: &[u32]) -> u32
    ensures { (i : Instruction) (n : ℕ) → instruction s.now at ≡ ok i n → result ≡ in_table table.now i }
{
    let op = instruction::op_of(s, at);
    if op < table.len() { table[op] } else { 0 }
}

// `count` instructions from `at` on. A count of 32 bits times a rate of 32 bits fits 64 bits, whatever the bytes are.
fn instructions_sum(s: &[u8], at: usize, count: u32, table: &[u32]) -> Summed
    ensures { (rates : charges.Rates) → Table rates table.now → Sums (many instruction count) (total (rate_of rates)) s.now at result }
{
    let mut end = at;
    let mut sum = 0;
    for instruction in 0..count {
        sum += rate_at(s, end, table) as u64;
        end = ends::instruction_end(s, end);
    }
    Summed { sum, end }
}

// The block at `at`, passed as `ends::block_end` does.
fn block_sum(s: &[u8], at: usize, table: &[u32]) -> Summed
    ensures { (rates : charges.Rates) → Table rates table.now → Sums block (block_sum rates) s.now at result }
{
    let i = ends::jump(s, at, ends::BLOCK_HEAD_SIZE);
    let count = ends::word32(s, i);
    let first = ends::jump(s, i, ends::COUNT_SIZE);
    let instructions = instructions_sum(s, first, count, table);
    let sum = instructions.sum;
    let prev = ends::vips_end(s, instructions.end);
    let end = ends::vips_end(s, prev);
    Summed { sum, end }
}

// `count` blocks from `at` on, whose sum is known to fit.
fn blocks_sum(s: &[u8], at: usize, count: u32, table: &[u32]) -> Summed
    requires { Summable table.now s.now at count }
    ensures { (rates : charges.Rates) → Table rates table.now → Sums (many block count) (total (block_sum rates)) s.now at result }
{
    let mut end = at;
    let mut sum = 0;
    for block in 0..count {
        let passed = block_sum(s, end, table);
        sum += passed.sum;
        end = passed.end;
    }
    Summed { sum, end }
}

// What an instruction at `at` comes to that was accepted before, in hundredths of a cent.
pub fn sum_of_instruction(s: &[u8], at: usize, rates: Rates) -> u64
    ensures { (i : Instruction) (n : ℕ) → instruction s.now at ≡ ok i n → result ≡ rate_of rates.rate i }
{
    let op = instruction::op_of(s, at);
    rates.rate[group_of(op)] as u64
}

// What a block at `at` comes to that was accepted before.
pub fn sum_of_block(s: &[u8], at: usize, rates: Rates) -> u64
    ensures { (b : BasicBlock) (n : ℕ) → block s.now at ≡ ok b n → result ≡ block_sum rates.rate b }
{
    let mut table = [0; 49];
    fill(&mut table, rates);
    let passed = block_sum(s, at, &table);
    passed.sum
}

// Hundredths rounded up to whole cents.
#[tactic(auto, unfolding(machine::specs::Charge::cents))]
fn cents_of(sum: u64) -> u64
    ensures { result ≡ cents sum }
{
    sum.div_ceil(100)
}

// The charge in whole cents: 10, then 13.
fn charge_in_cents(lent: Lent, rates: Rates) -> Result<u64, Refusal>
    ensures { of_result result ≡ look_charge rates.rate (state_of lent.entry) }
{
    // named, so that the goals are named for it and not for the call
    let held = image::inspect(lent);
    held?;
    let mut table = [0; 49];
    fill(&mut table, rates);
    let blocks = image::blocks_of(lent.image);
    let all = blocks_sum(lent.image, blocks.start, blocks.count, &table);
    Ok(cents_of(all.sum))
}

// The charge, as C sees it.
pub fn charge(lent: Lent, rates: Rates) -> ChargeLook
    ensures { result ≡ charge_look (look_charge rates.rate (state_of lent.entry)) }
{
    match charge_in_cents(lent, rates) {
        Ok(cents) => ChargeLook { refusal: 0, cents },
        Err(refusal) => ChargeLook {
            refusal: u64::from(refusal),
            cents: 0,
        },
    }
}
