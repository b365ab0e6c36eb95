// Runs a fixed sample of the Rust's answers, data/answers.bin, which oracle/ made: the library's check has to give
// each of them. A record is the file's length (u32), the file, and the consumed length or minus the refusal (i64), all
// little-endian.
#![tactic(auto)]

ghost use Rattle.std.specs.Prelude.{◌<◌, ◌≤◌, IfOk, length};

use std::fs::File;
use std::io;
use std::io::Read;

// The counts: 0 accepted, 1 to 9 the refusals, then these two.
const RECORDS: usize = 10;

const DIFFERENCES: usize = 11;

// The refusal that a record's answer stands for, or 0 where that is a length.
fn refusal_of(answer: i64) -> usize
    ensures { result ≤ 9 }
{
    match answer {
        -1 => 1,
        -2 => 2,
        -3 => 3,
        -4 => 4,
        -5 => 5,
        -6 => 6,
        -7 => 7,
        -8 => 8,
        -9 => 9,
        _ => 0,
    }
}

fn count(counts: &mut [u64; 12], i: usize)
    requires { i < 12 }
{
    counts[i] = counts[i].wrapping_add(1);
}

fn compare(counts: &mut [u64; 12], got: i64, answer: i64) {
    count(counts, RECORDS);
    count(counts, refusal_of(answer));
    if got != answer {
        count(counts, DIFFERENCES);
    }
}

// Reads until `buf` is full or the file ends, and answers how many bytes that were. A loop by hand: std's `read_exact` does not say how many came.
fn read_full(answers: &mut File, buf: &mut [u8]) -> io::Result<usize>
    ensures { IfOk result (λ n. n ≤ length buf.new) }
{
    let mut done = 0;
    while done < buf.len() {
        let n = answers.read(&mut buf[done..])?;
        if n == 0 {
            break;
        }
        done += n;
    }
    Ok(done)
}

// Reads the rest of a record into `file`, which has its file's length, and checks it. False: the record breaks off.
fn replay_file(answers: &mut File, file: &mut [u8], counts: &mut [u64; 12]) -> io::Result<bool> {
    let mut tail = [0u8; 8];
    let got = read_full(answers, file)?;
    let ended = read_full(answers, &mut tail)?;
    if got < file.len() || ended < 8 {
        return Ok(false);
    }
    compare(counts, vtil::vtil_check(file), i64::from_le_bytes(tail));
    Ok(true)
}

// Runs one record and answers whether to go on. A record that breaks off, or whose file is too long, counts as a
// difference: the sample has none.
fn replay_one(answers: &mut File, counts: &mut [u64; 12]) -> io::Result<bool> {
    let mut head = [0u8; 4];
    let got = read_full(answers, &mut head)?;
    if got == 0 {
        return Ok(false);
    }
    let mut room = [0u8; 4096];
    let size = u32::from_le_bytes(head) as usize;
    if size <= 4096 {
        if replay_file(answers, &mut room[..size], counts)? {
            return Ok(true);
        }
    }
    count(counts, DIFFERENCES);
    Ok(false)
}

// A proved loop has to end, and nothing says that a file does: so it goes over more turns than any run uses up.
fn replay_all(answers: &mut File, counts: &mut [u64; 12]) -> io::Result<()> {
    for _ in 0..u64::MAX {
        if !replay_one(answers, counts)? {
            break;
        }
    }
    Ok(())
}

fn print_line(rt: &impl Print, text: &str, n: u64) -> io::Result<()> {
    println!(rt; "{text}{n}")
}

fn print_refused(rt: &impl Print, refusal: usize, n: u64) -> io::Result<()> {
    print!(rt; "refused {refusal}")?;
    print_line(rt, ": ", n)
}

fn print_counts(rt: &impl Print, counts: &[u64; 12]) -> io::Result<()> {
    print_line(rt, "records ", counts[RECORDS])?;
    print_line(rt, "differences ", counts[DIFFERENCES])?;
    print_line(rt, "accepted ", counts[0])?;
    for refusal in 1..RECORDS {
        print_refused(rt, refusal, counts[refusal])?;
    }
    Ok(())
}

fn main(rt: HostRuntime) -> io::Result<()> {
    let mut answers = File::open(&rt, "answers.bin")?;
    let mut counts = [0u64; 12];
    replay_all(&mut answers, &mut counts)?;
    print_counts(&rt, &counts)
}
