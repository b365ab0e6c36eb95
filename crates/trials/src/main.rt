// Document 01's instances that are not starred, run: each line says what the library answers.
#![tactic(auto)]

use book::{Answer, Rates};
use std::io;

// The smallest file, and after its block count of 1 the start of a block with one instruction: the instruction follows at byte 142.
fn one_instruction() -> [u8; 149] {
    let mut file = [0u8; 149];
    file[0] = 0x56;
    file[1] = 0x54;
    file[2] = 0x49;
    file[3] = 0x4c;
    file[4] = 2;
    file[6] = 0xad;
    file[7] = 0xde;
    file[110] = 1;
    file[138] = 1;
    file
}

// The number of the refusals 1 and 2, which are those that these files get, or 0 for any other answer.
fn refusal_of(answer: i64) -> u64 {
    match answer {
        -1 => 1,
        -2 => 2,
        _ => 0,
    }
}

// What the check says of the first `n` bytes.
fn print_check(rt: &impl Print, file: &[u8], n: usize) -> io::Result<()> {
    if n <= file.len() {
        let start = &file[..n];
        let refusal = refusal_of(vtil::vtil_check(start));
        println!(rt; "{refusal}")?;
    }
    Ok(())
}

fn name_not_text(rt: &impl Print) -> io::Result<()> {
    let mut file = one_instruction();
    file[142] = 1;
    file[146] = 0xff;
    print!(rt; "Name FF, then end: ")?;
    print_check(rt, &file, 147)
}

fn count_missing(rt: &impl Print) -> io::Result<()> {
    let mut file = one_instruction();
    file[142] = 3;
    file[146] = b'z';
    file[147] = b'z';
    file[148] = b'z';
    print!(rt; "zzz, then end: ")?;
    print_check(rt, &file, 149)
}

// The header of machine 2 and 106 zeros.
fn smallest() -> [u8; 114] {
    let mut file = [0u8; 114];
    file[0] = 0x56;
    file[1] = 0x54;
    file[2] = 0x49;
    file[3] = 0x4c;
    file[4] = 2;
    file[6] = 0xad;
    file[7] = 0xde;
    file
}

// The smallest file opened, and block 1 created.
fn create_one(image: &mut [u8], journal: &mut [u8]) -> Answer {
    let file = smallest();
    let opened = vtil::vtil_open(&file, image, journal, Rates { rate: [0; 6] });
    let book = opened.book;
    vtil::vtil_create_block(book, image, journal, 1)
}

fn print_answer(rt: &impl Print, text: &str, refusal: u64) -> io::Result<()> {
    println!(rt; "{text}{refusal}")
}

fn second_create_full(rt: &impl Print) -> io::Result<()> {
    let mut image = [0u8; 150];
    let mut journal = [0u8; 40];
    let first = create_one(&mut image, &mut journal);
    print_answer(rt, "Image 150 and journal 40, create: ", first.refusal)?;
    let book = first.book;
    let second = vtil::vtil_create_block(book, &mut image, &mut journal, 2);
    print_answer(
        rt,
        "Image 150 and journal 40, second create: ",
        second.refusal,
    )
}

fn image_before_journal(rt: &impl Print) -> io::Result<()> {
    let mut image = [0u8; 149];
    let mut journal = [0u8; 19];
    print_answer(
        rt,
        "Image 149 and journal 19, create: ",
        create_one(&mut image, &mut journal).refusal,
    )
}

fn journal_full(rt: &impl Print) -> io::Result<()> {
    let mut image = [0u8; 150];
    let mut journal = [0u8; 19];
    print_answer(
        rt,
        "Image 150 and journal 19, create: ",
        create_one(&mut image, &mut journal).refusal,
    )
}

fn main(rt: HostRuntime) -> io::Result<()> {
    name_not_text(&rt)?;
    count_missing(&rt)?;
    second_create_full(&rt)?;
    image_before_journal(&rt)?;
    journal_full(&rt)
}
