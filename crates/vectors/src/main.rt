// Hashes the published GCM cases and compares, tries polynomials, and prints the readings that are proved.
#![tactic(auto)]

mod case;
mod engines;
mod fault;
mod files;
mod jobs;
mod trials;

use case::compare;
use engines::print_long;
use fault::Fault;
use field::{Block, Element};
use files::print_files;
use message::Pad;
use readings::{Readings, take_readings};
use std::{env, io};
use trials::print_trials;

// How many cases there are, and how many of them agree.
#[derive(Clone, Copy, Default)]
struct Score {
    cases: u64,
    agreeing: u64,
}

impl Score {
    fn add(&mut self, agrees: bool) {
        self.cases = self.cases.saturating_add(1);
        self.agreeing = self.agreeing.saturating_add(u64::from(agrees));
    }
}

// Every line of the input that is no comment is a case.
fn compare_all(rt: &HostRuntime, more: bool) -> Result<Score, Fault> {
    let mut score = Score::default();
    for line in rt.lines(rt.alloc()) {
        let line = line?;
        if !line.starts_with('#') {
            score.add(compare(rt, &line, more)?);
        }
    }
    Ok(score)
}

fn print_readings(rt: &HostRuntime, r: &Readings) -> io::Result<()> {
    println!(rt; "nibbles {} {}", r.nibble_product, r.nibble_value)?;
    println!(rt; "words {} {}", r.word_one, r.word_two)?;
    println!(rt; "block {}", r.block_value)?;
    println!(rt; "empty {} {}", r.empty_hash, r.empty_tag)?;
    println!(rt; "body only {}", r.body_only)?;
    println!(rt; "header only {}", r.header_only)
}

// The word `more` asks for jobs and sealed files besides.
fn more_asked(rt: &HostRuntime) -> Result<bool, Fault> {
    let words: Vec<String> = env::args(rt)?.collect(rt.alloc())?;
    match words.as_slice() {
        [_name, word] => Ok(word.as_str() == "more"),
        _ => Ok(false),
    }
}

fn run(rt: &HostRuntime) -> Result<(), Fault> {
    let more = more_asked(rt)?;
    let Score { cases, agreeing } = compare_all(rt, more)?;
    println!(rt; "{agreeing} of {cases} cases as published")?;
    print_long(rt, Block::new(0x66e9_4bd4_ef8a_2c3b_884c_fa59_ca34_2b2e))?;
    print_trials(rt)?;
    if more {
        print_files(rt)?;
    }
    print_readings(rt, &take_readings(Block::one(), Pad(Block::new(0xff)))?)?;
    if agreeing != cases {
        return Err(Fault::Differs);
    }
    Ok(())
}

fn main(rt: HostRuntime) -> Result<(), Fault> {
    run(&rt)
}
