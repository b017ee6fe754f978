// Measures the library's inner loops; with no word it says how.
#![tactic(auto)]

mod engines;
mod files;
mod jobs;
mod timing;

use anyhow::anyhow;
use engines::{absorbs, engines, key};
use field::{Block, Element};
use files::{checks, files};
use jobs::jobs;
use polynomial::{make_polynomial, try_polynomial};
use std::env;
use timing::{time, time_tries};

const USAGE: &str = "usage: bench product|trial|maker|absorb|check|engines|jobs|files COUNT
prints nanoseconds a block product, a trial, a making, an absorb or a check of a block, over COUNT of them,
or a table of the engines' times a block, of a job's or of a sealed file's, each row over COUNT hashes";

// A chain of products, each from the one before, so that none can be left out.
fn product(rt: &HostRuntime, count: u32) -> anyhow::Result<()> {
    let start = Block::new(0x0388_dace_60b6_a392_f328_c2b9_71b2_fe78);
    let key = key();
    let timed = time(rt, count, start, |value| value.times(key))?;
    println!(rt;
        "proved {} ns a product, ending at {}",
        timed.each, timed.left
    )?;
    Ok(())
}

// Whether a polynomial that the key annihilates is accepted.
fn accepts() -> bool {
    let proposal = Block::new(0xb1c1_646d_ba79_fe53_d38c_59c8_fe24_22cc);
    let mut scratch = [Block::zero(); 128];
    try_polynomial(key(), proposal, &mut scratch).is_ok()
}

// Whether the key's polynomial is made.
fn makes() -> bool {
    let mut scratch = [Block::zero(); 128];
    make_polynomial(key(), &mut scratch).is_ok()
}

// Tries something so many times, and says how long one of them took and how many did what they should.
fn tries<F: FnMut() -> bool>(
    rt: &HostRuntime,
    count: u32,
    what: &str,
    done: &str,
    succeeds: F,
) -> anyhow::Result<()>
    requires { (state : F) → F.IsAlwaysCallable state }
{
    let timed = time_tries(rt, count, succeeds)?;
    println!(rt; "proved {} ns a {what}, {} {done}", timed.each, timed.left)?;
    Ok(())
}

// Runtime and count go apart, here and below: each loop takes both, and a struct of the two would say no more.
fn run(rt: &HostRuntime) -> anyhow::Result<()> {
    let words: Vec<String> = env::args(rt)?.collect(rt.alloc())?;
    let [_, what, count] = words.as_slice() else {
        println!(rt; "{USAGE}")?;
        return Ok(());
    };
    let count = count.parse::<u32>()?;
    match what.as_str() {
        "product" => product(rt, count),
        "trial" => tries(rt, count, "trial", "accepted", accepts),
        "maker" => tries(rt, count, "making", "made", makes),
        "absorb" => absorbs(rt, count),
        "engines" => engines(rt, count),
        "jobs" => jobs(rt, count),
        "files" => files(rt, count),
        "check" => checks(rt, count),
        _ => Err(anyhow!("no such loop")),
    }
}

fn main(rt: HostRuntime) -> anyhow::Result<()> {
    run(&rt)
}
