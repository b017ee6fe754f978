// The station's program: its first word says what to do.
#![tactic(auto)]

mod command;
mod drive;
mod files;
mod flight;
mod messages;
mod point;
mod polynomials;
mod preflight;
mod script;
mod stop;
mod tagging;
mod words;

use command::{Command, print_usage};
use std::env;
use std::process::ExitCode;
use stop::Stop;

// Runs the command that the first word names.
fn run(rt: &HostRuntime, words: &[String]) -> Result<(), Stop> {
    match words {
        [] => Ok(print_usage(rt)?),
        [help] if help.as_str() == "--help" => Ok(print_usage(rt)?),
        [command, rest @ ..] => Command::named(command)?.start(rt, rest),
    }
}

// Commands with `then` between them, one after another; the first that stops ends them all.
fn run_each(rt: &HostRuntime, words: &[String]) -> Result<(), Stop> {
    for command in words.split(|word| word.as_str() == "then") {
        if command.is_empty() {
            return Err(Stop::NoCommand);
        }
        run(rt, command)?;
    }
    Ok(())
}

// The first word is the program's own name.
fn run_words(rt: &HostRuntime, words: &[String]) -> Result<(), Stop> {
    match words {
        [_name, each, rest @ ..] if each.as_str() == "each" => run_each(rt, rest),
        [_name, rest @ ..] => run(rt, rest),
        none => run(rt, none),
    }
}

fn start(rt: &HostRuntime) -> Result<(), Stop> {
    let words: Vec<String> = env::args(rt)?.collect(rt.alloc())?;
    run_words(rt, &words)
}

fn main(rt: HostRuntime) -> ExitCode {
    match start(&rt) {
        Ok(()) => ExitCode::SUCCESS,
        Err(stop) => {
            let _ = stop.print(&rt);
            ExitCode::FAILURE
        }
    }
}
