// The commands, each with the words that it takes and what it does.
use crate::drive::replay_script;
use crate::files::{check_sealed, list_file, open_file, seal_files};
use crate::messages::{check_files, find_in_files};
use crate::polynomials::{print_maker, print_trial};
use crate::preflight::preflight;
use crate::stop::Stop;
use crate::tagging::tag_files;
use std::{fmt, io};

#[derive(Clone, Copy)]
pub(crate) enum Command {
    Preflight,
    Tag,
    CheckTag,
    Find,
    Seal,
    Check,
    Open,
    List,
    Replay,
    Maker,
    Trial,
}

use Command::{Check, CheckTag, Find, List, Maker, Open, Preflight, Replay, Seal, Tag, Trial};

impl Command {
    const ALL: [Command; 11] = [
        Preflight, Tag, CheckTag, Find, Seal, Check, Open, List, Replay, Maker, Trial,
    ];

    pub(crate) fn named(word: &str) -> Result<Command, Stop> {
        let mut commands = Command::ALL.into_iter();
        commands
            .find(|command| command.name() == word)
            .ok_or_else(|| Stop::NoCommand)
    }

    fn name(self) -> &'static str {
        match self {
            Preflight => "preflight",
            Tag => "tag",
            CheckTag => "check-tag",
            Find => "find",
            Seal => "seal",
            Check => "check",
            Open => "open",
            List => "list",
            Replay => "replay",
            Maker => "maker",
            Trial => "trial",
        }
    }

    fn words(self) -> &'static str {
        match self {
            Preflight => "SUBKEY PAD HEADER BODY OUT [--polynomial HEX] [--cut N]..",
            Tag => "SUBKEY PAD HEADER BODY",
            CheckTag => "SUBKEY PAD HEADER BODY TAG",
            Find => "HEADER BODY N",
            Seal => "SUBKEY PAD HEADER BODY OUT",
            Check => "SUBKEY PAD FILE",
            Open => "SUBKEY PAD FILE HEADER BODY",
            List => "FILE",
            Replay => "SUBKEY PAD SCRIPT",
            Maker => "SUBKEY",
            Trial => "SUBKEY PROPOSAL",
        }
    }

    fn effect(self) -> &'static str {
        match self {
            Preflight => "the list before a launch; the last line says whether to",
            Tag => "the hash and the tag of two files",
            CheckTag => "whether 4 to 16 bytes begin that tag",
            Find => "block N of two files, counted from 0",
            Seal => "writes the sealed file OUT",
            Check => "whether a sealed file is as it was written",
            Open => "writes both parts out, once the file is checked",
            List => "a line for each record",
            Replay => "a job driven by a script, a call to a line",
            Maker => "a polynomial that annihilates the subkey",
            Trial => "whether a proposed polynomial does",
        }
    }

    fn run(self, rt: &HostRuntime, words: &[String]) -> Result<(), Stop> {
        match self {
            Preflight => preflight(rt, words),
            Tag => tag_files(rt, words),
            CheckTag => check_files(rt, words),
            Find => find_in_files(rt, words),
            Seal => seal_files(rt, words),
            Check => check_sealed(rt, words),
            Open => open_file(rt, words),
            List => list_file(rt, words),
            Replay => replay_script(rt, words),
            Maker => print_maker(rt, words),
            Trial => print_trial(rt, words),
        }
    }

    // Runs on the words after the command, or says how it is used.
    pub(crate) fn start(self, rt: &HostRuntime, words: &[String]) -> Result<(), Stop> {
        match words {
            [help] if help.as_str() == "--help" => {
                println!(rt; "usage:\n{self}\n{NOTES}")?;
                Ok(())
            }
            _ => self.run(rt, words),
        }
    }
}

// How it is used, and what it does.
impl fmt::Display for Command {
    fn fmt<W: fmt::Write>(&self, f: &mut fmt::Formatter<W>) -> fmt::Result {
        write!(
            f,
            "  sonde {} {}\n        {}",
            self.name(),
            self.words(),
            self.effect()
        )
    }
}

const NOTES: &str =
    "A script has lines `header PIECE..`, `switch`, `turn`, `body PIECE..` and `close`; a piece is hexadecimal
digits, or @ and the name of a file; a line that begins with # is a comment.
TAG is 8 to 32 hexadecimal digits, SCRIPT the name of a file; where BODY is read, - is standard input;
SUBKEY, PAD and PROPOSAL are 32 hexadecimal digits each, HEADER and BODY names of files";

const EACH: &str = "  sonde each COMMAND.. then COMMAND..
        commands one after another, the word `then` between them
  sonde --help, sonde COMMAND --help";

// How all of them are used.
pub(crate) fn print_usage(rt: &HostRuntime) -> io::Result<()> {
    println!(rt; "usage:")?;
    for command in Command::ALL {
        println!(rt; "{command}")?;
    }
    println!(rt; "{EACH}\n{NOTES}")
}
