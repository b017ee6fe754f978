// Why the program ends without a result.
use crate::script::LineFault;
use hexadecimal::HexFault;
use refusal::Refusal;
use std::alloc::AllocError;
use std::{error, fmt, io};
use thiserror::Error;

// An argument, by its name in the usage text.
#[derive(Clone, Copy, Debug)]
pub(crate) enum Argument {
    Subkey,
    Pad,
    Proposal,
    Header,
    Body,
    Script,
    Tag,
    Number,
    File,
    Out,
}

// The name in the usage text.
impl fmt::Display for Argument {
    fn fmt<W: fmt::Write>(&self, f: &mut fmt::Formatter<W>) -> fmt::Result {
        f.write_str(match self {
            Argument::Subkey => "SUBKEY",
            Argument::Pad => "PAD",
            Argument::Proposal => "PROPOSAL",
            Argument::Header => "HEADER",
            Argument::Body => "BODY",
            Argument::Script => "SCRIPT",
            Argument::Tag => "TAG",
            Argument::Number => "N",
            Argument::File => "FILE",
            Argument::Out => "OUT",
        })
    }
}

// A word that should be the digits of a block, or of bytes, and is not, or for whose bytes there is no memory.
#[derive(Clone, Copy, Debug)]
pub(crate) enum BadWord {
    Block(HexFault),
    Bytes(HexFault),
    NoMemory,
}

// The fault, and after a wrong count of digits what was wanted.
impl fmt::Display for BadWord {
    fn fmt<W: fmt::Write>(&self, f: &mut fmt::Formatter<W>) -> fmt::Result {
        let (fault, wanted) = match self {
            BadWord::Block(fault) => (fault, "32 are wanted"),
            BadWord::Bytes(fault) => (fault, "an even count is wanted"),
            BadWord::NoMemory => return f.write_str("no memory"),
        };
        write!(f, "{fault}")?;
        if let HexFault::WrongLength { digits: _ } = fault {
            write!(f, ", and {wanted}")?;
        }
        Ok(())
    }
}

// A comparison of the list of a flight, by what it says where it fails.
#[derive(Clone, Copy, Debug)]
pub(crate) enum Check {
    Job,
    Finder,
    Cut,
    CutPastEnd,
    Runs,
    Switch,
    ReadBack,
}

// What was found to be wrong.
impl fmt::Display for Check {
    fn fmt<W: fmt::Write>(&self, f: &mut fmt::Formatter<W>) -> fmt::Result {
        f.write_str(match self {
            Check::Job => "the job's hash is not the one-shot's",
            Check::Finder => "the finder's blocks are not those that are hashed",
            Check::Cut => "a cut changes the tag",
            Check::CutPastEnd => "a cut stands past the end of the body",
            Check::Runs => "a switch does not make the other engine run",
            Check::Switch => "a switch changes the tag",
            Check::ReadBack => "what is read back is not what was sealed",
        })
    }
}

impl error::Error for Check {}

impl Check {
    pub(crate) fn holds(self, agrees: bool) -> Result<(), Check> {
        if agrees { Ok(()) } else { Err(self) }
    }
}

// Each is told in one line.
#[derive(Debug, Drop, Error)]
pub(crate) enum Stop {
    // The library refused the input.
    #[error(transparent)]
    Refused(#[from] Refusal),
    #[error("{argument}: {word}")]
    BadHex {
        argument: Argument,
        word: BadWord,
    },
    #[error("{argument}: no whole number")]
    BadNumber {
        argument: Argument,
    },
    // The file that this argument names could not be read or written.
    #[error("{argument}: {error}")]
    NoFile {
        argument: Argument,
        error: io::Error,
    },
    // This line of the script cannot be run.
    #[error("line {line}: {fault}")]
    BadLine {
        line: usize,
        fault: LineFault,
    },
    #[error("{wanted} words are wanted after the command, and {given} were given")]
    WrongCount {
        wanted: usize,
        given: usize,
    },
    #[error("no such command; sonde --help says how to use it")]
    NoCommand,
    #[error("no such option, or one without its value")]
    NoOption,
    // Two ways that must agree do not.
    #[error(transparent)]
    Differs(#[from] Check),
    #[error("no memory")]
    NoMemory(#[from(alloc)] AllocError),
    // The list before a launch has said why.
    #[error("do not launch")]
    Grounded,
    // Printing failed.
    #[error(transparent)]
    Failed(#[from] io::Error),
}

impl Stop {
    // A refusal and a comparison that fails are answers of the library.
    pub(crate) fn is_answer(&self) -> bool {
        matches!(self, Stop::Refused(_) | Stop::Differs(_))
    }

    // Answers go to standard output, the rest to standard error.
    pub(crate) fn print(&self, rt: &HostRuntime) -> io::Result<()> {
        if self.is_answer() {
            println!(rt; "{self}")
        } else {
            self.print_fault(rt)
        }
    }

    // What is no answer, to standard error.
    pub(crate) fn print_fault(&self, rt: &HostRuntime) -> io::Result<()> {
        match self {
            Stop::Refused(_) | Stop::Differs(_) | Stop::Grounded => Ok(()),
            _ => eprintln!(rt; "{self}"),
        }
    }
}
