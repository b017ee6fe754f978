// Words of the command line.
use crate::stop::{Argument, BadWord, Stop};
use field::Block;
use hexadecimal::{HexFault, parse_block, parse_bytes};
use std::alloc::AllocError;
use std::io::Read;
use std::{fmt, fs, io};

// The words of a command that takes so many.
pub(crate) fn exactly<const N: usize>(words: &[String]) -> Result<&[String; N], Stop> {
    words.as_array().ok_or_else(|| Stop::WrongCount {
        wanted: N,
        given: words.len(),
    })
}

fn read_input(rt: &HostRuntime) -> io::Result<Vec<u8>> {
    let mut bytes = Vec::new(rt.alloc());
    rt.reader().read_to_end(&mut bytes)?;
    Ok(bytes)
}

// A row with room for the bytes of a word of digits, two digits to a byte.
fn row_for(rt: &HostRuntime, word: &str) -> Result<Vec<u8>, AllocError> {
    vec![in rt.alloc(); 0u8; word.len() / 2]
}

// What a word for which there is no row is told as: a wrong word is wrong, however little memory there is.
fn fault_without_row(word: &str) -> BadWord {
    match parse_bytes(word, &mut []) {
        Ok(_) | Err(HexFault::RowTooShort { needed: _ }) => BadWord::NoMemory,
        Err(fault) => BadWord::Bytes(fault),
    }
}

// The bytes of a word of any even count of digits.
pub(crate) fn bytes_of(rt: &HostRuntime, word: &str) -> Result<Vec<u8>, BadWord> {
    let mut bytes = row_for(rt, word).map_err(|_| fault_without_row(word))?;
    parse_bytes(word, &mut bytes).map_err(BadWord::Bytes)?;
    Ok(bytes)
}

impl Argument {
    // A word of 32 digits.
    pub(crate) fn parse_block(self, word: &str) -> Result<Block, Stop> {
        parse_block(word).map_err(|fault| Stop::BadHex {
            argument: self,
            word: BadWord::Block(fault),
        })
    }

    // A word of any even count of digits.
    pub(crate) fn parse_bytes(self, rt: &HostRuntime, word: &str) -> Result<Vec<u8>, Stop> {
        bytes_of(rt, word).map_err(|word| Stop::BadHex {
            argument: self,
            word,
        })
    }

    // A number in decimal digits.
    pub(crate) fn parse_number(self, word: &str) -> Result<usize, Stop> {
        word.parse::<usize>()
            .map_err(|_| Stop::BadNumber { argument: self })
    }

    fn no_file(self, error: io::Error) -> Stop {
        Stop::NoFile {
            argument: self,
            error,
        }
    }

    // A file's bytes. A body may come from standard input, by the name -.
    pub(crate) fn read_bytes(self, rt: &HostRuntime, path: &str) -> Result<Vec<u8>, Stop> {
        let read = match self {
            Argument::Body if path == "-" => read_input(rt),
            _ => fs::read(rt, path),
        };
        read.map_err(|error| self.no_file(error))
    }

    // A file's text, which is UTF-8.
    pub(crate) fn read_text(self, rt: &HostRuntime, path: &str) -> Result<String, Stop> {
        fs::read_to_string(rt, path).map_err(|error| self.no_file(error))
    }

    // Writes a file.
    pub(crate) fn write(self, rt: &HostRuntime, path: &str, bytes: &[u8]) -> Result<(), Stop> {
        fs::write(rt, path, bytes).map_err(|error| self.no_file(error))
    }
}

// Bytes as hexadecimal digits.
#[derive(Clone, Copy)]
pub(crate) struct Hex<'a>(pub(crate) &'a [u8]);

impl fmt::Display for Hex<'_> {
    fn fmt<W: fmt::Write>(&self, f: &mut fmt::Formatter<W>) -> fmt::Result {
        for byte in self.0 {
            write!(f, "{byte:02x}")?;
        }
        Ok(())
    }
}
