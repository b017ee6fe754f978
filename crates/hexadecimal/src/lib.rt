// Hexadecimal texts that a user gives, read as a block or as bytes.
//
// The crate `hex` reads the digits. Here are the faults as programs tell them, the order in which they are looked for, and the row
// that a fault leaves as it was: `hex` writes while it reads, so the first place that is no digit is found before it writes at all.
// Nothing is allocated: bytes go into a row that the caller lends.
#![tactic(auto)]

ghost use Rattle.std.specs.Prelude.{◌≡◌, length};
ghost use Rattle.std.specs.List.{list_all};
ghost use Rattle.hex.specs.Hex.{is_hex_digit};
ghost use Rattle.hexadecimal.specs.Words.{bad_place, block_in, bytes_count, fault_of, WritesBytes};

use field::Block;
use hex::{FromHex, FromHexError};
use std::error::Error;
use std::fmt;

/// Why a text is refused.
#[derive(Clone, Copy, PartialEq, Eq, Debug)]
pub enum HexFault {
    /// The text has this many bytes, and another count is wanted: 32 for a block, an even count for bytes.
    WrongLength { digits: usize },
    /// The byte at this place, counted from 0, is no hexadecimal digit. It is the first such place.
    NotADigit { at: usize },
    /// The digits write this many bytes, and the row that was lent holds fewer.
    RowTooShort { needed: usize },
}

/// One line for the user: the count of digits, the place or the count of bytes, in decimal digits.
impl fmt::Display for HexFault {
    ghost use Rattle.std.specs.Prelude.{Some};
    ghost use Rattle.hexadecimal.specs.Faults.{fault_text};

    ghost output = { λ fault. Some (fault_text fault) };

    fn fmt<W: fmt::Write>(&self, f: &mut fmt::Formatter<W>) -> fmt::Result {
        match self {
            HexFault::WrongLength { digits } => write!(f, "{digits} digits"),
            HexFault::NotADigit { at } => write!(
                f,
                "the character at place {at}, from 0, is no hexadecimal digit"
            ),
            HexFault::RowTooShort { needed } => write!(f, "no room for {needed} bytes"),
        }
    }
}

impl Error for HexFault {}

/// The block that 32 digits of either case write: two to a byte, the higher first, and the first byte first.
///
/// Refused with `WrongLength` for any other count of bytes in the text, and then with `NotADigit` for the first place that is no
/// digit.
pub fn parse_block(text: &str) -> Result<Block, HexFault>
    ensures { result ≡ block_in text.now }
{
    <[u8; 16]>::from_hex(text)
        .map(Block::from_bytes)
        .map_err(|error| fault_of(text.len(), error))
}

/// Writes the bytes of a text to the front of a row, and answers how many they are.
///
/// Two digits of either case write a byte, the higher first, and the first byte comes first. The rest of the row stays as it was.
/// Refused with `WrongLength` for an odd count of bytes in the text, then with `NotADigit` for the first place that is no digit,
/// and then with `RowTooShort`; after a refusal the row is as it was.
pub fn parse_bytes(text: &str, bytes: &mut [u8]) -> Result<usize, HexFault>
    ensures answer { result ≡ bytes_count text.now (length bytes.old) }
    ensures bytes { WritesBytes text.now bytes.old bytes.new result }
{
    let digits = text.len();
    if digits % 2 != 0 {
        return Err(HexFault::WrongLength { digits });
    }
    if let Some(at) = bad_place(text) {
        return Err(HexFault::NotADigit { at });
    }
    let needed = digits / 2;
    if bytes.len() < needed {
        return Err(HexFault::RowTooShort { needed });
    }
    hex::decode_to_slice(text, &mut bytes[..needed]).map_err(|error| fault_of(digits, error))?;
    Ok(needed)
}

// Whether each byte is a digit. It looks at all of them, since a pass that does not stop is compiled to one over many bytes at once.
fn all_digits(bytes: &[u8]) -> bool
    ensures { result ≡ list_all is_hex_digit bytes.now }
{
    bytes
        .iter()
        .fold(true, |digits, c| digits & c.is_ascii_hexdigit())
}

// The first place that holds no digit. It is looked for only where there is one.
fn bad_place(text: &str) -> Option<usize>
    ensures { result ≡ bad_place text.now }
{
    let bytes = text.as_bytes();
    if all_digits(bytes) {
        return None;
    }
    bytes.iter().position(|c| !c.is_ascii_hexdigit())
}

// What an error of `hex` is in a text of so many digits: its bad digit, or else its length, since nothing is allocated.
fn fault_of(digits: usize, error: FromHexError) -> HexFault
    ensures { result ≡ fault_of digits error }
{
    match error {
        FromHexError::InvalidHexCharacter { index, .. } => HexFault::NotADigit { at: index },
        _ => HexFault::WrongLength { digits },
    }
}
