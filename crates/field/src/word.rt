// Words: whole numbers modulo the prime 2^31 - 1, in which the check at the end of a file's block is worked out.
//
// 2^31 leaves 1, so that the remainder needs no division: the bits from the 31st on count as a number of their own, which is added
// to the 31 lowest. A sum or a product is taken as it comes, and brought below the modulus once.
ghost use Rattle.std.specs.Prelude.{◌≡◌, ◌-◌, ◌*◌, ◌%◌, ◌^◌, ◌<◌, Some};
ghost use Rattle.field.specs.Digits.{numeral};

use crate::element::Element;
use crate::encodes::Encodes;
use crate::powers::{GROUP, Powers};
use std::fmt;
use std::ops::{Add, Mul};

// 2^31 - 1, and so the mask of the 31 lowest bits too.
const MODULUS: u32 = 0x7fff_ffff;

/// A whole number modulo 2^31 - 1.
#[derive(Clone, Copy, PartialEq, Eq, Debug)]
pub struct Word {
    pub(crate) value: u32,
    ghost fits: { value < 2 ^ 31 - 1 },
}

// The remainder of a number below twice the modulus, which comes off at most once.
fn subtract_once(number: u32) -> u32
    requires { number < 2 * (2 ^ 31 - 1) }
    ensures { result ≡ number % (2 ^ 31 - 1) }
{
    if number < MODULUS {
        number
    } else {
        number - MODULUS
    }
}

// The remainder with no division. The bits from the 31st on are brought below the modulus first, so that the sum fits in 32 bits.
pub(crate) fn remainder(number: u64) -> u32
    requires { number < 2 * (2 ^ 31 - 1) * 2 ^ 31 }
    ensures { result ≡ number % (2 ^ 31 - 1) }
{
    let high = subtract_once((number >> 31) as u32);
    let low = (number & u64::from(MODULUS)) as u32;
    subtract_once(low + high)
}

// The number that two bytes write, the first byte highest.
pub(crate) fn number(bytes: &[u8; 2]) -> u16
    ensures { result ≡ numeral 256 bytes.now }
{
    u16::from_be_bytes(*bytes)
}

impl Word {
    ghost use Rattle.field.specs.Kinds.{word};

    /// The word of this number. A number above 2^31 - 2 enters by its remainder.
    pub fn new(value: u32) -> Word
        ensures { result ≡ word value }
    {
        Word {
            value: remainder(u64::from(value)),
        }
    }

    /// The word as a number from 0 to 2^31 - 2.
    pub fn value(self) -> u32
        ensures { result ≡ self.value }
    {
        self.value
    }
}

/// The number in decimal.
impl fmt::Display for Word {
    ghost use Rattle.field.specs.Texts.{word_text};

    ghost output = { λ word. Some (word_text word) };

    fn fmt<W: fmt::Write>(&self, f: &mut fmt::Formatter<W>) -> fmt::Result {
        write!(f, "{}", self.value)
    }
}

impl Element for Word {
    ghost use Rattle.field.specs.Instances.{word_ring_laws};
    ghost use Rattle.field.specs.Kinds.{word_ring};

    ghost zero = { word_ring.zero };

    ghost one = { word_ring.one };

    ghost sum = { word_ring.sum };

    ghost product = { word_ring.product };

    ghost ring = { word_ring_laws };

    fn zero() -> Word {
        Word::new(0)
    }

    fn one() -> Word {
        Word::new(1)
    }

    fn plus(self, other: Word) -> Word {
        Word {
            value: subtract_once(self.value + other.value),
        }
    }

    fn times(self, other: Word) -> Word {
        Word {
            value: remainder(u64::from(self.value) * u64::from(other.value)),
        }
    }

    // The sum goes into the product as it is, so that a remainder is taken once.
    fn absorb(self, item: Word, key: Word) -> Word {
        let sum = self.value + item.value;
        Word {
            value: remainder(u64::from(sum) * u64::from(key.value)),
        }
    }
}

impl Add for Word {
    type Output = Word;

    ghost use Rattle.field.specs.Kinds.{word_ring};

    ghost add_gives = { λ a b sum. sum ≡ word_ring.sum a b };

    fn add(self, other: Word) -> Word {
        self.plus(other)
    }
}

impl Mul for Word {
    type Output = Word;

    ghost use Rattle.field.specs.Kinds.{word_ring};

    ghost mul_gives = { λ a b product. product ≡ word_ring.product a b };

    fn mul(self, other: Word) -> Word {
        self.times(other)
    }
}

impl Encodes<Word> for [u8; 2] {
    ghost use Rattle.field.specs.Bytes.{word_of};

    ghost element = { word_of };

    fn element(&self) -> Word {
        Word::new(u32::from(number(self)))
    }

    // A group at a time, and then one by one what is left.
    fn absorb_row(key: Word, start: Word, items: &[[u8; 2]]) -> Word {
        let powers = Powers::new(key);
        let (groups, rest) = items.as_chunks::<GROUP>();
        let whole = groups
            .iter()
            .fold(start, |value, group| powers.absorb(value, group));
        rest.iter()
            .fold(whole, |value, item| value.absorb(item.element(), key))
    }
}
