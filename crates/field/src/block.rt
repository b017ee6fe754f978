// Blocks of 16 bytes, the field over which GHASH runs (NIST SP 800-38D, section 6.3).
//
// A block holds 128 coefficients, each zero or one, and its bits are read from the left: the coefficient of x^0 is the highest bit.
// So the sum is an xor, and x times a block is a shift to the right. The bit that falls out at the right stood for x^127, and so
// for x^128 after the shift, which is x^7 + x^2 + x + 1: that is xored in again.
ghost use Rattle.std.specs.Prelude.{◌≡◌, ◌+◌, ◌*◌, ◌^◌, ◌<◌, refl, Some};

use crate::binary::{Polynomial, masked, product};
use crate::element::Element;
use crate::encodes::Encodes;
use std::fmt;
use std::ops::{Add, Mul};

// 1 + x + x^2 + x^7, which stands for x^128.
const REDUCTION: u128 = 0xe1 << 120;

/// A polynomial in x over the bits, modulo x^128 + x^7 + x^2 + x + 1.
///
/// As 16 bytes, the highest bit of the first is the coefficient of x^0 and the lowest bit of the last that of x^127, as in
/// NIST SP 800-38D, section 6.3.
#[derive(Clone, Copy, PartialEq, Eq, Debug)]
pub struct Block {
    pub(crate) bits: u128,
    ghost fits: { bits < 2 ^ 128 },
}

impl Block {
    ghost use Rattle.field.specs.Bytes.{block_of, bytes_of};
    ghost use Rattle.field.specs.Kinds.{block};

    /// The block of these bits: the coefficient of x^k is bit 127 - k, counted from the lowest.
    pub fn new(bits: u128) -> Block
        ensures { result ≡ block bits }
    {
        Block { bits }
    }

    /// The block of two numbers: the first eight bytes, and then the last eight, each with its first byte highest.
    pub fn from_halves(high: u64, low: u64) -> Block
        ensures { result ≡ block (high * 2 ^ 64 + low) }
    {
        Block::new(u128::from(high) << 64 | u128::from(low))
    }

    /// The block as one number: bit 127 - k, counted from the lowest, is the coefficient of x^k.
    pub fn bits(self) -> u128
        ensures { result ≡ self.bits }
    {
        self.bits
    }

    /// The block that 16 bytes write, the first byte highest. It holds the coefficients of x^0 to x^7, that of x^0 highest.
    pub fn from_bytes(bytes: [u8; 16]) -> Block
        ensures value { result ≡ block_of bytes }
        ensures back { bytes_of result ≡ bytes }
    {
        Block::new(u128::from_be_bytes(bytes))
    }

    /// The 16 bytes of the block, the first byte highest.
    pub fn to_bytes(self) -> [u8; 16]
        ensures value { result ≡ bytes_of self }
        ensures back { block_of result ≡ self }
    {
        u128::to_be_bytes(self.bits)
    }
}

/// 32 hexadecimal digits, those of the first byte first.
impl fmt::Display for Block {
    ghost use Rattle.field.specs.Texts.{block_text};

    ghost output = { λ block. Some (block_text block) };

    fn fmt<W: fmt::Write>(&self, f: &mut fmt::Formatter<W>) -> fmt::Result {
        let high = (self.bits >> 64) as u64;
        let low = (self.bits % (1 << 64)) as u64;
        write!(f, "{high:016x}{low:016x}")
    }
}

impl Element for Block {
    ghost use Rattle.field.specs.Instances.{block_ring_laws};
    ghost use Rattle.field.specs.Kinds.{block_ring};

    ghost zero = { block_ring.zero };

    ghost one = { block_ring.one };

    ghost sum = { block_ring.sum };

    ghost product = { block_ring.product };

    ghost ring = { block_ring_laws };

    fn zero() -> Block {
        Block::new(0)
    }

    fn one() -> Block {
        Block::new(1 << 127)
    }

    fn plus(self, other: Block) -> Block {
        Block::new(self.bits ^ other.bits)
    }

    fn times(self, other: Block) -> Block {
        Block::new(product::<Block>(self.bits, other.bits))
    }
}

impl Add for Block {
    type Output = Block;

    ghost use Rattle.field.specs.Kinds.{block_ring};

    ghost add_gives = { λ a b sum. sum ≡ block_ring.sum a b };

    fn add(self, other: Block) -> Block {
        self.plus(other)
    }
}

impl Mul for Block {
    type Output = Block;

    ghost use Rattle.field.specs.Kinds.{block_ring};

    ghost mul_gives = { λ a b product. product ≡ block_ring.product a b };

    fn mul(self, other: Block) -> Block {
        self.times(other)
    }
}

impl Encodes<Block> for [u8; 16] {
    ghost use Rattle.field.specs.Bytes.{block_of};

    ghost element = { block_of };

    fn element(&self) -> Block {
        Block::from_bytes(*self)
    }
}

impl Polynomial for Block {
    ghost use Rattle.field.specs.Instances.{block_lawful};
    ghost use Rattle.field.specs.Kinds.{block_shape};

    ghost shape = { block_shape };

    ghost WIDTH = { 128 };

    const WIDTH: u32 = 128;

    ghost width = { refl };

    ghost lawful = { block_lawful };

    fn coefficient(number: u128, k: u32) -> u128 {
        (number << k) >> 127
    }

    fn times_x(number: u128) -> u128 {
        (number >> 1) ^ masked(number & 1, REDUCTION)
    }
}
