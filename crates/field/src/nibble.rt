// Nibbles: the field of 16 elements, small enough that every case can be worked out by hand.
//
// The bits are read from the right: bit k is the coefficient of x^k. So x times a nibble is a shift to the left, and what comes to
// stand at x^4 counts as x + 1.
ghost use Rattle.std.specs.Prelude.{◌≡◌, ◌^◌, ◌<◌, refl, Some};

use crate::binary::{Polynomial, masked, product};
use crate::element::Element;
use std::fmt;
use std::ops::{Add, Mul};

// x + 1, which stands for x^4.
const REDUCTION: u128 = 0b0011;

/// A polynomial in x over the bits, modulo x^4 + x + 1. Bit k, counted from the lowest, is the coefficient of x^k.
#[derive(Clone, Copy, PartialEq, Eq, Debug)]
pub struct Nibble {
    pub(crate) bits: u8,
    ghost fits: { bits < 2 ^ 4 },
}

impl Nibble {
    ghost use Rattle.field.specs.Kinds.{nibble};

    /// The nibble of these bits. A number above 15 enters by its low four bits.
    pub fn new(bits: u8) -> Nibble
        ensures { result ≡ nibble bits }
    {
        Nibble { bits: bits & 15 }
    }

    /// The nibble as a number from 0 to 15.
    pub fn bits(self) -> u8
        ensures { result ≡ self.bits }
    {
        self.bits
    }
}

/// The four bits, the highest first.
impl fmt::Display for Nibble {
    ghost use Rattle.field.specs.Texts.{nibble_text};

    ghost output = { λ nibble. Some (nibble_text nibble) };

    fn fmt<W: fmt::Write>(&self, f: &mut fmt::Formatter<W>) -> fmt::Result {
        write!(f, "{:04b}", self.bits)
    }
}

impl Element for Nibble {
    ghost use Rattle.field.specs.Instances.{nibble_ring_laws};
    ghost use Rattle.field.specs.Kinds.{nibble_ring};

    ghost zero = { nibble_ring.zero };

    ghost one = { nibble_ring.one };

    ghost sum = { nibble_ring.sum };

    ghost product = { nibble_ring.product };

    ghost ring = { nibble_ring_laws };

    fn zero() -> Nibble {
        Nibble::new(0)
    }

    fn one() -> Nibble {
        Nibble::new(1)
    }

    fn plus(self, other: Nibble) -> Nibble {
        Nibble::new(self.bits ^ other.bits)
    }

    fn times(self, other: Nibble) -> Nibble {
        Nibble::new(product::<Nibble>(self.bits.into(), other.bits.into()) as u8)
    }
}

impl Add for Nibble {
    type Output = Nibble;

    ghost use Rattle.field.specs.Kinds.{nibble_ring};

    ghost add_gives = { λ a b sum. sum ≡ nibble_ring.sum a b };

    fn add(self, other: Nibble) -> Nibble {
        self.plus(other)
    }
}

impl Mul for Nibble {
    type Output = Nibble;

    ghost use Rattle.field.specs.Kinds.{nibble_ring};

    ghost mul_gives = { λ a b product. product ≡ nibble_ring.product a b };

    fn mul(self, other: Nibble) -> Nibble {
        self.times(other)
    }
}

impl Polynomial for Nibble {
    ghost use Rattle.field.specs.Instances.{nibble_lawful};
    ghost use Rattle.field.specs.Kinds.{nibble_shape};

    ghost shape = { nibble_shape };

    ghost WIDTH = { 4 };

    const WIDTH: u32 = 4;

    ghost width = { refl };

    ghost lawful = { nibble_lawful };

    fn coefficient(number: u128, k: u32) -> u128 {
        (number >> k) & 1
    }

    fn times_x(number: u128) -> u128 {
        let top = (number >> 3) & 1;
        number * 2 % 16 ^ masked(top, REDUCTION)
    }
}
