// Nibbles as polynomials over the bits: the coefficient of index k is bit k of the number, counted from the lowest.
use crate::binary::Binary;
use field::{Element, Nibble};

impl Binary for Nibble {
    ghost use Rattle.polynomial.specs.Nibbles.{nibble_coefficients, nibble_laws};

    ghost width = { 4 };

    ghost bits = { nibble_coefficients };

    ghost laws = { nibble_laws };

    fn width() -> usize {
        4
    }

    fn bit(self, k: usize) -> bool {
        k < 4 && (self.bits() >> k) & 1 == 1
    }

    fn flip(self, k: usize) -> Nibble {
        if k < 4 {
            Nibble::new(self.bits() ^ (1 << k))
        } else {
            self
        }
    }

    fn is_zero(self) -> bool {
        self == Nibble::zero()
    }

    fn weight(self) -> u32 {
        self.bits().count_ones()
    }
}
