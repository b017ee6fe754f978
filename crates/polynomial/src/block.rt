// Blocks as polynomials over the bits: the coefficient of index k is bit 127 - k of the number, counted from the lowest.
use crate::binary::Binary;
use field::{Block, Element};

impl Binary for Block {
    ghost use Rattle.polynomial.specs.Blocks.{block_laws, coefficients_of};

    ghost width = { 128 };

    ghost bits = { coefficients_of };

    ghost laws = { block_laws };

    fn width() -> usize {
        128
    }

    fn bit(self, k: usize) -> bool {
        k < 128 && (self.bits() >> (127 - k)) & 1 == 1
    }

    fn flip(self, k: usize) -> Block {
        if k < 128 {
            Block::new(self.bits() ^ (1 << (127 - k)))
        } else {
            self
        }
    }

    fn is_zero(self) -> bool {
        self == Block::zero()
    }

    // The ones are counted over the two halves of the coefficients, 64 in each.
    fn weight(self) -> u32 {
        let bits = self.bits();
        let high = (bits >> 64) as u64;
        let low = (bits & u128::from(u64::MAX)) as u64;
        high.count_ones() + low.count_ones()
    }
}
