// W in a ring of 128 blocks, where a step of the division moves none of them.
//
// W is a polynomial in t of degree below 128 with blocks as coefficients. The coefficient of t^k stands k places after the beginning of
// the ring, which goes on from its last place to its first: at (base + k) % 128.
//
// In t·W each coefficient stands one place higher. Seen from one place further back, each one does, so t·W is W with its beginning moved
// one place back round the ring, and no block is moved. What stood at the highest place, as coefficient of t^127, is now at the new
// beginning. There it would be the constant term; in t·W it is the coefficient of t^128, and the constant term is zero. So it is taken
// out, and the division goes on with it: t^128 is the sum of the divisor's lower terms, up to a multiple of the divisor, so the block
// taken out is added at the places of the divisor's ones, and the degree is below 128 again.
ghost use Rattle.std.specs.Prelude.{◌≡◌, ℕ, ◌<◌, fold, length, reverse, slice_index};
ghost use Rattle.field.specs.Kinds.{block_ring};

use crate::divisor::Divisor;
use field::{Block, Element};

#[derive(Drop)]
pub(crate) struct Ring {
    pub(crate) state: [Block; 128],
    // Where the coefficient of t^0 stands.
    pub(crate) base: usize,
    ghost inside: { base < 128 },
}

// Horner's rule from the highest of these coefficients down, where those above them have come to the value `above`.
fn value_above(key: Block, coefficients: &[Block], above: Block) -> Block
    ensures { result ≡ fold (λ s c. block_ring.sum c (block_ring.product key s)) above
        (reverse coefficients.now) }
{
    coefficients
        .iter()
        .rev()
        .fold(above, |sum, &coefficient| coefficient + key * sum)
}

impl Ring {
    ghost use Rattle.polynomial.specs.Polynomials.{value_at};
    ghost use Rattle.division.specs.Divisions.{IsConstant, LeavesRemainder, polynomial_of, base_after};
    ghost use Rattle.division.specs.Places.{sum_at_places};

    // The constant polynomial of this value.
    pub(crate) fn constant(value: Block) -> Ring
        ensures { IsConstant value result }
    {
        let mut ring = Ring {
            state: [Block::zero(); 128],
            base: 0,
        };
        ring.restart(value);
        ring
    }

    // W becomes the constant polynomial of this value. The ring is written in place, so that its 2,048 bytes are not moved.
    pub(crate) fn restart(&mut self, value: Block)
        ensures { IsConstant value self.new }
    {
        self.state.fill(Block::zero());
        self.state[0] = value;
        self.base = 0;
    }

    // The value of W at a key: 128 products. The higher part of W is the one that has gone round the end of the array.
    pub(crate) fn value_at(&self, key: Block) -> Block
        ensures { result ≡ value_at block_ring key (polynomial_of self.now) }
    {
        let (high, low) = self.state.split_at(self.base);
        let above = value_above(key, high, Block::zero());
        value_above(key, low, above)
    }

    // Adds a block to the coefficient of t^k for each of these places k.
    fn add_at(&mut self, places: &[u8], block: Block)
        requires { (k : ℕ) → k < length places.now → slice_index places.now k < 128 }
        ensures added { polynomial_of self.new
            ≡ sum_at_places block_ring block places.now (polynomial_of self.old) }
        ensures base { self.new.base ≡ self.old.base }
    {
        let base = self.base;
        for &place in places {
            let at = (base + usize::from(place)) % 128;
            self.state[at] = self.state[at] + block;
        }
    }

    // Replaces W by the remainder of t·(W + block) under division.
    pub(crate) fn absorb(&mut self, divisor: &Divisor, block: Block)
        ensures divided { LeavesRemainder divisor.now.polynomial self.old block self.new }
        ensures turn { self.new.base ≡ base_after self.old.base }
    {
        let lowest = self.base;
        self.state[lowest] = self.state[lowest] + block;
        let base = (lowest + 127) % 128;
        let top = self.state[base];
        self.state[base] = Block::zero();
        self.base = base;
        self.add_at(divisor.places.as_slice(), top);
    }
}
