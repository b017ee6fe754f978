// The division engine: a block moves and adds blocks, and no two blocks are multiplied until the value is asked for.
//
// T, the value of the hash, is not held. What is held is W, a polynomial in t of degree below 128 with blocks as coefficients, whose value
// at the subkey H is T: put H for t, and it comes to T.
//
// A block P has to make T become (T + P)·H. That is the value at H of t·(W + P): the block added to the constant term, and each
// coefficient moved one place up. Its degree may be 128, so it is divided by the accepted polynomial χ, whose degree is 128 and which is
// zero at H. Dividend and remainder differ by a multiple of χ, so they have one value at H; the degree of the remainder is below 128, and
// it is the new W.
//
// χ is t^128 and lower terms whose coefficients are zeros and ones. If c is the coefficient of t^128 in t·(W + P), which stood at the
// highest place of W, then the quotient is the constant c, and the remainder is t·(W + P) + c·χ: a block added to itself is zero, so
// that adding is taking away. At t^128 it leaves nothing, and below that it adds c at the places of the ones of χ, and nowhere else. So
// a block costs one sum more than χ has ones below t^128, and no product.
//
// The product of each step is what is saved. The value has its price when it is asked for: W at H is 128 products, whatever the number of
// blocks. How W moves without moving a block, `ring` says; docs/ENGINES.md has four steps by hand.
ghost use Rattle.std.specs.Prelude.{◌≡◌, false};
ghost use Rattle.engine.specs.Hashing.{NeverSwitches};
ghost use Rattle.division.specs.Divisions.{IsFresh, DivisionAbsorbs, DivisionResumes, division_value};

use crate::divisor::Divisor;
use crate::ring::Ring;
use engine::Engine;
use field::{Block, Element};
use polynomial::Accepted;
use refusal::Refusal;

/// The division engine: the polynomial that it divides by, and W, whose value at the subkey is the engine's value.
///
/// Which blocks it touches depends on the polynomial, and so on the subkey. Whoever shares a machine with an attacker that can time it
/// should use `engine::Step`.
#[derive(Drop)]
pub struct Division {
    pub(crate) divisor: Divisor,
    pub(crate) ring: Ring,
}

impl Division {
    /// An engine under the subkey of this accepted polynomial that has taken in nothing: its value is zero.
    pub fn new(polynomial: Accepted<Block>) -> Division
        ensures { IsFresh polynomial result }
    {
        Division {
            divisor: Divisor::new(polynomial),
            ring: Ring::constant(Block::zero()),
        }
    }
}

/// `value` makes 128 products each time; `absorb` and `resume` make none. A switch is always refused: there is nothing to switch to.
impl Engine for Division {
    ghost subkey_of = { λ engine. engine.divisor.polynomial.subkey };

    ghost value_of = { division_value };

    ghost ready_of = { λ _. false };

    ghost absorbs = { DivisionAbsorbs };

    ghost resumes = { DivisionResumes };

    ghost switches = { NeverSwitches };

    fn subkey(&self) -> Block {
        self.divisor.polynomial.subkey()
    }

    fn value(&self) -> Block {
        self.ring.value_at(self.divisor.polynomial.subkey())
    }

    fn ready(&self) -> bool {
        false
    }

    fn absorb(&mut self, block: Block) {
        self.ring.absorb(&self.divisor, block);
    }

    fn resume(&mut self, value: Block) {
        self.ring.restart(value);
    }

    fn switch(&mut self) -> Result<(), Refusal> {
        Err(Refusal::NotReady)
    }
}
