// Two engines, of which one runs, and a switch from one to the other.
//
// Blocks reach only the engine that runs; the other one's value falls behind. A switch lets the other go on from the value of the one
// that ran: under one subkey both would have computed it, so nothing is hashed twice and the pair's value stays what it is. Under two
// subkeys the value would mean nothing to the other, and the switch is refused.
//
// The two engines may differ in type, so that each method has its own match on the side that runs. A pair is an engine itself, and may
// stand in a pair.
ghost use Rattle.std.specs.Prelude.{◌≡◌};
ghost use Rattle.engine.specs.Pairs.{PairsAbsorb, pair_of};

use crate::engine::Engine;
use field::Block;
use refusal::Refusal;

/// Which engine of a pair.
#[derive(Clone, Copy, PartialEq, Eq, Debug)]
pub enum Side {
    First,
    Second,
}

/// Two engines, of which one runs. Its subkey and its value are those of the engine that runs.
#[derive(Drop)]
pub struct Pair<A, B> {
    pub(crate) first: A,
    pub(crate) second: B,
    pub(crate) running: Side,
}

impl<A: Engine, B: Engine> Pair<A, B> {
    /// A pair of two engines as they are, of which the first runs. It is ready for a switch where their subkeys are equal.
    pub fn new(first: A, second: B) -> Pair<A, B>
        ensures { result ≡ record { first = first; second = second; running = Side.First } }
    {
        Pair {
            first,
            second,
            running: Side::First,
        }
    }

    /// The side of the engine that runs.
    pub fn running(&self) -> Side
        ensures { result ≡ self.now.running }
    {
        self.running
    }

    /// Both engines as they are. The one that does not run has the value that it had when it last ran, or was handed in with.
    pub fn into_parts(self) -> (A, B)
        ensures { result ≡ (self.first, self.second) }
    {
        let Pair {
            first,
            second,
            running: _,
        } = self;
        (first, second)
    }
}

/// A switch is accepted where both engines hash under one subkey; else it is refused as `NotReady` (6), and the pair is as it was.
impl<A: Engine, B: Engine> Engine for Pair<A, B> {
    ghost subkey_of = { (pair_of A.Engine B.Engine).subkey_of };

    ghost value_of = { (pair_of A.Engine B.Engine).value_of };

    ghost ready_of = { (pair_of A.Engine B.Engine).ready_of };

    ghost absorbs = { (pair_of A.Engine B.Engine).absorbs };

    ghost resumes = { (pair_of A.Engine B.Engine).resumes };

    ghost switches = { (pair_of A.Engine B.Engine).switches };

    fn subkey(&self) -> Block {
        match self.running {
            Side::First => self.first.subkey(),
            Side::Second => self.second.subkey(),
        }
    }

    fn value(&self) -> Block {
        match self.running {
            Side::First => self.first.value(),
            Side::Second => self.second.value(),
        }
    }

    fn ready(&self) -> bool {
        self.first.subkey() == self.second.subkey()
    }

    fn absorb(&mut self, block: Block) {
        match self.running {
            Side::First => self.first.absorb(block),
            Side::Second => self.second.absorb(block),
        }
    }

    fn resume(&mut self, value: Block) {
        match self.running {
            Side::First => self.first.resume(value),
            Side::Second => self.second.resume(value),
        }
    }

    fn switch(&mut self) -> Result<(), Refusal> {
        if !self.ready() {
            return Err(Refusal::NotReady);
        }
        match self.running {
            Side::First => {
                self.second.resume(self.first.value());
                self.running = Side::Second;
            }
            Side::Second => {
                self.first.resume(self.second.value());
                self.running = Side::First;
            }
        }
        Ok(())
    }
}

/// Takes a block into two pairs: it reaches the engine that runs in the pair that runs, and the other pair is as it was.
pub fn absorb_in_pairs<A: Engine, B: Engine, C: Engine, D: Engine>(
    pairs: &mut Pair<Pair<A, B>, Pair<C, D>>,
    block: Block,
)
    ensures { PairsAbsorb A.Engine B.Engine C.Engine D.Engine pairs.old block pairs.new }
{
    pairs.absorb(block);
}
