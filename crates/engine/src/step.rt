// The plain engine: one product for each block.
//
// It holds T itself, and a block P makes T become (T + P)·H by the field's own sum and product. So it needs nothing but the subkey, and
// T can be read off at any time for nothing. Other engines save the product; this one is what they are compared with.
ghost use Rattle.std.specs.Prelude.{◌≡◌, false};
ghost use Rattle.field.specs.Kinds.{block_ring};
ghost use Rattle.engine.specs.Hashing.{NeverSwitches};
ghost use Rattle.engine.specs.Steps.{StepAbsorbs, StepResumes};

use crate::engine::Engine;
use field::{Block, Element};
use refusal::Refusal;

/// The step engine: its subkey and its value, as they are.
#[derive(Drop)]
pub struct Step {
    pub(crate) subkey: Block,
    pub(crate) value: Block,
}

impl Step {
    /// An engine under this subkey that has taken in nothing: its value is zero.
    pub fn new(subkey: Block) -> Step
        ensures { result ≡ record { subkey = subkey; value = block_ring.zero } }
    {
        Step {
            subkey,
            value: Block::zero(),
        }
    }
}

/// A switch is always refused: there is nothing to switch to.
impl Engine for Step {
    ghost subkey_of = { λ engine. engine.subkey };

    ghost value_of = { λ engine. engine.value };

    ghost ready_of = { λ _. false };

    ghost absorbs = { StepAbsorbs };

    ghost resumes = { StepResumes };

    ghost switches = { NeverSwitches };

    fn subkey(&self) -> Block {
        self.subkey
    }

    fn value(&self) -> Block {
        self.value
    }

    fn ready(&self) -> bool {
        false
    }

    fn absorb(&mut self, block: Block) {
        self.value = (self.value + block) * self.subkey;
    }

    fn resume(&mut self, value: Block) {
        self.value = value;
    }

    fn switch(&mut self) -> Result<(), Refusal> {
        Err(Refusal::NotReady)
    }
}
