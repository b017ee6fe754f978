// Trials and makings, compared with plain evaluations.
use crate::fault::Fault;
use field::{Block, Element, Nibble};
use polynomial::{Accepted, Binary, make_polynomial, try_polynomial};

// A key and a proposed polynomial, in four bits each.
#[derive(Clone, Copy)]
struct NibbleTrial {
    key: Nibble,
    proposal: Nibble,
}

impl NibbleTrial {
    fn new(both: u8) -> NibbleTrial {
        NibbleTrial {
            key: Nibble::new(both / 16),
            proposal: Nibble::new(both),
        }
    }

    // t^4 and the proposal's terms at the key, by powers.
    fn plain_value(self) -> Nibble {
        let mut power = Nibble::one();
        let mut sum = Nibble::zero();
        // By the bits of a number, which nothing hands out one by one; plain, since it is what the trial is compared with.
        for k in 0..4u8 {
            if (self.proposal.bits() >> k) & 1 == 1 {
                sum = sum.plus(power);
            }
            power = power.times(self.key);
        }
        sum.plus(power)
    }

    fn accepts(self) -> bool {
        let mut scratch = [Nibble::zero(); 4];
        try_polynomial(self.key, self.proposal, &mut scratch).is_ok()
    }

    // Whether the trial says what the plain value says.
    fn agrees(self) -> bool {
        self.accepts() == (self.plain_value() == Nibble::zero())
    }
}

// Whether the subkey zero accepts the proposal whose only stored term is t^k.
fn zero_accepts(k: usize) -> bool {
    let mut scratch = [Block::zero(); 128];
    try_polynomial(Block::zero(), Block::zero().flip(k), &mut scratch).is_ok()
}

// All 256 trials of nibbles, and the subkey zero with each one-bit proposal: it accepts all but the one with c_0 alone.
pub(crate) fn print_trials(rt: &HostRuntime) -> Result<(), Fault> {
    let trials: Vec<NibbleTrial> = (0..=255u8).map(NibbleTrial::new).collect(rt.alloc())?;
    let agreeing = trials.iter().filter(|trial| trial.agrees()).count();
    let accepted = trials.iter().filter(|trial| trial.accepts()).count();
    println!(rt; "{agreeing} of 256 nibble trials agree, {accepted} accepted")?;
    let zero = (0..128usize).filter(|k| zero_accepts(*k)).count();
    println!(rt; "subkey zero accepts {zero} of 128 proposals with one coefficient")?;
    Ok(())
}

// The maker's polynomial for a subkey, as an accepted one. A function here, since the library keeps no scratch of its own.
pub(crate) fn accepted(subkey: Block) -> Result<Accepted<Block>, Fault> {
    let mut scratch = [Block::zero(); 128];
    Ok(Accepted::make(subkey, &mut scratch)?)
}

// The maker's polynomial for a subkey, with the weight that the trial of it answers. The trial is what is looked at here, so that
// `Accepted::make`, which needs none, does not do.
pub(crate) fn print_made(rt: &HostRuntime, subkey: Block) -> Result<(), Fault> {
    let mut scratch = [Block::zero(); 128];
    let made = make_polynomial(subkey, &mut scratch)?;
    let trial = try_polynomial(subkey, made, &mut scratch)?;
    println!(rt;
        "maker {subkey}: {made} accepted, weight {}",
        trial.weight()
    )?;
    Ok(())
}
