// A trial in a lent scratch, and what is left in it.
//
// The trial writes powers of the subkey to the scratch and wipes them. So the scratch is lent for one call and goes with no subkey.
ghost use Rattle.std.specs.Prelude.{◌≡◌, ◌≤◌, length};
ghost use Rattle.field.specs.Kinds.{block_ring};
ghost use Rattle.polynomial.specs.Polynomials.{zeroed_scratch};
ghost use Rattle.logger.specs.Calls.{Weighs, bits_from};

use field::Block;
use polynomial::try_polynomial;
use refusal::Refusal;

// The weight of a proposal that annihilates the subkey, at most 128.
pub(crate) fn try_in(subkey: Block, proposal: Block, scratch: &mut [Block]) -> Result<u8, Refusal>
    requires { 128 ≤ length scratch.old }
    ensures value { Weighs subkey proposal result }
    ensures scratch { scratch.new ≡ zeroed_scratch block_ring 128 scratch.old }
{
    let trial = try_polynomial(subkey, proposal, scratch)?;
    Ok(trial.weight() as u8)
}

// Every bit that stands in some block of the scratch.
pub(crate) fn bits_in(scratch: &[Block]) -> u128
    ensures { result ≡ bits_from 0 scratch.now }
{
    scratch.iter().fold(0, |bits, block| bits | block.bits())
}
