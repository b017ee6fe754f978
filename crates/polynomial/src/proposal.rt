// The trial of a proposal: does it annihilate the subkey?
//
// A proposal stands for t^width plus the sum of t^k over the k where it has a one. The powers of the subkey are written to the
// scratch, the zeroth first. Those where the proposal has a one are summed, and the next power, that of the highest term, is added:
// the proposal annihilates the subkey where that comes to zero.
ghost use Rattle.std.specs.Prelude.{◌≡◌, length};
ghost use Rattle.field.specs.Evaluation.{power};
ghost use Rattle.polynomial.specs.Outcomes.{TriesProposal, scratch_after};
ghost use Rattle.polynomial.specs.Steps.{SumsPowers, power_list};

use crate::accepted::Accepted;
use crate::binary::Binary;
use crate::scratch::Scratch;
use crate::trial::Trial;
use field::Element;
use refusal::Refusal;

// Writes the powers of the key from the zeroth on, and answers the next.
pub(crate) fn fill_powers<E: Element + Copy>(powers: &mut [E], key: E) -> E
    ensures value { result ≡ power E.Element key (length powers.old) }
    ensures powers { powers.new ≡ power_list E.Element key (length powers.old) }
{
    let mut next = E::one();
    for power in powers.iter_mut() {
        *power = next;
        next = key.times(next);
    }
    next
}

// The sum of the powers where the proposal has a one: its value at the key, but for the highest term.
pub(crate) fn sum_powers<K: Binary>(powers: &[K], proposal: K) -> K
    ensures { SumsPowers K.Element (K.Binary.bits proposal) powers.now result }
{
    powers
        .iter()
        .enumerate()
        .filter(|(k, _)| proposal.bit(*k))
        .fold(K::zero(), |sum, (_, power)| sum.plus(*power))
}

/// Accepts a proposal exactly when it annihilates the subkey. The proposal's coefficient of index j is that of t^j. The highest,
/// that of t to the kind's width, is one and not given.
///
/// It refuses with `ScratchTooShort` (5) where the scratch holds fewer elements than the kind's width (128 blocks, 4 nibbles),
/// and with `DoesNotAnnihilate` (3) where the proposal's value at the subkey is not zero.
///
/// The scratch is lent for this call alone: as many elements at its front as the width are zero afterwards, so that none tells the
/// subkey, and the others stay. One that is too short is not touched.
pub fn try_polynomial<K: Binary>(
    subkey: K,
    proposal: K,
    scratch: &mut [K],
) -> Result<Trial<K>, Refusal>
    ensures value { TriesProposal K.Binary.own K.Element (length scratch.old)
        subkey proposal result }
    ensures scratch { scratch.new ≡ scratch_after K.Element K.Binary.width scratch.old }
{
    if scratch.len() < K::width() {
        return Err(Refusal::ScratchTooShort);
    }
    let (elements, _) = scratch.split_at_mut(K::width());
    let mut scratch = Scratch { elements };
    if !scratch.value_at(subkey, proposal).is_zero() {
        return Err(Refusal::DoesNotAnnihilate);
    }
    Ok(Trial::new(Accepted {
        subkey,
        coefficients: proposal,
    }))
}
