// Two hashes under one subkey, and what they differ by.
//
// A hash is the evaluation of a block list at the subkey, and an evaluation is linear in its list. So where two lists have one
// length, the xor of their hashes is the evaluation of the lists xored, and the blocks that they share count for nothing. The lists
// have one length where both headers have one length and both bodies have one length.
ghost use Rattle.std.specs.Prelude.{◌≡◌};
ghost use Rattle.field.specs.Kinds.{block_ring};
ghost use Rattle.job.specs.Differences.{RunsXorIsEvaluation, XorIsEvaluation, xor_of_runs};

use crate::call::Calls;
use crate::closed::Closed;
use crate::run::replay;
use engine::Engine;
use field::{Block, Element};
use message::Pad;

/// The xor of the hashes of two closed jobs. Where both ran under one subkey and took as many bytes of each part, it is the
/// evaluation, at that subkey, of their block lists xored.
pub fn hash_difference<A: Engine, B: Engine>(first: &Closed<A>, second: &Closed<B>) -> Block
    ensures answer { result ≡ block_ring.sum first.now.digest.hash second.now.digest.hash }
    ensures law { XorIsEvaluation A.Engine B.Engine first.now second.now result }
{
    first.digest.hash + second.digest.hash
}

/// The xor of the hashes that two whole jobs come to, each on an engine of its own. Where the engines have one subkey and the jobs
/// take as many bytes of each part, it is the evaluation, at that subkey, of their block lists xored.
pub fn difference_of_runs<A: Engine + Drop, B: Engine + Drop>(
    first: A,
    first_calls: Calls,
    second: B,
    second_calls: Calls,
) -> Block
    ensures answer { result ≡ xor_of_runs A.Engine B.Engine
        first first_calls.entry second second_calls.entry }
    ensures law { RunsXorIsEvaluation A.Engine B.Engine
        first first_calls.entry second second_calls.entry result }
{
    // The pad goes into the tag alone, so any will do for the hashes.
    let pad = Pad(Block::zero());
    let one = replay(first, first_calls, pad, &mut [], &mut []);
    let two = replay(second, second_calls, pad, &mut [], &mut []);
    hash_difference(&one, &two)
}
