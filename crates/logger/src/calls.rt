// The calls of a C program. C has no blocks, messages or results: a block crosses as two numbers, each part of a message by itself,
// and an answer as one number.
ghost use Rattle.logger.specs.Calls.{AnswersCheck, AnswersTag, TriesPolynomial};

use crate::output::write_digest;
use crate::scratch::{bits_in, try_in};
use crate::status::status;
use engine::Step;
use field::{Block, Element};
use message::{Message, Pad};
use tag::check_tag;

/// Writes the hash and the tag of a header and a body to the first 32 bytes of the output, the hash first, 16 bytes each.
///
/// Subkey and pad are two numbers each: the first eight bytes of the block and then the last eight, the first byte highest.
///
/// Returns 0; or, with the output as it was, -1 where the header has more than 65,535 bytes, else -2 where the body has more than
/// 68,719,476,704, else -15 where the output has fewer than 32.
pub fn sonde_tag(
    subkey_high: u64,
    subkey_low: u64,
    pad_high: u64,
    pad_low: u64,
    header: &[u8],
    body: &[u8],
    output: &mut [u8],
) -> i32
    ensures { AnswersTag subkey_high subkey_low pad_high pad_low
        header.now body.now output.old result output.new }
{
    let subkey = Block::from_halves(subkey_high, subkey_low);
    let pad = Pad(Block::from_halves(pad_high, pad_low));
    status(write_digest(subkey, pad, Message { header, body }, output).map(|()| 0))
}

/// Compares a given tag, of 4 to 16 bytes, with as many first bytes of the tag of the header and the body. Subkey and pad are
/// handed over as to [`sonde_tag`].
///
/// Returns 0 where they are equal; or -7 where the given tag has another length, else -1 or -2 where header or body is too long, as
/// above, else -8 where the tag differs. The comparison looks at all given bytes, whichever of them differ.
pub fn sonde_check_tag(
    subkey_high: u64,
    subkey_low: u64,
    pad_high: u64,
    pad_low: u64,
    header: &[u8],
    body: &[u8],
    tag: &[u8],
) -> i32
    ensures { AnswersCheck subkey_high subkey_low pad_high pad_low
        header.now body.now tag.now result }
{
    let mut engine = Step::new(Block::from_halves(subkey_high, subkey_low));
    let pad = Pad(Block::from_halves(pad_high, pad_low));
    let message = Message { header, body };
    status(check_tag(&mut engine, pad, message, tag).map(|()| 0))
}

/// Tries the polynomial t^128 + c_127 t^127 + .. + c_0 against the subkey. The proposal's two numbers hold the coefficients from
/// the highest bit down: c_0 is the highest bit of the first number, and c_127 the lowest of the second.
///
/// Returns 0 to 128, how many of the c_j are one, where the polynomial annihilates the subkey; and -3 where it does not. The
/// scratch, in which powers of the subkey stand on the way, is zero again before it returns.
pub fn sonde_try_polynomial(
    subkey_high: u64,
    subkey_low: u64,
    proposal_high: u64,
    proposal_low: u64,
) -> i32
    ensures { TriesPolynomial subkey_high subkey_low proposal_high proposal_low result }
{
    let subkey = Block::from_halves(subkey_high, subkey_low);
    let proposal = Block::from_halves(proposal_high, proposal_low);
    let mut scratch = [Block::zero(); 128];
    let answer = try_in(subkey, proposal, &mut scratch);
    // The scratch is zero by now, and this return is never taken: a compiler that sees the scratch read afterwards keeps its wipe.
    if bits_in(&scratch) != 0 {
        return i32::MIN;
    }
    status(answer)
}
