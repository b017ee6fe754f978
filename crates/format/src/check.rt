// The check at the end of each block: the bytes before it as a polynomial over the words, evaluated at one point.
//
// Two bytes are a word, a number modulo 2^31 - 1, and the first word has the highest power. Two blocks that differ in one word have
// different checks, since the point is not zero. The check finds bytes that a disk or a line has turned; it is no secret.
ghost use Rattle.std.specs.Prelude.{◌≡◌};
ghost use Rattle.format.specs.Layout.{check_of};

use field::{Element, Word, evaluate};

/// The check of the first 508 bytes of a block: bytes as numbers of two bytes each, high byte first, evaluated at 16,807 modulo
/// 2^31 - 1. An odd last byte counts for nothing.
pub fn block_check(bytes: &[u8]) -> u32
    ensures { result ≡ check_of bytes.now }
{
    let (numbers, _odd) = bytes.as_chunks::<2>();
    evaluate(Word::new(16_807), Word::zero(), numbers).value()
}
