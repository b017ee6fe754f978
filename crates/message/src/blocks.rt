// Blocks that are made from bytes and taken into a hash.
ghost use Rattle.std.specs.Prelude.{◌≡◌, length, take};
ghost use Rattle.field.specs.Bytes.{block_of};
ghost use Rattle.field.specs.Evaluation.{horner};
ghost use Rattle.field.specs.Kinds.{block_ring};
ghost use Rattle.message.specs.Blocks.{block_of_counts, blocks, blocks_taken, filled_piece};
ghost use Rattle.message.specs.Standard.{block_string, string};

use field::{Block, evaluate};

// The first 16 bytes; a shorter piece is filled with zeros.
fn fill(piece: &[u8]) -> [u8; 16]
    ensures { result ≡ filled_piece (take 16 piece.now) }
{
    if let Some(full) = piece.first_chunk::<16>() {
        return *full;
    }
    let mut bytes = [0u8; 16];
    bytes[..piece.len()].copy_from_slice(piece);
    bytes
}

/// The block of the first 16 bytes, the first byte highest; a shorter piece is filled with zeros. As a string of bits it is those
/// bytes, one after the other.
pub fn block_of(piece: &[u8]) -> Block
    ensures value { result ≡ block_of (filled_piece (take 16 piece.now)) }
    ensures standard { block_string result ≡ string (filled_piece (take 16 piece.now)) }
{
    Block::from_bytes(fill(piece))
}

// The value after the blocks of one part, each taken in by (value + block) * subkey.
pub(crate) fn absorb_part(subkey: Block, start: Block, part: &[u8]) -> Block
    ensures { result ≡ horner block_ring subkey start (blocks part.now) }
{
    let (full, rest) = part.as_chunks::<16>();
    let value = evaluate(subkey, start, full);
    if rest.is_empty() {
        return value;
    }
    (value + block_of(rest)) * subkey
}

// How many blocks of 16 bytes a part takes.
pub(crate) fn blocks_in(part: &[u8]) -> usize
    ensures { result ≡ blocks_taken (length part.now) }
{
    part.len().div_ceil(16)
}

/// The length block: both lengths, handed in bytes, are written in bits, eight bytes each, high byte first, the header's first
/// (NIST SP 800-38D, section 7.1, step 5).
pub fn block_of_byte_counts(header: u64, body: u64) -> Block
    ensures { result ≡ block_of_counts header body }
{
    Block::from_halves(header.wrapping_mul(8), body.wrapping_mul(8))
}
