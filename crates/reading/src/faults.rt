// What can be wrong with a file's size, and with a block.
//
// A block is looked at in one order: its check, its number, its form, and last how it follows the block before it. So what is read
// of a block whose check is wrong is not believed, and a fault has one number (docs/REFUSALS.md).
ghost use Rattle.std.specs.Prelude.{◌≡◌, ℕ, List, length};
ghost use Rattle.format.specs.Faults.{is_all_zero, is_size_good, is_used_fit, stored_check};
ghost use Rattle.format.specs.Kinds.{kind_number};
ghost use Rattle.reading.specs.Blocks.{ChecksBlock, IsPrefixOf, MatchesForm};
ghost use Rattle.reading.specs.Shapes.{predecessor_of};

use crate::prefix::Prefix;
use crate::shape::Shape;
use format::{BLOCK_BYTES, BlockKind, CHECK_AT, DATA_BYTES, LARGEST_FILE, block_check};
use refusal::Refusal;

/// Whether a file has whole blocks, from 1 to 65,536.
pub(crate) fn is_size_good(file: &[u8]) -> bool
    ensures { result ≡ is_size_good file.now }
{
    file.len() % BLOCK_BYTES == 0 && BLOCK_BYTES <= file.len() && file.len() <= LARGEST_FILE
}

fn is_all_zero(bytes: &[u8]) -> bool
    ensures { result ≡ is_all_zero bytes.now }
{
    bytes.iter().all(|byte| *byte == 0)
}

// The end block has 16 bytes of data, every other 1 to 502.
fn is_used_fit(kind: BlockKind, used: usize) -> bool
    ensures { result ≡ is_used_fit (kind_number kind) used }
{
    match kind {
        BlockKind::Header | BlockKind::Body => 1 <= used && used <= DATA_BYTES,
        BlockKind::End => used == 16,
    }
}

// The shape of a block of good form, and none of another.
fn shape_of(prefix: Prefix) -> Option<Shape>
    requires whole { length prefix.rest.now ≡ 506 }
    ensures { (block : List ℕ) → IsPrefixOf block prefix.entry → MatchesForm block result }
{
    let kind = BlockKind::try_from(prefix.kind).ok()?;
    let used = prefix.used;
    if prefix.reserve != 0
        || !is_used_fit(kind, used)
        || !is_all_zero(&prefix.rest[used..DATA_BYTES])
    {
        return None;
    }
    Some(Shape { kind, used })
}

// The check that stands in the block's last four bytes, high byte first.
fn stored_check(block: &[u8; BLOCK_BYTES]) -> u32
    ensures { result ≡ stored_check block.now }
{
    let [.., c3, c2, c1, c0] = block;
    u32::from_be_bytes([*c3, *c2, *c1, *c0])
}

/// The shape of the block at a place, or its first fault: 10 (check), 11 (number), 12 (form) or 13 (order), each with the place.
pub(crate) fn check_block(
    block: &[u8; BLOCK_BYTES],
    place: u32,
    before: Option<Shape>,
) -> Result<Shape, Refusal>
    ensures { ChecksBlock place (predecessor_of before) block.now result }
{
    let prefix = Prefix::read(block);
    if stored_check(block) != block_check(&block[..CHECK_AT]) {
        return Err(Refusal::WrongCheck { block: place });
    }
    if prefix.number != place {
        return Err(Refusal::WrongNumber { block: place });
    }
    let Some(shape) = shape_of(prefix) else {
        return Err(Refusal::WrongForm { block: place });
    };
    if !before.is_none_or(|last| last.may_precede(shape.kind)) {
        return Err(Refusal::WrongOrder { block: place });
    }
    Ok(shape)
}
