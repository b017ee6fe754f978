// A file gone through block by block.
//
// Kinds do not fall and one end block stands last, so two counts of blocks say where both parts begin and end: the scan keeps no
// list of blocks and asks for no memory.
ghost use Rattle.std.specs.Prelude.{◌≤◌, length};
ghost use Rattle.format.specs.Layout.{most_blocks};
ghost use Rattle.reading.specs.Scanning.{ScansBlocks};

use crate::faults::check_block;
use crate::scan::Scan;
use crate::tally::Tally;
use format::BLOCK_BYTES;
use refusal::Refusal;

/// What all blocks say, or the first fault of the first block that has one.
pub(crate) fn scan_blocks(blocks: &[[u8; BLOCK_BYTES]]) -> Result<Scan, Refusal>
    requires { length blocks.now ≤ most_blocks }
    ensures { ScansBlocks blocks.now result }
{
    let none = Tally {
        blocks: 0,
        bytes: 0,
    };
    let start = Scan {
        last: None,
        header: none,
        body: none,
    };
    blocks
        .iter()
        .enumerate()
        .try_fold(start, |mut scan, (k, block)| {
            let shape = check_block(block, k as u32, scan.last)?;
            scan.add(shape);
            Ok(scan)
        })
}
