// A file without fault, cut where its parts begin and end.
//
// Header blocks come first, then body blocks, then one end block; so two cuts at the counts of a scan give all three.
ghost use Rattle.std.specs.Prelude.{◌≡◌, IfOk, IfErr};
ghost use Rattle.format.specs.Flaws.{IsScanFault};
ghost use Rattle.format.specs.Verdict.{scan_answer};
ghost use Rattle.reading.specs.Sections.{IsCutOf, lengths_answer};

use crate::faults::is_size_good;
use crate::prefix::Prefix;
use crate::scanning::scan_blocks;
use crate::section::Section;
use format::{BLOCK_BYTES, Lengths};
use refusal::Refusal;

/// The blocks of both parts, and the tag, all borrowed from the file.
#[derive(Drop)]
pub struct Sections<'a> {
    /// The header's blocks.
    pub header: Section<'a>,
    /// The body's blocks.
    pub body: Section<'a>,
    /// The 16 bytes of data of the end block.
    pub tag: &'a [u8],
    /// How many bytes of data the blocks of each part have.
    pub lengths: Lengths,
}

/// All that can be said of a file without its key: where its parts and its tag stand.
///
/// It refuses a file of a wrong size (9), then by its first block with a fault (10 to 13, with the block), and then one whose last
/// block is no end block (14, with the count of blocks). It asks for no memory.
pub fn cut_file(file: &[u8]) -> Result<Sections<'_>, Refusal>
    ensures answer { lengths_answer result ≡ scan_answer file.now }
    ensures refused { IfErr result (IsScanFault file.now) }
    ensures sections { IfOk result (IsCutOf file.now) }
{
    if !is_size_good(file) {
        return Err(Refusal::FileSize);
    }
    let (blocks, _rest) = file.as_chunks::<BLOCK_BYTES>();
    let scan = scan_blocks(blocks)?;
    if !scan.has_end() {
        return Err(Refusal::NoEnd {
            blocks: blocks.len() as u32,
        });
    }
    let (header, after) = blocks.split_at(scan.header.blocks);
    let (body, end) = after.split_at(scan.body.blocks);
    Ok(Sections {
        header: Section { blocks: header },
        body: Section { blocks: body },
        tag: Prefix::read(&end[0]).data(),
        lengths: Lengths {
            header: scan.header.bytes,
            body: scan.body.bytes,
        },
    })
}
