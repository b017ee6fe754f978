// What a reader hands out, and how it is read of a block whose form is known.
ghost use Rattle.std.specs.Prelude.{◌≡◌, ◌≤◌, length, take};
ghost use Rattle.format.specs.Faults.{as_predecessor};
ghost use Rattle.format.specs.Layout.{block_length};
ghost use Rattle.format.specs.Kinds.{kind_number};
ghost use Rattle.reading.specs.Records.{ParsesRecord, record_data, record_kind};
ghost use Rattle.reading.specs.Shapes.{shape_as_predecessor};

use crate::prefix::Prefix;
use crate::shape::Shape;
use format::{BLOCK_BYTES, BlockKind};

/// What one block carries, borrowed from the file.
#[derive(Clone, Copy, PartialEq, Eq, Debug)]
pub enum Record<'a> {
    /// A piece of the header: 1 to 502 bytes.
    Header(&'a [u8]),
    /// A piece of the body: 1 to 502 bytes.
    Body(&'a [u8]),
    /// The data of the end block: the 16 bytes of the tag.
    End(&'a [u8]),
}

/// A record, and what is left of the file.
#[derive(Clone, Copy, PartialEq, Eq, Debug)]
pub struct Item<'a> {
    /// What the block that was read carries.
    pub record: Record<'a>,
    /// The file from the next block on.
    pub rest: &'a [u8],
}

// The record of a block of this kind, with its data.
fn record_of<'a>(kind: BlockKind, data: &'a [u8]) -> Record<'a>
    ensures kind { record_kind result ≡ kind_number kind }
    ensures bytes { record_data result ≡ «data».now }
{
    match kind {
        BlockKind::Header => Record::Header(data),
        BlockKind::Body => Record::Body(data),
        BlockKind::End => Record::End(data),
    }
}

/// The record of the block that stands first, which has this shape, and the bytes after the block.
pub(crate) fn parse<'a>(left: &'a [u8], shape: Shape) -> (Record<'a>, &'a [u8])
    requires long { block_length ≤ length left.now }
    requires shape { shape_as_predecessor shape ≡ as_predecessor (take block_length left.now) }
    ensures { ParsesRecord left.now result.0 result.1.now }
{
    let Some((block, rest)) = left.split_first_chunk::<BLOCK_BYTES>() else {
        unreachable!()
    };
    (record_of(shape.kind, Prefix::read(block).data()), rest)
}
