// The blocks of one part.
use crate::prefix::Prefix;
use format::BLOCK_BYTES;

/// The blocks of one part of a file, one after another: an iterator over the data of each, which joined are the part.
#[derive(Drop)]
pub struct Section<'a> {
    // The blocks whose data are still to come.
    pub(crate) blocks: &'a [[u8; BLOCK_BYTES]],
}

impl<'a> Iterator for Section<'a> {
    ghost use Rattle.std.specs.Iterator.{YieldsFirstRef, item_count};
    ghost use Rattle.reading.specs.Sections.{section_pieces};

    type Item = &'a [u8];

    ghost next_gives = { YieldsFirstRef section_pieces };

    ghost remaining = { item_count section_pieces };

    fn next(&mut self) -> Option<&'a [u8]> {
        let (block, later) = self.blocks.split_first()?;
        self.blocks = later;
        Some(Prefix::read(block).data())
    }
}

impl<'a> Section<'a> {
    ghost use Rattle.std.specs.Prelude.{◌≤◌, length};
    ghost use Rattle.reading.specs.Sections.{OverwritesFront, section_bytes};

    /// Writes the part to the front of an output that has room for it, and leaves what stands after.
    pub(crate) fn copy_to(self, output: &mut [u8])
        requires room { length (section_bytes self) ≤ length output.old }
        ensures { OverwritesFront (section_bytes self.entry) output.old output.new }
    {
        let mut at = 0;
        for piece in self {
            let end = at + piece.len();
            output[at..end].copy_from_slice(piece);
            at = end;
        }
    }
}
