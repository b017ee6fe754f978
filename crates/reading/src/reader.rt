// A file read record by record.
//
// The reader stands between two blocks. It keeps what the block before it says, all that the next block's order depends on; the ghost
// fields say that what it keeps is right, and that a scan of the file comes to its place. `next` moves only where a record comes out.
ghost use Rattle.std.specs.Prelude.{◌≡◌, ◌*◌, ◌≤◌, length};
ghost use Rattle.format.specs.Layout.{block_length};
ghost use Rattle.format.specs.Faults.{predecessor_at};
ghost use Rattle.reading.specs.Scanning.{Reached};
ghost use Rattle.reading.specs.Shapes.{predecessor_of};

use crate::faults::{check_block, is_size_good};
use crate::record::{Item, parse};
use crate::shape::Shape;
use format::BLOCK_BYTES;
use refusal::Refusal;

/// A window on a file, moved from block to block.
///
/// It is no `Iterator`: a refusal comes again at every later call, so that a loop over it would not end.
#[derive(Drop)]
pub struct Reader<'a> {
    pub(crate) file: &'a [u8],
    // How many blocks were read.
    pub(crate) place: usize,
    // The last of them.
    pub(crate) last: Option<Shape>,
    ghost within: { block_length * place ≤ length file.now },
    ghost kind: { (predecessor_of last).kind ≡ (predecessor_at file.now place).kind },
    ghost used: { (predecessor_of last).used ≡ (predecessor_at file.now place).used },
    ghost reached: { Reached file.now place },
}

impl<'a> Reader<'a> {
    ghost use Rattle.reading.specs.Readers.{AddsToParts, AnswersAsScan, ReadsBlock, blocks_read, lent_file};

    /// A reader before the first block of a file. Any bytes may be lent; what is wrong with them, `next` says.
    pub fn new(file: &'a [u8]) -> Reader<'a>
        ensures lent { lent_file result ≡ file.now }
        ensures start { blocks_read result ≡ 0 }
    {
        Reader {
            file,
            place: 0,
            last: None,
        }
    }

    /// The next record, or none where the last was the end. It refuses a file of a wrong size (9), a block with a fault (10 to 13,
    /// with its place) and a file that is over without an end block (14, with the count of blocks); each is what `cut_file` refuses the
    /// whole file for, and there is no record only where `cut_file` accepts. A refusal leaves the reader where it is.
    #[tactic(auto, using(crate::proofs::Scans::all_blocks_read, crate::proofs::Ends::accepted, crate::proofs::Ends::lacking))]
    pub fn next(&mut self) -> Result<Option<Item<'a>>, Refusal>
        ensures file { lent_file self.new ≡ lent_file self.old }
        ensures read { ReadsBlock self.old self.new result }
        ensures joins { AddsToParts self.old result }
        ensures scan { AnswersAsScan self.old result }
    {
        let file = self.file;
        let place = self.place;
        if !is_size_good(file) {
            return Err(Refusal::FileSize);
        }
        let left = &file[BLOCK_BYTES * place..];
        let Some(block) = left.first_chunk::<BLOCK_BYTES>() else {
            if self.last.is_some_and(Shape::is_end) {
                return Ok(None);
            }
            return Err(Refusal::NoEnd {
                blocks: place as u32,
            });
        };
        let shape = check_block(block, place as u32, self.last)?;
        let (record, rest) = parse(left, shape);
        self.place = place + 1;
        self.last = Some(shape);
        Ok(Some(Item { record, rest }))
    }
}
