// What is known of a file after some of its blocks.
use crate::shape::Shape;
use crate::tally::Tally;
use format::BlockKind;

/// The last block, and what was gone through of both parts. The end block belongs to neither.
#[derive(Clone, Copy)]
pub(crate) struct Scan {
    pub(crate) last: Option<Shape>,
    pub(crate) header: Tally,
    pub(crate) body: Tally,
}

impl Scan {
    ghost use Rattle.std.specs.Prelude.{◌≡◌, nat_eq};
    ghost use Rattle.format.specs.Layout.{end_kind};
    ghost use Rattle.reading.specs.Scanning.{IsWithinFile, scan_after};
    ghost use Rattle.reading.specs.Shapes.{predecessor_of};

    /// Goes past one more block.
    pub(crate) fn add(&mut self, block: Shape)
        requires header { IsWithinFile self.old.header }
        requires body { IsWithinFile self.old.body }
        ensures { self.new ≡ scan_after self.old block }
    {
        self.last = Some(block);
        match block.kind {
            BlockKind::Header => self.header.add(block.used),
            BlockKind::Body => self.body.add(block.used),
            BlockKind::End => {}
        }
    }

    /// Whether the last block is an end block.
    pub(crate) fn has_end(self) -> bool
        ensures { result ≡ nat_eq (predecessor_of self.last).kind end_kind }
    {
        self.last.is_some_and(Shape::is_end)
    }
}
