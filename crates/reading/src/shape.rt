// What a block of good form says of itself.
ghost use Rattle.std.specs.Prelude.{◌≤◌};
ghost use Rattle.format.specs.Layout.{data_limit};

use format::{BlockKind, DATA_BYTES};

/// The kind and the used length of a block: all that the block after it depends on.
#[derive(Clone, Copy)]
pub(crate) struct Shape {
    pub(crate) kind: BlockKind,
    /// How many bytes of data the block carries.
    pub(crate) used: usize,
    ghost short: { used ≤ data_limit },
}

impl Shape {
    ghost use Rattle.std.specs.Prelude.{◌≡◌, nat_eq};
    ghost use Rattle.format.specs.Faults.{is_order_good};
    ghost use Rattle.format.specs.Kinds.{kind_number};
    ghost use Rattle.format.specs.Layout.{end_kind};
    ghost use Rattle.reading.specs.Shapes.{shape_as_predecessor};

    pub(crate) fn is_end(self) -> bool
        ensures { result ≡ nat_eq (kind_number self.kind) end_kind }
    {
        self.kind == BlockKind::End
    }

    /// Whether a block of this kind may come next: nothing stands after the end, no kind after a later one, and only a full block
    /// before one of its own kind.
    pub(crate) fn may_precede(self, kind: BlockKind) -> bool
        ensures { result ≡ is_order_good (shape_as_predecessor self) (kind_number kind) }
    {
        self.kind != BlockKind::End
            && self.kind <= kind
            && (self.kind != kind || DATA_BYTES <= self.used)
    }
}
