// The kinds of blocks, and the numbers that stand for them in a file.
ghost use Rattle.std.specs.Prelude.{◌≡◌};
ghost use Rattle.format.specs.Kinds.{NamesKind, kind_number};

/// What a block carries. The kinds are ordered as they stand in a file.
#[derive(Clone, Copy, PartialEq, Eq, PartialOrd, Ord, Debug)]
pub enum BlockKind {
    /// A piece of the header.
    Header,
    /// A piece of the body.
    Body,
    /// The tag: the last block of a file, and the only one of its kind.
    End,
}

/// A number that no kind has: that of a block whose kind is none of the three.
#[derive(Clone, Copy, PartialEq, Eq, Debug)]
pub struct NoKind(pub u8);

impl BlockKind {
    /// The number that stands for the kind in a block, from 1 to 3.
    pub fn number(self) -> u8
        ensures { result ≡ kind_number self }
    {
        match self {
            BlockKind::Header => 1,
            BlockKind::Body => 2,
            BlockKind::End => 3,
        }
    }
}

/// The kind that a number stands for; every number but 1, 2 and 3 is refused with itself.
impl TryFrom<u8> for BlockKind {
    type Error = NoKind;

    ghost try_from_gives = { NamesKind };

    fn try_from(number: u8) -> Result<Self, NoKind> {
        match number {
            1 => Ok(BlockKind::Header),
            2 => Ok(BlockKind::Body),
            3 => Ok(BlockKind::End),
            _ => Err(NoKind(number)),
        }
    }
}
