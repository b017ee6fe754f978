// The first six bytes of a block, and what follows them.
use format::BLOCK_BYTES;

/// The six bytes by what they say, as they stand there: the kind may be any byte.
#[derive(Clone, Copy)]
pub(crate) struct Prefix<'a> {
    pub(crate) number: u32,
    pub(crate) kind: u8,
    pub(crate) reserve: u8,
    /// How many bytes of data the block says it has.
    pub(crate) used: usize,
    /// The block from its seventh byte on: the data, zeros past them, and the check.
    pub(crate) rest: &'a [u8],
}

impl<'a> Prefix<'a> {
    ghost use Rattle.std.specs.Prelude.{◌≡◌, length, take};
    ghost use Rattle.reading.specs.Blocks.{IsPrefixOf};

    pub(crate) fn read(block: &'a [u8; BLOCK_BYTES]) -> Prefix<'a>
        ensures says { IsPrefixOf block.now result }
        ensures whole { length result.rest.now ≡ 506 }
    {
        let [n1, n0, kind, reserve, u1, u0, rest @ ..] = &block[..] else {
            unreachable!()
        };
        Prefix {
            number: u32::from(u16::from_be_bytes([*n1, *n0])),
            kind: *kind,
            reserve: *reserve,
            used: usize::from(u16::from_be_bytes([*u1, *u0])),
            rest,
        }
    }

    /// The data; where the used length goes past the block, all that follows.
    pub(crate) fn data(self) -> &'a [u8]
        ensures { result.now ≡ take self.entry.used self.entry.rest.now }
    {
        &self.rest[..self.used.min(self.rest.len())]
    }
}
