// How a sealed file is laid out: the numbers of docs/FILE.md.
ghost use Rattle.std.specs.Prelude.{◌≡◌};
ghost use Rattle.format.specs.Layout.{blocks_for};

/// The bytes of a block. Its first six are the number, the kind, the reserve and the used length.
pub const BLOCK_BYTES: usize = 512;

/// Where the data of a block begin, in bytes from its first.
pub const DATA_AT: usize = 6;

/// Where the check of a block begins, in bytes from its first. The check is made of all bytes before it.
pub const CHECK_AT: usize = 508;

/// The most data of one block, in bytes: what lies between `DATA_AT` and `CHECK_AT`.
pub const DATA_BYTES: usize = 502;

/// The most blocks of a file: as many as there are numbers of two bytes.
pub const MOST_BLOCKS: usize = 65_536;

/// The longest file, in bytes: `MOST_BLOCKS` blocks.
pub const LARGEST_FILE: usize = 33_554_432;

/// How many blocks the file of a header and a body has, whose lengths are given in bytes: each part begins a block of its own,
/// an empty part has none, and the end block comes last.
pub fn blocks_for(header: usize, body: usize) -> usize
    ensures { result ≡ blocks_for header body }
{
    header.div_ceil(DATA_BYTES) + body.div_ceil(DATA_BYTES) + 1
}
