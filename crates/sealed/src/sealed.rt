// What is told of a file that was written.
use message::Digest;

/// A file that was written.
#[derive(Clone, Copy, PartialEq, Eq, Debug)]
pub struct Sealed {
    /// How many blocks of 512 bytes it has, the end block too.
    pub blocks: u32,
    /// Hash and tag of the message in it.
    pub digest: Digest,
}
