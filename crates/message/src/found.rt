// A block of a message, as it is found by its number.
ghost use Rattle.std.specs.Prelude.{◌≡◌, ◌*◌, ◌<◌, length, take, drop};
ghost use Rattle.message.specs.Blocks.{blocks_taken};

use crate::part::Part;

/// A block of a message: where in which part it stands, and its bytes.
#[derive(Clone, Copy)]
pub struct Found<'a> {
    /// 16 bytes, or at the end of a part those that are left.
    pub bytes: &'a [u8],
    pub part: Part,
    /// Where the block begins in its part, in bytes.
    pub offset: usize,
}

// Block k of one part: 16 bytes, or those that are left.
pub(crate) fn block_at<'a>(part: Part, bytes: &'a [u8], k: usize) -> Found<'a>
    requires { k < blocks_taken (length bytes.now) }
    ensures part { result.part ≡ part }
    ensures offset { result.offset ≡ 16 * k }
    ensures bytes { result.bytes.now ≡ take 16 (drop (16 * k) bytes.now) }
{
    let offset = 16 * k;
    let rest = &bytes[offset..];
    Found {
        bytes: &rest[..rest.len().min(16)],
        part,
        offset,
    }
}
