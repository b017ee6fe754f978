// A message and its tag, written block after block at the front of an output.
//
// Each part is cut into pieces of 502 bytes, and each piece fills a block of its own; the end block holds the tag. A block is written
// from the front: six bytes that say what it is, its data, zeros up to the check, and the check of all that stands before it.
ghost use Rattle.std.specs.Prelude.{◌≡◌, ◌+◌, ◌*◌, ◌/◌, ◌<◌, ◌≤◌, ◌++◌, map, length, take, drop};
ghost use Rattle.format.specs.Kinds.{kind_number};
ghost use Rattle.format.specs.Layout.{block_bytes, content, data_pieces, numbered_blocks};
ghost use Rattle.sealed.specs.Writing.{file_of, HasRoom, StandsInFront};

use format::{BLOCK_BYTES, BlockKind, CHECK_AT, DATA_AT, DATA_BYTES, block_check};
use message::{Message, Tag};

// Writes one block over 512 bytes, whatever stood in them.
fn fill_block(block: &mut [u8], number: u32, kind: BlockKind, data: &[u8])
    requires whole { length block.old ≡ 512 }
    requires few { number < 65536 }
    requires fits { length «data».now ≤ 502 }
    ensures { block.new ≡ block_bytes number (content (kind_number kind) «data».now) }
{
    let [n1, n0] = (number as u16).to_be_bytes();
    let [u1, u0] = (data.len() as u16).to_be_bytes();
    let end = DATA_AT + data.len();
    block[0..DATA_AT].copy_from_slice(&[n1, n0, kind.number(), 0, u1, u0]);
    block[DATA_AT..end].copy_from_slice(data);
    block[end..CHECK_AT].fill(0);
    let check = block_check(&block[0..CHECK_AT]).to_be_bytes();
    block[CHECK_AT..BLOCK_BYTES].copy_from_slice(&check);
}

// A block at the place of its number in the output. What stands before it and after it stays.
fn write_block(output: &mut [u8], number: u32, kind: BlockKind, data: &[u8])
    requires room { 512 * (number + 1) ≤ length output.old }
    requires few { number < 65536 }
    requires fits { length «data».now ≤ 502 }
    ensures front { take (512 * (number + 1)) output.new
        ≡ take (512 * number) output.old
        ++ block_bytes number (content (kind_number kind) «data».now) }
    ensures back { drop (512 * (number + 1)) output.new ≡ drop (512 * (number + 1)) output.old }
{
    let start = BLOCK_BYTES * number as usize;
    fill_block(&mut output[start..start + BLOCK_BYTES], number, kind, data);
}

// The blocks of a part, one for each piece, from a number on; the answer is the next number.
fn write_blocks(output: &mut [u8], first: u32, kind: BlockKind, part: &[u8]) -> u32
    requires room { 512 * (first + (length part.now + 501) / 502) ≤ length output.old }
    requires few { first + (length part.now + 501) / 502 ≤ 65536 }
    ensures next { result ≡ first + (length part.now + 501) / 502 }
    ensures front { take (512 * result) output.new
        ≡ take (512 * first) output.old
        ++ numbered_blocks first (map (content (kind_number kind)) (data_pieces part.now)) }
    ensures back { drop (512 * result) output.new ≡ drop (512 * result) output.old }
{
    for (k, piece) in part.chunks(DATA_BYTES).enumerate() {
        write_block(output, first + k as u32, kind, piece);
    }
    first + part.len().div_ceil(DATA_BYTES) as u32
}

// The file of a message and its tag, at the front of the output: header blocks, body blocks and the end block.
pub(crate) fn write_parts(output: &mut [u8], message: Message, tag: Tag)
    requires { HasRoom message (length output.old) }
    ensures { StandsInFront (file_of message.entry tag) output.old output.new }
{
    let next = write_blocks(output, 0, BlockKind::Header, message.header);
    let next = write_blocks(output, next, BlockKind::Body, message.body);
    write_block(output, next, BlockKind::End, &tag.to_bytes());
}
