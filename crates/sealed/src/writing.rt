// A whole file, written at the front of an output.
//
// All that can refuse the file is looked at first, by lengths alone; then the message is hashed, and the blocks are written last. So a
// refusal finds neither the engine nor the output touched.
ghost use Rattle.std.specs.Prelude.{◌≡◌, length, OnOk};
ghost use Rattle.format.specs.Layout.{sealed_file};
ghost use Rattle.format.specs.Verdict.{Reopens};
ghost use Rattle.sealed.specs.Writing.{answer_for, HashesIfSealed, room_answer, seal_answer, WritesFile};

use crate::blocks::write_parts;
use crate::sealed::Sealed;
use crate::with_engine::{WithEngine, Written};
use engine::Engine;
use format::{BLOCK_BYTES, MOST_BLOCKS, blocks_for};
use message::{Message, Pad, Part};
use refusal::Refusal;
use tag::tag_message;

// How many blocks the file has, where it may be written: the header's limit is looked at first, then the most blocks that a file may
// have, then the room for it.
fn count_blocks(header: usize, body: usize, output: usize) -> Result<u32, Refusal>
    ensures { result ≡ room_answer header body output }
{
    if header as u64 > Part::Header.limit() {
        return Err(Part::Header.too_long());
    }
    let blocks = blocks_for(header, body);
    if blocks > MOST_BLOCKS {
        return Err(Refusal::FileSize);
    }
    if output < BLOCK_BYTES * blocks {
        return Err(Refusal::OutputTooShort);
    }
    Ok(blocks as u32)
}

// Hashes a message, where its file fits an output of this many bytes. A refusal comes before the engine is touched. The limits of a
// message refuse nothing more: a longer header is refused by then, and a file holds less body than the limit.
fn hash_for_file<E: Engine>(
    engine: &mut E,
    pad: Pad,
    message: Message,
    room: usize,
) -> Result<Sealed, Refusal>
    ensures answer { result ≡ answer_for (E.subkey_of engine.old) pad message.entry room }
    ensures engine { HashesIfSealed E.Engine engine.old message.entry engine.new result }
{
    let blocks = count_blocks(message.header.len(), message.body.len(), room)?;
    let digest = tag_message(engine, pad, message)?;
    Ok(Sealed { blocks, digest })
}

/// Seals a message into a file at the front of an output, whose bytes after the file stay.
///
/// It refuses a header over its limit (1), a message whose file would have more than 65,536 blocks (9), and an output that is shorter
/// than the file (15), in this order; neither the engine nor the output is touched then. Else the engine hashes the message from zero,
/// so that its value is the hash. The engine comes back in any case.
pub fn write_file<E: Engine>(engine: E, pad: Pad, message: Message, output: &mut [u8]) -> Written<E>
    ensures answer { result.answer
        ≡ answer_for (E.subkey_of engine) pad message.entry (length output.old) }
    ensures output { WritesFile
        (sealed_file (E.subkey_of engine) pad message.entry.header.now message.entry.body.now)
        output.old output.new result.answer }
    ensures reopens { OnOk result.answer
        (Reopens (E.subkey_of engine) pad message.entry.header.now message.entry.body.now) }
    ensures engine { HashesIfSealed E.Engine engine message.entry result.engine result.answer }
{
    let mut engine = engine;
    let answer = hash_for_file(&mut engine, pad, message, output.len());
    if let Ok(sealed) = answer {
        write_parts(output, message, sealed.digest.tag);
    }
    WithEngine { engine, answer }
}
