// A whole message, hashed by an engine.
//
// The block list is the header's blocks, the body's and the length block; the engine absorbs them one by one, from zero.
ghost use Rattle.std.specs.Prelude.{◌≡◌};
ghost use Rattle.engine.specs.Rows.{HashesBlocks};
ghost use Rattle.message.specs.Blocks.{blocks};
ghost use Rattle.message.specs.Hash.{hash_of};
ghost use Rattle.tag.specs.Tags.{HashesMessage};

use engine::Engine;
use field::{Block, Element};
use message::{Message, block_of, block_of_byte_counts};

// The blocks of one part, the last of them filled with zeros.
fn absorb_part<E: Engine>(engine: &mut E, part: &[u8])
    ensures { HashesBlocks E.Engine engine.old (blocks part.now) engine.new }
{
    for piece in part.chunks(16) {
        engine.absorb(block_of(piece));
    }
}

// The hash of a message, whatever the engine hashed before. The lengths are not looked at here.
pub(crate) fn hash_message<E: Engine>(engine: &mut E, message: Message) -> Block
    ensures answer { result ≡ hash_of (E.subkey_of engine.old)
        message.entry.header.now message.entry.body.now }
    ensures engine { HashesMessage E.Engine engine.old
        message.entry.header.now message.entry.body.now engine.new }
{
    engine.resume(Block::zero());
    absorb_part(engine, message.header);
    absorb_part(engine, message.body);
    engine.absorb(block_of_byte_counts(message.header.len() as u64, message.body.len() as u64));
    engine.value()
}
