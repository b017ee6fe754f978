// The tag of a whole message.
//
// Engine, pad and message stand apart: an engine holds the subkey alone, so that one engine serves every message under its key, and
// a pad serves one message.
ghost use Rattle.tag.specs.Tags.{TagsMessage, TagsWithinLimits};

use crate::hash::hash_message;
use engine::Engine;
use message::{CheckedMessage, Digest, Message, Pad};
use refusal::Refusal;

/// Hash and tag of a message whose lengths were looked at, under the engine's subkey and a pad. Nothing is refused.
///
/// The engine begins at zero, whatever it hashed before, and its value afterwards is the hash.
pub fn tag_checked<E: Engine>(engine: &mut E, pad: Pad, message: CheckedMessage) -> Digest
    ensures { TagsMessage E.Engine engine.old pad
        message.entry.header.now message.entry.body.now engine.new result }
{
    let hash = hash_message(engine, message.message());
    Digest::new(hash, pad)
}

/// Hash and tag of a header and a body under the engine's subkey and a pad (NIST SP 800-38D, section 7.1, steps 4 to 6).
///
/// A header over its limit is refused (1), and then a body over its limit (2), both before the engine is touched. Whoever has
/// looked at the lengths calls [`tag_checked`] at once.
pub fn tag_message<E: Engine>(engine: &mut E, pad: Pad, message: Message) -> Result<Digest, Refusal>
    ensures { TagsWithinLimits E.Engine engine.old pad
        message.entry.header.now message.entry.body.now engine.new result }
{
    let message = message.check()?;
    Ok(tag_checked(engine, pad, message))
}
