// The check of a tag that came with a message.
//
// A tag may be sent cut short, so what is given is compared with as many first bytes of the message's own tag (NIST SP 800-38D,
// section 7.2). Its length is looked at before the message is hashed.
ghost use Rattle.std.specs.Prelude.{◌≡◌};
ghost use Rattle.tag.specs.Tags.{ChecksTag};

use crate::compare::begins_with;
use crate::tagging::tag_message;
use engine::Engine;
use message::{Message, Pad};
use refusal::Refusal;

// The fewest bytes of a tag that are compared: NIST SP 800-38D, section 5.2.1.2, allows no tag under 32 bits.
const SHORTEST: usize = 4;

// The most bytes, which are all of a tag.
const LONGEST: usize = 16;

/// Compares a given tag of 4 to 16 bytes with as many first bytes of the message's tag, under the engine's subkey and a pad.
///
/// Refuses a given tag of another length (7), then a header over its limit (1) and a body over its limit (2), all before the engine
/// is touched, and at last a tag that differs (8). The comparison looks at every given byte, wherever the first difference stands.
pub fn check_tag<E: Engine>(
    engine: &mut E,
    pad: Pad,
    message: Message,
    given: &[u8],
) -> Result<(), Refusal>
    ensures { ChecksTag E.Engine engine.old pad
        message.entry.header.now message.entry.body.now given.now engine.new result }
{
    if given.len() < SHORTEST || given.len() > LONGEST {
        return Err(Refusal::TagLength);
    }
    let digest = tag_message(engine, pad, message)?;
    if !begins_with(digest.tag, given) {
        return Err(Refusal::TagDiffers);
    }
    Ok(())
}
