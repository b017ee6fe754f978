// Hash and tag of a message, written to an output.
ghost use Rattle.std.specs.Prelude.{◌≡◌};
ghost use Rattle.logger.specs.Calls.{output_after, tag_call_answer};

use engine::Step;
use field::Block;
use message::{Message, Pad};
use refusal::Refusal;
use tag::tag_checked;

// Looks at both lengths before the output's, and writes only when nothing can be refused any more.
pub(crate) fn write_digest(
    subkey: Block,
    pad: Pad,
    message: Message,
    output: &mut [u8],
) -> Result<(), Refusal>
    ensures answer { result ≡ tag_call_answer
        message.entry.header.now message.entry.body.now output.old }
    ensures output { output.new ≡ output_after subkey pad
        message.entry.header.now message.entry.body.now output.old }
{
    let message = message.check()?;
    if output.len() < 32 {
        return Err(Refusal::OutputTooShort);
    }
    let mut engine = Step::new(subkey);
    let digest = tag_checked(&mut engine, pad, message);
    output[..16].copy_from_slice(&digest.hash.to_bytes());
    output[16..32].copy_from_slice(&digest.tag.to_bytes());
    Ok(())
}
