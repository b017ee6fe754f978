// The body state of a job, in which it ends.
ghost use Rattle.std.specs.Prelude.{◌≡◌, ◌≤◌};
ghost use Rattle.message.specs.Limits.{header_limit};
ghost use Rattle.message.specs.declared.part.Part.TheVariants.{Body};

use crate::block_buffer::BlockBuffer;
use crate::call::Answer;
use crate::closed::Closed;
use engine::Engine;
use message::{Digest, Pad, block_of_byte_counts};

/// A job in its body state, which the close ends.
#[derive(Drop)]
pub struct BodyJob<E> {
    pub(crate) buffer: BlockBuffer<E>,
    // The header's length in bytes, for the length block.
    pub(crate) header: u64,
    ghost taking: { buffer.part ≡ Body },
    ghost short: { header ≤ header_limit },
}

impl<E: Engine> BodyJob<E> {
    ghost use Rattle.job.specs.Jobs.{BodyFollows, ClosesBody, ClosesByStandard, FeedsBody, FollowsClose, SwitchesBody};
    ghost use Rattle.job.specs.declared.call.Call.TheVariants.{Feed, Switch};

    /// Takes the whole piece, or none of it: it is refused where the body would pass its limit of 68,719,476,704 bytes (2), and
    /// nothing changes then.
    pub fn feed(&mut self, piece: &[u8]) -> Answer
        ensures holds { BodyFollows E.Engine self.old (Feed piece.entry) result self.new }
        ensures whole { FeedsBody E.Engine self.old piece.now result self.new }
    {
        self.buffer.feed(piece)
    }

    /// Asks the engine to switch, which it refuses where it is not ready (6). A half-filled block stays as it is.
    pub fn switch(&mut self) -> Answer
        ensures holds { BodyFollows E.Engine self.old Switch result self.new }
        ensures whole { SwitchesBody E.Engine self.old result self.new }
    {
        self.buffer.switch()
    }

    /// Ends the job: the body's last block is filled with zeros, the length block ends the hash, and the pad makes it the tag
    /// (NIST SP 800-38D, section 7.1, steps 4 to 6).
    pub fn close(self, pad: Pad) -> Closed<E>
        ensures closes { FollowsClose E.Engine self pad result }
        ensures standard { ClosesByStandard E.Engine self pad result }
        ensures whole { ClosesBody E.Engine self pad result }
    {
        let BodyJob { mut buffer, header } = self;
        buffer.flush();
        let BlockBuffer {
            mut engine,
            count,
            ..
        } = buffer;
        engine.absorb(block_of_byte_counts(header, count));
        let hash = engine.value();
        Closed {
            engine,
            digest: Digest::new(hash, pad),
        }
    }
}
