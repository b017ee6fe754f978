// The header state of a job, in which it begins.
ghost use Rattle.std.specs.Prelude.{◌≡◌};
ghost use Rattle.message.specs.declared.part.Part.TheVariants.{Header};

use crate::block_buffer::BlockBuffer;
use crate::body_job::BodyJob;
use crate::call::Answer;
use arrayvec::ArrayVec;
use engine::Engine;
use field::{Block, Element};
use message::Part;

/// A job in its header state, which a turn ends.
#[derive(Drop)]
pub struct HeaderJob<E> {
    pub(crate) buffer: BlockBuffer<E>,
    ghost taking: { buffer.part ≡ Header },
}

impl<E: Engine> HeaderJob<E> {
    ghost use Rattle.std.specs.Prelude.{[]};
    ghost use Rattle.job.specs.Jobs.{FeedsHeader, FollowsTurn, HeaderFollows, HeaderHolds, Starts, SwitchesHeader, Turns};
    ghost use Rattle.job.specs.declared.call.Call.TheVariants.{Feed, Switch};

    /// A job whose header has taken nothing. The engine goes on from zero, whatever it hashed before.
    pub fn start(mut engine: E) -> HeaderJob<E>
        ensures holds { HeaderHolds E.Engine (E.subkey_of engine) (E.ready_of engine) result [] }
        ensures whole { Starts E.Engine engine result }
    {
        engine.resume(Block::zero());
        HeaderJob {
            buffer: BlockBuffer {
                engine,
                part: Part::Header,
                pending: ArrayVec::new(),
                count: 0,
            },
        }
    }

    /// Takes the whole piece, or none of it: it is refused where the header would pass its limit of 65,535 bytes (1), and nothing
    /// changes then.
    pub fn feed(&mut self, piece: &[u8]) -> Answer
        ensures holds { HeaderFollows E.Engine self.old (Feed piece.entry) result self.new }
        ensures whole { FeedsHeader E.Engine self.old piece.now result self.new }
    {
        self.buffer.feed(piece)
    }

    /// Asks the engine to switch, which it refuses where it is not ready (6). A half-filled block stays as it is.
    pub fn switch(&mut self) -> Answer
        ensures holds { HeaderFollows E.Engine self.old Switch result self.new }
        ensures whole { SwitchesHeader E.Engine self.old result self.new }
    {
        self.buffer.switch()
    }

    /// Ends the header: its last block is filled with zeros, so that the body begins with a block of its own.
    pub fn turn(self) -> BodyJob<E>
        ensures holds { FollowsTurn E.Engine self result }
        ensures whole { Turns E.Engine self result }
    {
        let HeaderJob { mut buffer } = self;
        buffer.flush();
        let header = buffer.count;
        buffer.count = 0;
        buffer.part = Part::Body;
        BodyJob { buffer, header }
    }
}
