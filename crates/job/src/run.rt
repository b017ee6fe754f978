// A run: a whole job from lists of calls.
//
// The engine starts at zero. Every call of the header is made, in order; then come the turn, every call of the body, and the
// close. A refused call changes nothing of what the job has taken, and the run goes on, so each run ends in a close, and what the job has taken is the
// accepted pieces, joined. The answers depend on the calls and on whether the engine is ready, and on nothing else of the engine.
ghost use Rattle.std.specs.Prelude.{◌≡◌};
ghost use Rattle.job.specs.Plain.{part_answers};
ghost use Rattle.job.specs.Runs.{Replays, row_after};
ghost use Rattle.message.specs.declared.part.Part.TheVariants.{Header, Body};

use crate::call::{Answer, Calls};
use crate::closed::Closed;
use crate::header_job::HeaderJob;
use engine::Engine;
use message::Pad;

/// The run of these calls on an engine, closed under a pad.
///
/// The answers go to the fronts of the two rows. A row shorter than its calls holds the first answers, so an empty one will do, and
/// what stands past the answers stays. The pad is no part of the engine, since only the close uses it.
pub fn replay<E: Engine>(
    engine: E,
    calls: Calls,
    pad: Pad,
    header_answers: &mut [Answer],
    body_answers: &mut [Answer],
) -> Closed<E>
    ensures header { header_answers.new ≡ row_after header_answers.old
        (part_answers Header (E.ready_of engine) calls.entry.header.now) }
    ensures body { body_answers.new ≡ row_after body_answers.old
        (part_answers Body (E.ready_of engine) calls.entry.body.now) }
    ensures run { Replays E.Engine engine calls.entry pad result }
{
    let mut job = HeaderJob::start(engine);
    job.buffer.answer_all(calls.header, header_answers);
    let mut job = job.turn();
    job.buffer.answer_all(calls.body, body_answers);
    job.close(pad)
}
