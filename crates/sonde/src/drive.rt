// The command `replay`: a job driven by a script, over a pair of step and division engines.
use crate::flight::Key;
use crate::polynomials::accepted;
use crate::script::{Asked, Script, Step};
use crate::stop::{Argument, Stop};
use crate::tagging::print_digest;
use crate::words::exactly;
use division::Division;
use engine::{Pair, Side};
use job::{Answer, Call, Calls, Closed, replay};
use message::Part;
use std::alloc::AllocError;
use std::io;

type Engines = Pair<engine::Step, Division>;

// What comes of a script: an answer for each call, and the closed job.
#[derive(Drop)]
struct Outcome {
    header: Vec<Answer>,
    body: Vec<Answer>,
    closed: Closed<Engines>,
}

fn print_step(rt: &HostRuntime, part: Part, step: &Step, answer: &Answer) -> io::Result<()> {
    let line = step.line;
    match &step.asked {
        Asked::Feed(piece) => print!(rt; "line {line}: {part} {} bytes: ", piece.len())?,
        Asked::Switch => print!(rt; "line {line}: switch: ")?,
    }
    match answer {
        Ok(()) => println!(rt; "accepted"),
        Err(refusal) => println!(rt; "{refusal}"),
    }
}

// How many bytes of a part were taken. Steps and answers stand apart, since the library answers into rows.
fn taken(steps: &[Step], answers: &[Answer]) -> u64 {
    let taken = steps
        .iter()
        .zip(answers)
        .filter(|(_, answer)| answer.is_ok());
    taken.fold(0u64, |sum, (step, _)| sum.saturating_add(step.bytes()))
}

// Each answer of a part, in turn.
fn print_part(rt: &HostRuntime, part: Part, steps: &[Step], answers: &[Answer]) -> io::Result<()> {
    for (step, answer) in steps.iter().zip(answers) {
        print_step(rt, part, step, answer)?;
    }
    Ok(())
}

fn print_replay(rt: &HostRuntime, script: &Script, done: &Outcome) -> io::Result<()> {
    print_part(rt, Part::Header, &script.header, &done.header)?;
    println!(rt; "line {}: turn: accepted", script.turn)?;
    print_part(rt, Part::Body, &script.body, &done.body)?;
    let header = taken(&script.header, &done.header);
    let body = taken(&script.body, &done.body);
    let running = match done.closed.engine.running() {
        Side::First => "step",
        Side::Second => "division",
    };
    println!(rt; "closed: {header} bytes of header, {body} of body, the {running} engine runs")?;
    print_digest(rt, done.closed.digest)
}

// The calls of a part, and a row as long for their answers.
#[derive(Drop)]
struct Rows<'a> {
    calls: Vec<Call<'a>>,
    answers: Vec<Answer>,
}

impl<'a> Rows<'a> {
    fn of(rt: &HostRuntime, steps: &'a [Step]) -> Result<Rows<'a>, AllocError> {
        Ok(Rows {
            calls: steps.iter().map(Step::call).collect(rt.alloc())?,
            answers: vec![in rt.alloc(); Ok(()); steps.len()]?,
        })
    }
}

// Drives a job through the script. The rows are as long as their calls, so every answer finds its place.
fn run_script(rt: &HostRuntime, key: Key, script: &Script) -> Result<Outcome, Stop> {
    let polynomial = accepted(key.subkey)?;
    let Rows {
        calls: header_calls,
        answers: mut header,
    } = Rows::of(rt, &script.header)?;
    let Rows {
        calls: body_calls,
        answers: mut body,
    } = Rows::of(rt, &script.body)?;
    let calls = Calls {
        header: &header_calls,
        body: &body_calls,
    };
    let engines = Pair::new(key.step(), Division::new(polynomial));
    let closed = replay(engines, calls, key.pad, &mut header, &mut body);
    Ok(Outcome {
        header,
        body,
        closed,
    })
}

pub(crate) fn replay_script(rt: &HostRuntime, words: &[String]) -> Result<(), Stop> {
    let [subkey, pad, script] = exactly::<3>(words)?;
    let key = Key::read(subkey, pad)?;
    let text = Argument::Script.read_text(rt, script)?;
    let script = Script::read(rt, &text)?;
    print_replay(rt, &script, &run_script(rt, key, &script)?)?;
    Ok(())
}
