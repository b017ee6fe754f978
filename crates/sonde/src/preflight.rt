// The command `preflight`: the list that is gone down before a balloon is let go.
ghost use Rattle.std.specs.Prelude.{◌-◌};
ghost use Rattle.std.specs.Iterator.{at_most};

use crate::files::sealed_file;
use crate::flight::{Files, Flight, Key};
use crate::point::{Fault, Point};
use crate::polynomials::{make_block, try_block};
use crate::stop::{Argument, Check, Stop};
use division::Division;
use engine::{Engine, Pair, Side, Step};
use field::Block;
use job::{BodyJob, Closed, HeaderJob};
use message::{Digest, Found, Message, Pad, Part, Tag, block_of, block_of_byte_counts};
use polynomial::Accepted;
use reading::{Reader, Record};
use refusal::Refusal;
use sealed::check_file;
use std::ops::Range;
use tag::tag_message;

// Every cut within so many bytes of the body's front is tried, and of its middle and its end within so many to both sides.
const FRONT: usize = 64;

const AROUND: usize = 17;

// A body of so many bytes ends with a half-filled block past the degree of the polynomial.
const PAST_DEGREE: usize = 129 * 16 + 7;

// 1: the polynomial is tried, the given one, else the maker's.
fn try_flight(rt: &HostRuntime, flight: &Flight) -> Result<Accepted<Block>, Stop> {
    let subkey = flight.key.subkey;
    let proposal = match flight.proposal {
        Some(given) => given,
        None => make_block(subkey)?,
    };
    let trial = try_block(subkey, proposal)?;
    println!(rt;
        "{} {proposal}: ok, weight {}",
        Point::Polynomial,
        trial.weight()
    )?;
    Ok(trial.polynomial())
}

// A job with the body cut in two, and a switch asked for between.
fn cut_job<E: Engine + Drop>(
    engine: E,
    pad: Pad,
    message: Message,
    at: usize,
) -> Result<Closed<E>, Refusal> {
    let (first, second) = message.body.split_at(at.min(message.body.len()));
    let mut job = HeaderJob::start(engine);
    job.feed(message.header)?;
    let mut job = job.turn();
    job.feed(first)?;
    let _ = job.switch();
    job.feed(second)?;
    Ok(job.close(pad))
}

// The blocks that the finder finds, up to the first that it does not.
#[derive(Drop)]
struct Blocks<'a> {
    message: Message<'a>,
    numbers: Range<usize>,
}

impl<'a> Blocks<'a> {
    fn of(message: Message<'a>) -> Blocks<'a> {
        Blocks {
            message,
            numbers: 0..usize::MAX,
        }
    }
}

impl<'a> Iterator for Blocks<'a> {
    type Item = Found<'a>;

    ghost remaining = { λ blocks. at_most (blocks.numbers.end - blocks.numbers.start) };

    fn next(&mut self) -> Option<Found<'a>> {
        self.message.find_block(self.numbers.next()?)
    }
}

// The hash of the blocks that the finder finds, and the length block.
fn found_hash(subkey: Block, message: Message) -> Block {
    let mut engine = Step::new(subkey);
    for found in Blocks::of(message) {
        engine.absorb(block_of(found.bytes));
    }
    let Message { header, body } = message;
    engine.absorb(block_of_byte_counts(header.len() as u64, body.len() as u64));
    engine.value()
}

// 2: the job against the one-shot call and against the blocks that the finder finds.
fn hash_flight(rt: &HostRuntime, flight: &Flight) -> Result<Digest, Stop> {
    let key = flight.key;
    let message = flight.files.message();
    let tagged = tag_message(&mut key.step(), key.pad, message)?;
    let closed = cut_job(key.step(), key.pad, message, message.body.len())?;
    Check::Job.holds(closed.digest.hash == tagged.hash)?;
    Check::Finder.holds(found_hash(key.subkey, message) == tagged.hash)?;
    println!(rt;
        "{}: ok, job, one-shot and finder give {}",
        Point::Job,
        tagged.hash
    )?;
    Ok(tagged)
}

// Whether the blocks that are found begin where the one before in the same part ended, and reach the ends of both parts.
fn blocks_join(message: Message) -> bool {
    let mut header = 0usize;
    let mut body = 0usize;
    for found in Blocks::of(message) {
        let end = match found.part {
            Part::Header => &mut header,
            Part::Body => &mut body,
        };
        if found.offset != *end {
            return false;
        }
        *end = end.saturating_add(found.bytes.len());
    }
    header == message.header.len() && body == message.body.len()
}

// The cuts at a place and near it.
fn around(centre: usize) -> Range<usize> {
    centre.saturating_sub(AROUND)..centre.saturating_add(AROUND + 1)
}

// Where the body is cut: near its front, its middle and its end, and at the given places. A place that is there twice is tried and
// counted twice.
fn places(rt: &HostRuntime, flight: &Flight) -> Result<Vec<usize>, Stop> {
    let length = flight.files.body.len();
    let mut places = Vec::new(rt.alloc());
    for range in [0..FRONT + 1, around(length / 2), around(length)] {
        places.extend(range.start..range.end.min(length.saturating_add(1)))?;
    }
    places.extend_from_slice(&flight.cuts)?;
    Ok(places)
}

// Whether the body cut in two at a place gives the same tag.
fn try_cut(key: Key, message: Message, at: usize, tag: Tag) -> Result<(), Stop> {
    Check::CutPastEnd.holds(at <= message.body.len())?;
    let closed = cut_job(key.step(), key.pad, message, at)?;
    Check::Cut.holds(closed.digest.tag == tag)?;
    Ok(())
}

fn try_cuts(flight: &Flight, places: &[usize], tag: Tag) -> Result<(), Stop> {
    let message = flight.files.message();
    for at in places {
        try_cut(flight.key, message, *at, tag)?;
    }
    Check::Finder.holds(blocks_join(message))?;
    Ok(())
}

// 3: the body cut in two at each place.
fn cut_flight(rt: &HostRuntime, flight: &Flight, tag: Tag) -> Result<(), Stop> {
    let places = places(rt, flight)?;
    try_cuts(flight, &places, tag)?;
    println!(rt;
        "{}: ok, {} cuts, each block in one segment",
        Point::Edges,
        places.len()
    )?;
    Ok(())
}

// Whether a pair of both engines, switched past so many bytes of the body, runs on by the second and gives the same tag.
fn try_switch(
    key: Key,
    polynomial: Accepted<Block>,
    message: Message,
    at: usize,
    tag: Tag,
) -> Result<(), Stop> {
    let pair = Pair::new(key.step(), Division::new(polynomial));
    let closed = cut_job(pair, key.pad, message, at)?;
    Check::Runs.holds(closed.engine.running() == Side::Second)?;
    Check::Switch.holds(closed.digest.tag == tag)?;
    Ok(())
}

// Switches around the degree of the polynomial, which are counted in blocks from the header's front on, or from the body's where
// the header alone has more.
fn try_switches(key: Key, polynomial: Accepted<Block>, message: Message) -> Result<(), Stop> {
    let tagged = tag_message(&mut key.step(), key.pad, message)?;
    let header = message.header.len().div_ceil(16).saturating_mul(16);
    for at in [126usize * 16, 127 * 16, 128 * 16, 128 * 16 + 7] {
        try_switch(
            key,
            polynomial,
            message,
            at.checked_sub(header).unwrap_or(at),
            tagged.tag,
        )?;
    }
    Ok(())
}

// 4: a pair of both engines, switched around the degree of the polynomial. A shorter body is filled with zeros for this.
fn switch_flight(
    rt: &HostRuntime,
    flight: &Flight,
    polynomial: Accepted<Block>,
) -> Result<(), Stop> {
    let mut body = flight.files.body.clone()?;
    let short = body.len() < PAST_DEGREE;
    body.resize(body.len().max(PAST_DEGREE), 0)?;
    let message = Message {
        header: &flight.files.header,
        body: &body,
    };
    try_switches(flight.key, polynomial, message)?;
    let copy = if short {
        ", on a copy filled up to 2071 bytes"
    } else {
        ""
    };
    println!(rt; "{}: ok{copy}", Point::Switch)?;
    Ok(())
}

// What is left of a message behind the bytes of a record, where these begin its part.
fn behind<'a>(left: Message<'a>, record: Record) -> Option<Message<'a>> {
    let Message { header, body } = left;
    match record {
        Record::Header(data) => {
            let header = header.strip_prefix(data)?;
            Some(Message { header, body })
        }
        Record::Body(data) => {
            let body = body.strip_prefix(data)?;
            Some(Message { header, body })
        }
        Record::End(_) => Some(left),
    }
}

// Whether the records of a file are the parts of a message, byte by byte.
fn records_agree(file: &[u8], message: Message) -> Result<bool, Refusal> {
    let mut left = message;
    let mut reader = Reader::new(file);
    // A file has at most 65,536 blocks, so that the reader has come to its end by then.
    for _ in 0..65_537u32 {
        let Some(item) = reader.next()? else { break };
        let Some(rest) = behind(left, item.record) else {
            return Ok(false);
        };
        left = rest;
    }
    Ok(left.header.is_empty() && left.body.is_empty())
}

// Whether a file is accepted, and its records and its parts are those of the flight.
fn try_file(rt: &HostRuntime, flight: &Flight, file: &[u8]) -> Result<(), Stop> {
    let key = flight.key;
    let lengths = check_file(key.step(), key.pad, file).answer?;
    Check::ReadBack.holds(records_agree(file, flight.files.message())?)?;
    let parts = Files::of_sealed(rt, lengths, file)?;
    Check::ReadBack.holds(parts == flight.files)?;
    Ok(())
}

// 5: the file written, read again, checked, and its records and its parts compared with the flight.
fn seal_flight(rt: &HostRuntime, flight: &Flight, out: &str) -> Result<(), Stop> {
    let blocks = sealed_file(rt, flight, out)?.blocks;
    try_file(rt, flight, &Argument::Out.read_bytes(rt, out)?)?;
    println!(rt; "{}: ok, {blocks} blocks in {out}", Point::Seal)?;
    Ok(())
}

// Every point but the first, for a flight that is read.
fn try_points(rt: &HostRuntime, flight: &Flight, out: &str) -> Result<(), Fault> {
    let polynomial = Point::Polynomial.of(try_flight(rt, flight))?;
    let tagged = Point::Job.of(hash_flight(rt, flight))?;
    Point::Edges.of(cut_flight(rt, flight, tagged.tag))?;
    Point::Switch.of(switch_flight(rt, flight, polynomial))?;
    Point::Seal.of(seal_flight(rt, flight, out))
}

fn go_down(rt: &HostRuntime, words: [&String; 5], options: &[String]) -> Result<(), Fault> {
    let [subkey, pad, header, body, out] = words;
    let flight = Point::Flight.of(Flight::read(rt, [subkey, pad, header, body], options))?;
    try_points(rt, &flight, out)
}

pub(crate) fn preflight(rt: &HostRuntime, words: &[String]) -> Result<(), Stop> {
    let [subkey, pad, header, body, out, options @ ..] = words else {
        return Err(Stop::WrongCount {
            wanted: 5,
            given: words.len(),
        });
    };
    match go_down(rt, [subkey, pad, header, body, out], options) {
        Ok(()) => {
            println!(rt; "cleared for launch")?;
            Ok(())
        }
        Err(fault) => {
            fault.print(rt)?;
            Err(Stop::Grounded)
        }
    }
}
