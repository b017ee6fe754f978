// Jobs beside the engines' own absorbs, over a body of 1,536 blocks.
use crate::engines::{accepted, key};
use crate::timing::{Timed, time};
use division::Division;
use engine::{Engine, Step};
use field::{Block, Element};
use job::{BodyJob, Closed, HeaderJob};
use message::{Digest, Pad, block_of_byte_counts};

const BLOCKS: u32 = 1536;

const BYTES: usize = 16 * BLOCKS as usize;

fn body() -> [u8; BYTES] {
    let mut bytes = [0u8; BYTES];
    let mut next = 1u8;
    for byte in &mut bytes {
        *byte = next;
        next = next.wrapping_mul(5).wrapping_add(3);
    }
    bytes
}

// The body's blocks and its length block, absorbed without a job.
fn plain<E: Engine>(mut engine: E, body: &[u8]) -> Closed<E> {
    engine.resume(Block::zero());
    let (blocks, _rest) = body.as_chunks::<16>();
    for bytes in blocks {
        engine.absorb(Block::from_bytes(*bytes));
    }
    engine.absorb(block_of_byte_counts(0, body.len() as u64));
    let digest = Digest::new(engine.value(), Pad(Block::zero()));
    Closed { engine, digest }
}

// The same by a job, fed in pieces of some size.
fn fed<E: Engine>(engine: E, body: &[u8], size: usize) -> Closed<E> {
    let mut job = HeaderJob::start(engine).turn();
    for piece in body.chunks(size.max(1)) {
        let _ = job.feed(piece);
    }
    job.close(Pad(Block::zero()))
}

// What was closed last, and whether all that was closed before it had the same hash.
#[derive(Drop)]
struct Laps<E> {
    closed: Closed<E>,
    same: bool,
}

// Further laps by one way of closing, each with the engine of the lap before.
fn measure<E: Engine + Drop, W: FnMut(E) -> Closed<E>>(
    rt: &HostRuntime,
    count: u32,
    laps: Laps<E>,
    mut way: W,
) -> anyhow::Result<Timed<Laps<E>>>
    requires { (state : W) (x : _) → W.pre state x }
{
    time(rt, count, laps, |laps| {
        let Closed { engine, digest } = laps.closed;
        let closed = way(engine);
        let same = laps.same && closed.digest == digest;
        Laps { closed, same }
    })
}

// A row of the table: nanoseconds a block for the engine alone, for one large piece, and for a byte at a time.
fn row<E: Engine + Drop>(
    rt: &HostRuntime,
    name: &str,
    engine: E,
    count: u32,
) -> anyhow::Result<()> {
    let body = body();
    let laps = Laps {
        closed: plain(engine, &body),
        same: true,
    };
    let alone = measure(rt, count, laps, |engine| plain(engine, &body))?;
    let alone_ns = alone.each_of(BLOCKS);
    let large = measure(rt, count, alone.left, |engine| fed(engine, &body, BYTES))?;
    let large_ns = large.each_of(BLOCKS);
    let bytes = measure(rt, count, large.left, |engine| fed(engine, &body, 1))?;
    let bytes_ns = bytes.each_of(BLOCKS);
    let differ = if bytes.left.same { "" } else { "  DIFFER" };
    println!(rt; "{name:>8}  {alone_ns:>5}  {large_ns:>5}  {bytes_ns:>5}{differ}")?;
    Ok(())
}

pub(crate) fn jobs(rt: &HostRuntime, count: u32) -> anyhow::Result<()> {
    let polynomial = accepted()?;
    println!(rt; "ns a block  alone  large  bytes")?;
    row(rt, "step", Step::new(key()), count)?;
    row(rt, "division", Division::new(polynomial), count)
}
