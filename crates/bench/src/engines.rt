// The engines side by side, over rows of blocks of several lengths.
use crate::timing::{Timed, time};
use anyhow::anyhow;
use division::Division;
use engine::{Engine, Step};
use field::{Block, Element};
use polynomial::Accepted;

const LENGTHS: [u32; 9] = [128, 192, 256, 384, 512, 768, 1024, 1280, 1536];

// The subkey of the first published case.
pub(crate) fn key() -> Block {
    Block::new(0x66e9_4bd4_ef8a_2c3b_884c_fa59_ca34_2b2e)
}

// The value after some blocks, each made from its number.
fn hash<E: Engine>(engine: &mut E, blocks: u32) -> Block {
    engine.resume(Block::zero());
    // The number is what a block is made from, no index.
    for k in 0..blocks {
        engine.absorb(Block::new(u128::from(k).wrapping_mul(
            0x9e37_79b9_7f4a_7c15_f39c_c060_5ced_c835,
        )));
    }
    engine.value()
}

// Hashes of so many blocks, the value at the end included.
fn measure<E: Engine>(
    rt: &HostRuntime,
    engine: &mut E,
    blocks: u32,
    count: u32,
) -> anyhow::Result<Timed<Block>> {
    time(rt, count, Block::zero(), |_| hash(engine, blocks))
}

// A polynomial that the key annihilates. A function here, since the library keeps no scratch of its own.
pub(crate) fn accepted() -> anyhow::Result<Accepted<Block>> {
    let mut scratch = [Block::zero(); 128];
    // The text is the one that was always printed.
    Accepted::make(key(), &mut scratch).map_err(|_| anyhow!("no polynomial"))
}

pub(crate) fn engines(rt: &HostRuntime, count: u32) -> anyhow::Result<()> {
    let mut step = Step::new(key());
    let mut division = Division::new(accepted()?);
    println!(rt; "blocks  step ns  division ns")?;
    for blocks in LENGTHS {
        let by_step = measure(rt, &mut step, blocks, count)?;
        let by_division = measure(rt, &mut division, blocks, count)?;
        let differ = if by_step.left == by_division.left {
            ""
        } else {
            "  DIFFER"
        };
        let step_ns = by_step.each_of(blocks);
        let division_ns = by_division.each_of(blocks);
        println!(rt; "{blocks:>6}  {step_ns:>7}  {division_ns:>11}{differ}")?;
    }
    Ok(())
}

// An absorb alone, in a row so long that reading T at its end costs nothing.
pub(crate) fn absorbs(rt: &HostRuntime, count: u32) -> anyhow::Result<()> {
    let by_step = measure(rt, &mut Step::new(key()), count, 1)?;
    let by_division = measure(rt, &mut Division::new(accepted()?), count, 1)?;
    println!(rt; "proved, step: {} ns an absorb", by_step.each_of(count))?;
    println!(rt;
        "proved, division: {} ns an absorb",
        by_division.each_of(count)
    )?;
    Ok(())
}
