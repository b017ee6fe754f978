// The same blocks through every engine: step, division, and a pair that switches on the way.
use crate::case::Case;
use crate::fault::Fault;
use crate::trials::accepted;
use division::Division;
use engine::{Engine, Pair, Step};
use field::{Block, Element};
use message::{Message, block_of, block_of_byte_counts};
use std::alloc::{AllocError, Global};
use std::iter;

// The hash of some blocks, with a switch asked for after every `every` of them.
pub(crate) fn hash<E: Engine>(engine: &mut E, blocks: &[Block], every: usize) -> Block {
    engine.resume(Block::zero());
    for (at, block) in blocks.iter().enumerate() {
        engine.absorb(*block);
        if at.saturating_add(1).is_multiple_of(every) {
            let _ = engine.switch();
        }
    }
    engine.value()
}

// The blocks of both parts, the last of each filled with zeros, and then one more.
pub(crate) fn blocks_of(
    heap: Global,
    message: Message,
    last: Block,
) -> Result<Vec<Block>, AllocError> {
    let pieces = message.header.chunks(16).chain(message.body.chunks(16));
    pieces
        .map(|piece| block_of(piece))
        .chain(iter::once(last))
        .collect(heap)
}

// The hash of the same blocks by each engine.
#[derive(Clone, Copy)]
struct Hashes {
    step: Block,
    division: Block,
    pair: Block,
}

impl Hashes {
    fn of(subkey: Block, blocks: &[Block], every: usize) -> Result<Hashes, Fault> {
        let polynomial = accepted(subkey)?;
        let mut pair = Pair::new(Step::new(subkey), Division::new(polynomial));
        Ok(Hashes {
            step: hash(&mut Step::new(subkey), blocks, every),
            division: hash(&mut Division::new(polynomial), blocks, every),
            pair: hash(&mut pair, blocks, every),
        })
    }

    // Whether each is this one.
    fn all(self, hash: Block) -> bool {
        [self.step, self.division, self.pair]
            .iter()
            .all(|by_engine| *by_engine == hash)
    }
}

pub(crate) fn verdict(agree: bool) -> &'static str {
    if agree { "agree" } else { "DIFFER" }
}

// Prints whether the engines agree on a published case, switching after every block.
pub(crate) fn print_engines(rt: &HostRuntime, case: &Case, hash: Block) -> Result<(), Fault> {
    let lengths = block_of_byte_counts(case.header.len() as u64, case.body.len() as u64);
    let blocks = blocks_of(rt.alloc(), case.message(), lengths)?;
    let verdict = verdict(Hashes::of(case.subkey, &blocks, 1)?.all(hash));
    println!(rt; "engines {verdict}, switched after every block")?;
    Ok(())
}

// The same on a long row of blocks, switched around the degree of the polynomial.
pub(crate) fn print_long(rt: &HostRuntime, subkey: Block) -> Result<(), Fault> {
    let blocks: Vec<Block> = (0..300u32)
        .map(|k| Block::new(u128::from(k)))
        .collect(rt.alloc())?;
    for every in 126..130usize {
        let hashes = Hashes::of(subkey, &blocks, every)?;
        let verdict = verdict(hashes.all(hashes.step));
        println!(rt;
            "engines {verdict} on 300 blocks, switched after every {every}: {}",
            hashes.step
        )?;
    }
    Ok(())
}
