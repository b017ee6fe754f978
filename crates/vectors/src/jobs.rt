// The published cases as jobs: fed in pieces, with a switch after each, over a pair and over a pair of pairs.
use crate::case::Case;
use crate::engines::{blocks_of, hash, verdict};
use crate::fault::Fault;
use crate::trials::accepted;
use division::Division;
use engine::{Engine, Pair, Step};
use field::{Block, Element};
use job::{Call, Calls, Closed, difference_of_runs, replay};
use message::{Message, Pad, Tag};
use polynomial::Accepted;
use std::alloc::{AllocError, Global};

const CUTS: [usize; 5] = [1, 7, 15, 16, 17];

// Both parts at one lifetime.
fn message_of<'a>(header: &'a [u8], body: &'a [u8]) -> Message<'a> {
    Message { header, body }
}

// The pieces of a message, as calls.
#[derive(Drop)]
struct Pieces<'a> {
    header: Vec<Call<'a>>,
    body: Vec<Call<'a>>,
}

impl Pieces<'_> {
    fn calls(&self) -> Calls<'_> {
        Calls {
            header: &self.header,
            body: &self.body,
        }
    }
}

// How a message is fed, and under which pad its job is closed.
#[derive(Clone, Copy)]
struct Feeding {
    heap: Global,
    // How many bytes a piece has.
    cut: usize,
    pad: Pad,
}

impl Feeding {
    // A part in pieces, and a switch after each.
    fn calls_of<'a>(self, part: &'a [u8]) -> Result<Vec<Call<'a>>, AllocError> {
        part.chunks(self.cut.max(1))
            .flat_map(|piece| [Call::Feed(piece), Call::Switch])
            .collect(self.heap)
    }

    fn pieces<'a>(self, message: Message<'a>) -> Result<Pieces<'a>, AllocError> {
        Ok(Pieces {
            header: self.calls_of(message.header)?,
            body: self.calls_of(message.body)?,
        })
    }

    // The closed job of a message.
    fn close<E: Engine + Drop>(self, engine: E, message: Message) -> Result<Closed<E>, AllocError> {
        let pieces = self.pieces(message)?;
        Ok(replay(engine, pieces.calls(), self.pad, &mut [], &mut []))
    }
}

impl Case {
    // Whether the tag is the published one, over both engines.
    fn tags_agree(
        &self,
        feeding: Feeding,
        polynomial: Accepted<Block>,
        tag: Tag,
    ) -> Result<bool, Fault> {
        let step = || Step::new(self.subkey);
        let division = || Division::new(polynomial);
        let pair = Pair::new(step(), division());
        let pairs = Pair::new(Pair::new(division(), step()), Pair::new(step(), division()));
        let by_pair = feeding.close(pair, self.message())?;
        let by_pairs = feeding.close(pairs, self.message())?;
        Ok(by_pair.digest.tag == tag && by_pairs.digest.tag == tag)
    }

    // By how much the hashes of the body and of its complement differ, each fed in pieces of its own.
    fn difference(&self, heap: Global) -> Result<Block, AllocError> {
        let other: Vec<u8> = self.body.iter().map(|byte| !*byte).collect(heap)?;
        let complement = message_of(&self.header, &other);
        let pad = Pad(Block::zero());
        let first = Feeding { heap, cut: 16, pad }.pieces(self.message())?;
        let second = Feeding { heap, cut: 5, pad }.pieces(complement)?;
        let step = || Step::new(self.subkey);
        Ok(difference_of_runs(step(), first.calls(), step(), second.calls()))
    }

    // The hash of what the two bodies differ by: bytes of ones in the body's blocks, zeros in the header's and in the length block.
    fn hash_of_ones(&self, heap: Global) -> Result<Block, AllocError> {
        let zeros = vec![in heap; 0u8; self.header.len()]?;
        let ones = vec![in heap; 255u8; self.body.len()]?;
        let blocks = blocks_of(heap, message_of(&zeros, &ones), Block::zero())?;
        Ok(hash(&mut Step::new(self.subkey), &blocks, 1))
    }

    fn difference_agrees(&self, heap: Global) -> Result<bool, AllocError> {
        Ok(self.difference(heap)? == self.hash_of_ones(heap)?)
    }
}

// Prints whether the jobs of a published case end as published.
pub(crate) fn print_jobs(rt: &HostRuntime, case: &Case, tag: Tag) -> Result<(), Fault> {
    let heap = rt.alloc();
    let polynomial = accepted(case.subkey)?;
    let mut agree = case.difference_agrees(heap)?;
    for cut in CUTS {
        let pad = case.pad;
        let feeding = Feeding { heap, cut, pad };
        agree = case.tags_agree(feeding, polynomial, tag)? && agree;
    }
    let verdict = verdict(agree);
    println!(rt; "jobs {verdict}, cut every 1, 7, 15, 16 and 17 bytes")?;
    Ok(())
}
