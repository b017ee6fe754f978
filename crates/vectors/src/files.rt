// Sealed files at the edges of their sizes.
use crate::fault::Fault;
use engine::Step;
use field::{Block, Element};
use format::{BLOCK_BYTES, DATA_BYTES, LARGEST_FILE, Lengths, MOST_BLOCKS};
use message::{Message, Pad};
use sealed::{check_file, write_file};
use std::alloc::Global;

// The largest body of a file with no header: 65,535 full blocks.
const LARGEST_BODY: usize = (MOST_BLOCKS - 1) * DATA_BYTES;

// The blocks of the file that seals so many zeros, once it was checked.
fn sealed_blocks(heap: Global, header: usize, body: usize) -> Result<u32, Fault> {
    let header = vec![in heap; 0u8; header]?;
    let body = vec![in heap; 0u8; body]?;
    let mut file = vec![in heap; 0u8; LARGEST_FILE]?;
    let step = Step::new(Block::one());
    let message = Message {
        header: &header,
        body: &body,
    };
    let sealed = write_file(step, Pad(Block::zero()), message, &mut file).answer?;
    // How much of the largest file it is, which the writer answers in blocks.
    let size = (sealed.blocks as usize)
        .saturating_mul(BLOCK_BYTES)
        .min(LARGEST_FILE);
    let wanted = Lengths {
        header: header.len() as u64,
        body: body.len() as u64,
    };
    let step = Step::new(Block::one());
    let lengths = check_file(step, Pad(Block::zero()), &file[..size]).answer?;
    if lengths != wanted {
        return Err(Fault::Differs);
    }
    Ok(sealed.blocks)
}

// What comes of writing and checking such a file: its size, or the refusal.
fn print_file(rt: &HostRuntime, header: usize, body: usize) -> Result<(), Fault> {
    print!(rt; "file of header {header} and body {body}: ")?;
    match sealed_blocks(rt.alloc(), header, body) {
        Err(Fault::Refused(refusal)) => println!(rt; "refused {}", refusal.number())?,
        answer => {
            let blocks = answer?;
            let bytes = u64::from(blocks).saturating_mul(BLOCK_BYTES as u64);
            println!(rt; "{bytes} bytes, {blocks} blocks, written and accepted")?;
        }
    }
    Ok(())
}

pub(crate) fn print_files(rt: &HostRuntime) -> Result<(), Fault> {
    print_file(rt, 0, 0)?;
    print_file(rt, 502, 1)?;
    print_file(rt, 65_535, 0)?;
    print_file(rt, 65_536, 0)?;
    print_file(rt, 0, LARGEST_BODY)?;
    print_file(rt, 0, LARGEST_BODY + 1)
}
