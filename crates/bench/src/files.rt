// The check of a block, and sealed files beside the hash of the same bytes, over a body of 1 MiB.
use crate::engines::key;
use crate::timing::{time, time_tries};
use engine::Step;
use field::{Block, Element};
use format::{BLOCK_BYTES, CHECK_AT, block_check};
use message::{Message, Pad};
use sealed::{check_file, write_file};
use tag::tag_message;

const BODY: usize = 1 << 20;

// The file of that body: 2,089 body blocks and the end.
const FILE: usize = BLOCK_BYTES * 2_090;

fn headless(body: &[u8]) -> Message<'_> {
    Message { header: &[], body }
}

// The tag under a pad. Each pad is the tag before, so that no hash can be left out.
fn tag_after(pad: Block, body: &[u8]) -> Block {
    tag_message(&mut Step::new(key()), Pad(pad), headless(body)).map_or(pad, |digest| digest.tag.0)
}

// Whether the file is written.
fn writes(body: &[u8], file: &mut [u8]) -> bool {
    write_file(Step::new(key()), Pad(Block::one()), headless(body), file)
        .answer
        .is_ok()
}

// Whether the file is accepted.
fn accepts(file: &[u8]) -> bool {
    check_file(Step::new(key()), Pad(Block::one()), file)
        .answer
        .is_ok()
}

pub(crate) fn files(rt: &HostRuntime, count: u32) -> anyhow::Result<()> {
    let body = vec![in rt.alloc(); 7u8; BODY]?;
    let mut file = vec![in rt.alloc(); 0u8; FILE]?;
    let hashing = time(rt, count, Block::one(), |pad| tag_after(pad, &body))?;
    let writing = time_tries(rt, count, || writes(&body, &mut file))?;
    let checking = time_tries(rt, count, || accepts(&file))?;
    println!(rt;
        "microseconds for 1 MiB: hash {}, write {}, check {}",
        hashing.each_of(1000),
        writing.each_of(1000),
        checking.each_of(1000)
    )?;
    println!(rt;
        "{} written, {} accepted, and the hashes end at {}",
        writing.left, checking.left, hashing.left
    )?;
    Ok(())
}

// Checks of a block, each of bytes that begin with the check before, so that none can be left out.
pub(crate) fn checks(rt: &HostRuntime, count: u32) -> anyhow::Result<()> {
    let mut bytes = [7u8; CHECK_AT];
    let timed = time(rt, count, 0u32, |check| {
        let [a, b, c, d] = check.to_be_bytes();
        bytes[0] = a;
        bytes[1] = b;
        bytes[2] = c;
        bytes[3] = d;
        block_check(&bytes)
    })?;
    println!(rt;
        "proved {} ns a check, ending at {}",
        timed.each, timed.left
    )?;
    Ok(())
}
