// The command `tag`: the hash and tag of two files.
use crate::flight::{Files, Key};
use crate::stop::Stop;
use crate::words::exactly;
use message::{Digest, Message};
use std::io;
use tag::tag_message;

// The two lines that end what is told of a hashed message.
pub(crate) fn print_digest(rt: &HostRuntime, digest: Digest) -> io::Result<()> {
    println!(rt; "hash {}\ntag {}", digest.hash, digest.tag.0)
}

// What is told of two files by their names. It owns nothing, so that each line may fail at no cost.
fn print_tagged(
    rt: &HostRuntime,
    header: &str,
    body: &str,
    message: Message,
    digest: Digest,
) -> io::Result<()> {
    println!(rt; "header {header}: {} bytes", message.header.len())?;
    println!(rt; "body {body}: {} bytes", message.body.len())?;
    println!(rt; "blocks {}", message.count_blocks())?;
    print_digest(rt, digest)
}

pub(crate) fn tag_files(rt: &HostRuntime, words: &[String]) -> Result<(), Stop> {
    let [subkey, pad, header, body] = exactly::<4>(words)?;
    let key = Key::read(subkey, pad)?;
    let files = Files::read(rt, header, body)?;
    let digest = tag_message(&mut key.step(), key.pad, files.message())?;
    Ok(print_tagged(rt, header, body, files.message(), digest)?)
}
