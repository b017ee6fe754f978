// The commands `check-tag` and `find`: two files as one message.
use crate::flight::{Files, Key};
use crate::stop::{Argument, Stop};
use crate::words::{Hex, exactly};
use message::Message;
use std::io;
use tag::check_tag;

// Compares the first bytes of a tag.
fn print_compared(rt: &HostRuntime, key: Key, message: Message, given: &[u8]) -> Result<(), Stop> {
    check_tag(&mut key.step(), key.pad, message, given)?;
    println!(rt; "accepted, {} bytes of the tag", given.len())?;
    Ok(())
}

pub(crate) fn check_files(rt: &HostRuntime, words: &[String]) -> Result<(), Stop> {
    let [subkey, pad, header, body, tag] = exactly::<5>(words)?;
    let key = Key::read(subkey, pad)?;
    let files = Files::read(rt, header, body)?;
    let given = Argument::Tag.parse_bytes(rt, tag)?;
    print_compared(rt, key, files.message(), &given)
}

// Shows a block, or says that there is none.
fn print_block(rt: &HostRuntime, message: Message, number: usize) -> io::Result<()> {
    let Some(found) = message.find_block(number) else {
        return println!(rt; "no block {number}");
    };
    println!(rt;
        "block {number}: {} at {}, {} bytes: {}",
        found.part,
        found.offset,
        found.bytes.len(),
        Hex(found.bytes)
    )
}

pub(crate) fn find_in_files(rt: &HostRuntime, words: &[String]) -> Result<(), Stop> {
    let [header, body, number] = exactly::<3>(words)?;
    let files = Files::read(rt, header, body)?;
    let number = Argument::Number.parse_number(number)?;
    Ok(print_block(rt, files.message(), number)?)
}
