// The commands `seal`, `check`, `list` and `open`: sealed files.
use crate::flight::{Files, Flight, Key};
use crate::stop::{Argument, Stop};
use crate::tagging::print_digest;
use crate::words::{Hex, exactly};
use format::{BLOCK_BYTES, LARGEST_FILE, Lengths, blocks_for};
use message::Message;
use reading::{Reader, Record};
use sealed::{Sealed, check_file, write_file};
use std::io;
use std::io::IsTerminal;

// From this many bytes on, a command says what it is at, where standard error is a terminal.
const SLOW: usize = 1 << 20;

fn say(rt: &HostRuntime, bytes: usize, doing: &str) -> Result<(), Stop> {
    if bytes >= SLOW && rt.stderr().is_terminal() {
        eprintln!(rt; "{doing} {bytes} bytes")?;
    }
    Ok(())
}

// The bytes that the file of a message takes, or zero where it is over the limit: the writer then refuses it by its own rule.
fn file_size(message: Message) -> usize {
    let blocks = blocks_for(message.header.len(), message.body.len());
    let size = blocks.saturating_mul(BLOCK_BYTES);
    if size > LARGEST_FILE { 0 } else { size }
}

// Writes the sealed file of a flight.
pub(crate) fn sealed_file(rt: &HostRuntime, flight: &Flight, out: &str) -> Result<Sealed, Stop> {
    let key = flight.key;
    let message = flight.files.message();
    let size = file_size(message);
    let mut file = vec![in rt.alloc(); 0u8; size]?;
    say(rt, size, "sealing")?;
    let sealed = write_file(key.step(), key.pad, message, &mut file).answer?;
    say(rt, size, "writing")?;
    Argument::Out.write(rt, out, &file)?;
    Ok(sealed)
}

fn print_sealed(rt: &HostRuntime, message: Message, out: &str, sealed: Sealed) -> io::Result<()> {
    let Message { header, body } = message;
    println!(rt; "header {} bytes, body {} bytes", header.len(), body.len())?;
    let blocks = sealed.blocks;
    let bytes = u64::from(blocks).saturating_mul(BLOCK_BYTES as u64);
    println!(rt; "file {out}: {bytes} bytes, {blocks} blocks")?;
    print_digest(rt, sealed.digest)
}

pub(crate) fn seal_files(rt: &HostRuntime, words: &[String]) -> Result<(), Stop> {
    let [subkey, pad, header, body, out] = exactly::<5>(words)?;
    let flight = Flight::read(rt, [subkey, pad, header, body], &[])?;
    let sealed = sealed_file(rt, &flight, out)?;
    Ok(print_sealed(rt, flight.files.message(), out, sealed)?)
}

// Prints the lengths of both parts of a file that is accepted, and answers them.
fn print_checked(rt: &HostRuntime, key: Key, file: &[u8]) -> Result<Lengths, Stop> {
    say(rt, file.len(), "checking")?;
    let lengths = check_file(key.step(), key.pad, file).answer?;
    println!(rt;
        "accepted: header {} bytes, body {} bytes",
        lengths.header, lengths.body
    )?;
    Ok(lengths)
}

pub(crate) fn check_sealed(rt: &HostRuntime, words: &[String]) -> Result<(), Stop> {
    let [subkey, pad, file] = exactly::<3>(words)?;
    let key = Key::read(subkey, pad)?;
    print_checked(rt, key, &Argument::File.read_bytes(rt, file)?)?;
    Ok(())
}

fn print_record(rt: &HostRuntime, place: u32, record: Record) -> io::Result<()> {
    match record {
        Record::Header(data) => println!(rt; "block {place}: header, {} bytes", data.len()),
        Record::Body(data) => println!(rt; "block {place}: body, {} bytes", data.len()),
        Record::End(data) => println!(rt; "block {place}: end, tag {}", Hex(data)),
    }
}

// A line for each record.
fn print_records(rt: &HostRuntime, file: &[u8]) -> Result<(), Stop> {
    let mut reader = Reader::new(file);
    // A file has at most 65,536 blocks: by then the reader has said that it is at the end, or why it refuses.
    for place in 0..65_537u32 {
        let Some(item) = reader.next()? else { break };
        print_record(rt, place, item.record)?;
    }
    Ok(())
}

pub(crate) fn list_file(rt: &HostRuntime, words: &[String]) -> Result<(), Stop> {
    let [file] = exactly::<1>(words)?;
    print_records(rt, &Argument::File.read_bytes(rt, file)?)
}

// The parts of a file, once it is accepted.
fn accepted_parts(rt: &HostRuntime, key: Key, file: &[u8]) -> Result<Files, Stop> {
    let lengths = print_checked(rt, key, file)?;
    Files::of_sealed(rt, lengths, file)
}

// Both parts are written out only after the check has passed.
pub(crate) fn open_file(rt: &HostRuntime, words: &[String]) -> Result<(), Stop> {
    let [subkey, pad, file, header, body] = exactly::<5>(words)?;
    let key = Key::read(subkey, pad)?;
    let file = Argument::File.read_bytes(rt, file)?;
    accepted_parts(rt, key, &file)?.write(rt, header, body)
}
