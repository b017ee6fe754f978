// One published case, a line of seven words: number, subkey, pad, header, body, hash, tag.
use crate::engines::print_engines;
use crate::fault::Fault;
use crate::jobs::print_jobs;
use crate::trials::print_made;
use field::Block;
use hexadecimal::{HexFault, parse_block, parse_bytes};
use message::{Digest, Message, Pad, Tag};
use std::alloc::Global;

// What a case hashes, and by which key.
#[derive(Drop)]
pub(crate) struct Case {
    pub(crate) subkey: Block,
    pub(crate) header: Vec<u8>,
    pub(crate) body: Vec<u8>,
    pub(crate) pad: Pad,
}

// What is published of a case, as it is written. It is read only once the case's own hash is there.
#[derive(Clone, Copy)]
struct Published<'a> {
    hash: &'a str,
    tag: &'a str,
}

impl Published<'_> {
    fn tag(self) -> Result<Tag, Fault> {
        Ok(Tag(parse_block(self.tag)?))
    }

    // The tag is looked at where the hash is the published one, so that a hash that differs is told whatever its tag's word is.
    fn is_of(self, digest: Digest) -> Result<bool, Fault> {
        Ok(digest.hash == parse_block(self.hash)? && digest.tag == self.tag()?)
    }
}

// What a word for which there is no row is told as: a wrong word is wrong, however little memory there is.
fn fault_without_row(word: &str) -> Fault {
    match parse_bytes(word, &mut []) {
        Ok(_) | Err(HexFault::RowTooShort { needed: _ }) => Fault::NoMemory,
        Err(fault) => Fault::BadHex(fault),
    }
}

// A header or a body, where - stands for an empty one.
fn read_part(heap: Global, word: &str) -> Result<Vec<u8>, Fault> {
    if word == "-" {
        return Ok(Vec::new(heap));
    }
    let row = vec![in heap; 0u8; word.len() / 2];
    let mut bytes = row.map_err(|_| fault_without_row(word))?;
    parse_bytes(word, &mut bytes)?;
    Ok(bytes)
}

impl Case {
    // The words of a line that say what is hashed. The pad is read last, so that of several wrong words a part's is told before it.
    fn parse(heap: Global, [subkey, pad, header, body]: [&str; 4]) -> Result<Case, Fault> {
        Ok(Case {
            subkey: parse_block(subkey)?,
            header: read_part(heap, header)?,
            body: read_part(heap, body)?,
            pad: Pad(parse_block(pad)?),
        })
    }

    pub(crate) fn message(&self) -> Message<'_> {
        Message {
            header: &self.header,
            body: &self.body,
        }
    }
}

// Prints what a case gives, by engines and by jobs too where more is asked for, and a polynomial for its subkey; answers whether
// hash and tag are as published.
fn print_case(
    rt: &HostRuntime,
    number: &str,
    case: &Case,
    published: Published,
    more: bool,
) -> Result<bool, Fault> {
    let digest = case.message().hash_and_tag(case.subkey, case.pad)?;
    let same = published.is_of(digest)?;
    let verdict = if same { "as published" } else { "DIFFERS" };
    println!(rt;
        "case {number}: hash {} tag {} {verdict}",
        digest.hash, digest.tag.0
    )?;
    print_made(rt, case.subkey)?;
    print_engines(rt, case, digest.hash)?;
    if more {
        print_jobs(rt, case, published.tag()?)?;
    }
    Ok(same)
}

// The case of a line of words.
pub(crate) fn compare(rt: &HostRuntime, line: &str, more: bool) -> Result<bool, Fault> {
    let words: Vec<&str> = line.split_whitespace().collect(rt.alloc())?;
    let [number, subkey, pad, header, body, hash, tag] = words.as_slice() else {
        return Err(Fault::WrongCount);
    };
    let case = Case::parse(rt.alloc(), [subkey, pad, header, body])?;
    print_case(rt, number, &case, Published { hash, tag }, more)
}
