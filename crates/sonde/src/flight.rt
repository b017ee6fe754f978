// A flight that is about to leave: its key, its parts, and what the list is to be gone down with.
use crate::stop::{Argument, Stop};
use engine::Step;
use field::Block;
use format::Lengths;
use message::{Message, Pad};
use reading::read_parts;

// A subkey and a pad, which are always given together.
#[derive(Clone, Copy)]
pub(crate) struct Key {
    pub(crate) subkey: Block,
    pub(crate) pad: Pad,
}

impl Key {
    pub(crate) fn read(subkey: &str, pad: &str) -> Result<Key, Stop> {
        Ok(Key {
            subkey: Argument::Subkey.parse_block(subkey)?,
            pad: Pad(Argument::Pad.parse_block(pad)?),
        })
    }

    pub(crate) fn step(self) -> Step {
        Step::new(self.subkey)
    }
}

// The two parts of a message, in memory of the program's own.
#[derive(Drop, PartialEq)]
pub(crate) struct Files {
    pub(crate) header: Vec<u8>,
    pub(crate) body: Vec<u8>,
}

impl Files {
    // Each from a file of its own.
    pub(crate) fn read(rt: &HostRuntime, header: &str, body: &str) -> Result<Files, Stop> {
        Ok(Files {
            header: Argument::Header.read_bytes(rt, header)?,
            body: Argument::Body.read_bytes(rt, body)?,
        })
    }

    // Both from one sealed file, whose check answered how long they are.
    pub(crate) fn of_sealed(
        rt: &HostRuntime,
        lengths: Lengths,
        file: &[u8],
    ) -> Result<Files, Stop> {
        let mut header = vec![in rt.alloc(); 0u8; lengths.header as usize]?;
        let mut body = vec![in rt.alloc(); 0u8; lengths.body as usize]?;
        read_parts(file, &mut header, &mut body)?;
        Ok(Files { header, body })
    }

    // Writes each into a file of its own.
    pub(crate) fn write(&self, rt: &HostRuntime, header: &str, body: &str) -> Result<(), Stop> {
        Argument::Header.write(rt, header, &self.header)?;
        Argument::Body.write(rt, body, &self.body)
    }

    pub(crate) fn message(&self) -> Message<'_> {
        Message {
            header: &self.header,
            body: &self.body,
        }
    }
}

#[derive(Drop)]
pub(crate) struct Flight {
    pub(crate) key: Key,
    pub(crate) files: Files,
    // A polynomial to be tried in the place of the maker's.
    pub(crate) proposal: Option<Block>,
    // Where the body is cut besides the usual places.
    pub(crate) cuts: Vec<usize>,
}

impl Flight {
    // One option with its value. The first that is none, or whose value is wrong, stops the command.
    fn take_option(&mut self, name: &str, value: &str) -> Result<(), Stop> {
        match name {
            "--polynomial" => self.proposal = Some(Argument::Proposal.parse_block(value)?),
            "--cut" => self.cuts.push(Argument::Number.parse_number(value)?)?,
            _ => return Err(Stop::NoOption),
        }
        Ok(())
    }

    // Options, each with its value.
    fn take_options(&mut self, options: &[String]) -> Result<(), Stop> {
        for option in options.chunks(2) {
            let [name, value] = option else {
                return Err(Stop::NoOption);
            };
            self.take_option(name, value)?;
        }
        Ok(())
    }

    // The four words SUBKEY, PAD, HEADER and BODY, and then options.
    pub(crate) fn read(
        rt: &HostRuntime,
        [subkey, pad, header, body]: [&String; 4],
        options: &[String],
    ) -> Result<Flight, Stop> {
        let mut flight = Flight {
            key: Key::read(subkey, pad)?,
            files: Files::read(rt, header, body)?,
            proposal: None,
            cuts: Vec::new(rt.alloc()),
        };
        flight.take_options(options)?;
        Ok(flight)
    }
}
