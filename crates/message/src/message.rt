// A message: its lengths, its blocks one by one, and its hash and tag by the standard's own recursion.
//
// The block list is the header in blocks of 16 bytes, the last filled with zeros, then the body likewise, then one block of both lengths
// in bits. The hash takes it block by block: a value, zero at first, becomes (value + block) * subkey.
ghost use Rattle.std.specs.Prelude.{◌≡◌, ◌≤◌, length, IfOk};
ghost use Rattle.message.specs.Blocks.{AreBytes};
ghost use Rattle.message.specs.Limits.{header_limit, body_limit};

use crate::blocks::{absorb_part, block_of_byte_counts, blocks_in};
use crate::digest::{Digest, Pad};
use crate::found::{Found, block_at};
use crate::part::Part;
use field::{Block, Element};
use refusal::Refusal;

/// A header and a body, hashed together. Nothing is said yet of their lengths.
#[derive(Clone, Copy)]
pub struct Message<'a> {
    /// What is hashed first: the standard's additional authenticated data.
    pub header: &'a [u8],
    /// What is hashed after it: the standard's ciphertext.
    pub body: &'a [u8],
}

/// A message whose lengths were looked at: whoever holds one need not look again.
#[derive(Clone, Copy)]
pub struct CheckedMessage<'a> {
    pub(crate) header: &'a [u8],
    pub(crate) body: &'a [u8],
    ghost short: { length header.now ≤ header_limit },
    ghost few: { length body.now ≤ body_limit },
    ghost header_bytes: { AreBytes header.now },
    ghost body_bytes: { AreBytes body.now },
}

impl<'a> Message<'a> {
    ghost use Rattle.message.specs.Answer.{digest_answer};
    ghost use Rattle.message.specs.Blocks.{block_list};
    ghost use Rattle.message.specs.Checks.{ChecksLengths};
    ghost use Rattle.message.specs.Finding.{CoversMessage, Finds};
    ghost use Rattle.message.specs.Standard.{MeetsStandard};

    /// Refuses a header over its limit (1), and then a body over its limit (2).
    pub fn check(self) -> Result<CheckedMessage<'a>, Refusal>
        ensures { ChecksLengths self.entry.header.now self.entry.body.now result }
    {
        let Message { header, body } = self;
        Part::Header.check_length(header)?;
        Part::Body.check_length(body)?;
        Ok(CheckedMessage { header, body })
    }

    /// How many blocks are hashed, the length block too.
    #[tactic(auto, using(crate::proofs::Cutting::length_block_list))]
    pub fn count_blocks(self) -> u64
        ensures { result ≡ length (block_list self.entry.header.now self.entry.body.now) }
    {
        blocks_in(self.header) as u64 + blocks_in(self.body) as u64 + 1
    }

    /// Hash and tag under a subkey and a pad, refused as [`Message::check`] refuses.
    ///
    /// It is the recursion of NIST SP 800-38D, section 6.4, with nothing between: engines are compared with it.
    pub fn hash_and_tag(self, subkey: Block, pad: Pad) -> Result<Digest, Refusal>
        ensures value { result
            ≡ digest_answer subkey pad self.entry.header.now self.entry.body.now }
        ensures standard { IfOk result
            (MeetsStandard subkey pad self.entry.header.now self.entry.body.now) }
    {
        self.check()?;
        let after_header = absorb_part(subkey, Block::zero(), self.header);
        let after_body = absorb_part(subkey, after_header, self.body);
        let lengths = block_of_byte_counts(self.header.len() as u64, self.body.len() as u64);
        let hash = (after_body + lengths) * subkey;
        Ok(Digest::new(hash, pad))
    }

    /// Block n, from 0, through the header's blocks and then the body's; the length block is none of them.
    pub fn find_block(self, n: usize) -> Option<Found<'a>>
        ensures answer { Finds self.entry.header.now self.entry.body.now n result }
        ensures law { CoversMessage self.entry.header.now self.entry.body.now }
    {
        let before = blocks_in(self.header);
        if n < before {
            return Some(block_at(Part::Header, self.header, n));
        }
        if n - before < blocks_in(self.body) {
            return Some(block_at(Part::Body, self.body, n - before));
        }
        None
    }
}

impl<'a> CheckedMessage<'a> {
    /// The message, whose lengths may now be taken as they are.
    pub fn message(self) -> Message<'a>
        ensures header { result.header.now ≡ self.entry.header.now }
        ensures body { result.body.now ≡ self.entry.body.now }
    {
        let CheckedMessage { header, body } = self;
        Message { header, body }
    }
}
