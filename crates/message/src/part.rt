// The two parts of a message, each with its limit.
ghost use Rattle.std.specs.Prelude.{◌≡◌, Some};
ghost use Rattle.message.specs.Blocks.{AreBytes};
ghost use Rattle.message.specs.Limits.{limit_of, part_name, part_refusal, within_limit};

use refusal::Refusal;
use std::fmt;

// The largest header that is taken, in bytes.
const HEADER_LIMIT: u64 = 65_535;

// The largest body, in bytes: NIST SP 800-38D allows 2^39 - 256 bits.
const BODY_LIMIT: u64 = 68_719_476_704;

/// One of the two parts of a message.
#[derive(Clone, Copy, PartialEq, Eq, Debug)]
pub enum Part {
    /// What is hashed first, and never enciphered: the standard's additional authenticated data.
    Header,
    /// What is hashed after it: the standard's ciphertext.
    Body,
}

impl Part {
    /// The most bytes that the part may have: 65,535 of a header, 68,719,476,704 of a body.
    pub fn limit(self) -> u64
        ensures { result ≡ limit_of self }
    {
        match self {
            Part::Header => HEADER_LIMIT,
            Part::Body => BODY_LIMIT,
        }
    }

    /// Why the part is refused where it is longer than its limit.
    pub fn too_long(self) -> Refusal
        ensures { result ≡ part_refusal self }
    {
        match self {
            Part::Header => Refusal::HeaderTooLong,
            Part::Body => Refusal::BodyTooLong,
        }
    }

    // Refuses a part over its limit.
    pub(crate) fn check_length(self, bytes: &[u8]) -> Result<(), Refusal>
        ensures answer { result ≡ within_limit self bytes.now (Ok tt) }
        ensures bytes { AreBytes bytes.now }
    {
        if bytes.len() as u64 > self.limit() {
            return Err(self.too_long());
        }
        Ok(())
    }
}

/// "header" or "body".
impl fmt::Display for Part {
    ghost output = { λ part. Some (part_name part) };

    fn fmt<W: fmt::Write>(&self, f: &mut fmt::Formatter<W>) -> fmt::Result {
        f.write_str(match self {
            Part::Header => "header",
            Part::Body => "body",
        })
    }
}
