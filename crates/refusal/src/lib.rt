// Why a call says no: one case for each cause, with its number and its text.
#![tactic(auto)]

ghost use Rattle.std.specs.Prelude.{◌≡◌, Some};
ghost use Rattle.refusal.specs.Refusals.{refusal_line, refusal_number, refusal_place, refusal_text};

use std::error::Error;
use std::fmt;

/// Why a call is refused.
///
/// What a case calls as it was is all that was handed to the refused call: engine, job, reader, scratch, output and buffers.
#[derive(Clone, Copy, PartialEq, Eq, Debug)]
pub enum Refusal {
    /// 1: the header has more than 65,535 bytes. All is as it was.
    HeaderTooLong,
    /// 2: the body has more than 68,719,476,704 bytes, the limit of NIST SP 800-38D, section 5.2.1.1. All is as it was.
    BodyTooLong,
    /// 3: the proposed polynomial does not annihilate the subkey. The front of the scratch is zero, an element for each coefficient
    /// of a polynomial (128 for blocks, 4 for nibbles), and the rest of it is as it was.
    DoesNotAnnihilate,
    /// 4: a coefficient of the made polynomial is neither zero nor one. The scratch is left as by 3.
    NotBinary,
    /// 5: the scratch has fewer elements than a polynomial has coefficients (128 for blocks, 4 for nibbles). All is as it was.
    ScratchTooShort,
    /// 6: a switch was asked of an engine that is not ready for one. All is as it was.
    NotReady,
    /// 7: a tag to be compared is shorter than 4 bytes or longer than 16. All is as it was.
    TagLength,
    /// 8: the tag is another. The engine has hashed the message, and its value is the hash.
    TagDiffers,
    /// 9: a file has no blocks, a part of a block, or more than 65,536 blocks. All is as it was.
    FileSize,
    /// 10: the check at the end of this block is not that of its bytes. All is as it was.
    WrongCheck { block: u32 },
    /// 11: this block's number is not its place. All is as it was.
    WrongNumber { block: u32 },
    /// 12: this block's kind, reserve, used length or a byte past it is wrong. All is as it was.
    WrongForm { block: u32 },
    /// 13: this block may not stand after the one before it. All is as it was.
    WrongOrder { block: u32 },
    /// 14: the last of this many blocks is no end block. All is as it was.
    NoEnd { blocks: u32 },
    /// 15: the output has no room for the answer, or a buffer none for its part. All is as it was.
    OutputTooShort,
}

impl Refusal {
    /// The number that users and other programs know the refusal by, 1 to 15. For C it is made negative.
    pub fn number(self) -> u8
        ensures { result ≡ refusal_number self }
    {
        match self {
            Refusal::HeaderTooLong => 1,
            Refusal::BodyTooLong => 2,
            Refusal::DoesNotAnnihilate => 3,
            Refusal::NotBinary => 4,
            Refusal::ScratchTooShort => 5,
            Refusal::NotReady => 6,
            Refusal::TagLength => 7,
            Refusal::TagDiffers => 8,
            Refusal::FileSize => 9,
            Refusal::WrongCheck { .. } => 10,
            Refusal::WrongNumber { .. } => 11,
            Refusal::WrongForm { .. } => 12,
            Refusal::WrongOrder { .. } => 13,
            Refusal::NoEnd { .. } => 14,
            Refusal::OutputTooShort => 15,
        }
    }

    /// The cause alone, without number and place. Users read these words, and a definition pins each of them.
    pub fn text(self) -> &'static str
        ensures { result.now ≡ refusal_text self }
    {
        match self {
            Refusal::HeaderTooLong => "header over its limit",
            Refusal::BodyTooLong => "body over its limit",
            Refusal::DoesNotAnnihilate => "proposal does not annihilate",
            Refusal::NotBinary => "maker meets a coefficient neither zero nor one",
            Refusal::ScratchTooShort => "scratch under 128 blocks",
            Refusal::NotReady => "switch with ready no",
            Refusal::TagLength => "given tag not 4 to 16 bytes",
            Refusal::TagDiffers => "tag differs",
            Refusal::FileSize => "file not of 1 to 65,536 blocks of 512 bytes",
            Refusal::WrongCheck { .. } => "check wrong",
            Refusal::WrongNumber { .. } => "number is not the place",
            Refusal::WrongForm { .. } => "kind, reserve, used length or a byte past it wrong",
            Refusal::WrongOrder { .. } => "block in the wrong order",
            Refusal::NoEnd { .. } => "last block is no end",
            Refusal::OutputTooShort => "output too short",
        }
    }

    /// The block that 10 to 13 name, counted from 0, or the count of blocks of 14, where the end is missing. Others have none.
    pub fn place(self) -> Option<u32>
        ensures { result ≡ refusal_place self }
    {
        match self {
            Refusal::WrongCheck { block }
            | Refusal::WrongNumber { block }
            | Refusal::WrongForm { block }
            | Refusal::WrongOrder { block } => Some(block),
            Refusal::NoEnd { blocks } => Some(blocks),
            _ => None,
        }
    }
}

/// One line: the number, the place if there is one, and the text, as in `refused 8: tag differs`.
impl fmt::Display for Refusal {
    ghost output = { λ refusal. Some (refusal_line refusal) };

    fn fmt<W: fmt::Write>(&self, f: &mut fmt::Formatter<W>) -> fmt::Result {
        let number = self.number();
        let text = self.text();
        match (self, self.place()) {
            (Refusal::NoEnd { blocks }, _) => {
                write!(f, "refused {number} after {blocks} blocks: {text}")
            }
            (_, Some(block)) => write!(f, "refused {number} at block {block}: {text}"),
            (_, None) => write!(f, "refused {number}: {text}"),
        }
    }
}

impl Error for Refusal {}
