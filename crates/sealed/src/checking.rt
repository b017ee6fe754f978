// A whole file checked under an engine's subkey.
//
// The file is gone through once, without the key, for all that can be wrong with it; that also tells where its parts begin and end. Only
// then is anything hashed: each part's own blocks are fed to a job, and the job's tag is compared with the one in the end block.
ghost use Rattle.std.specs.Prelude.{◌≡◌, length, if◌then◌else◌, Ok, Err, IfOk, IfErr, nat_eq};
ghost use Rattle.field.specs.Digits.{numeral};
ghost use Rattle.format.specs.Flaws.{IsFault};
ghost use Rattle.format.specs.Verdict.{Exact, first_pass, verdict};
ghost use Rattle.reading.specs.Sections.{IsCutOf, lengths_answer};
ghost use Rattle.refusal.specs.declared.Refusal.TheVariants.{TagDiffers};
ghost use Rattle.sealed.specs.Checking.{EngineAfter};

use crate::hashing::hash_sections;
use crate::with_engine::{Checked, WithEngine};
use engine::Engine;
use format::Lengths;
use job::Closed;
use message::{Digest, Pad, Part, Tag, block_of};
use reading::{Sections, cut_file};
use refusal::Refusal;

// The sections of a file, where its header is within the limit of a message.
fn first_pass(file: &[u8]) -> Result<Sections<'_>, Refusal>
    ensures answer { lengths_answer result ≡ first_pass file.now }
    ensures sections { IfOk result (IsCutOf file.now) }
{
    let sections = cut_file(file)?;
    if sections.lengths.header > Part::Header.limit() {
        return Err(Part::Header.too_long());
    }
    Ok(sections)
}

// The tag that the end block holds.
fn stored_tag(bytes: &[u8]) -> Tag
    requires { length bytes.now ≡ 16 }
    ensures { result.0.bits ≡ numeral 256 bytes.now }
{
    Tag(block_of(bytes))
}

// The lengths of both parts, where the tag in the file is the one that its parts have.
fn compare_tags(stored: Tag, tag: Tag, lengths: Lengths) -> Result<Lengths, Refusal>
    ensures { result ≡ (if nat_eq stored.0.bits tag.0.bits then Ok lengths else Err TagDiffers) }
{
    if stored == tag {
        Ok(lengths)
    } else {
        Err(Refusal::TagDiffers)
    }
}

/// Checks a file under an engine's subkey and a pad, and answers how long its parts are, in bytes.
///
/// It refuses a file by its first fault: its size (9), then block by block the check, the number, the form and the order (10 to 13), then
/// want of an end block (14), a header over its limit (1), and another tag than the one of its parts (8). The engine hashes only where
/// all but the tag is right, from zero, so that its value is the hash; else it is as it was. It comes back in any case.
pub fn check_file<E: Engine>(engine: E, pad: Pad, file: &[u8]) -> Checked<E>
    ensures answer { result.answer ≡ verdict (E.subkey_of engine) pad file.now }
    ensures refused { IfErr result.answer (IsFault (E.subkey_of engine) pad file.now) }
    ensures exact { Exact (E.subkey_of engine) pad file.now result.answer }
    ensures engine { EngineAfter E.Engine engine file.now result.answer result.engine }
{
    let sections = match first_pass(file) {
        Ok(sections) => sections,
        Err(refusal) => {
            return WithEngine {
                engine,
                answer: Err(refusal),
            };
        }
    };
    let Sections {
        header,
        body,
        tag: stored,
        lengths,
    } = sections;
    let Closed {
        engine,
        digest: Digest { tag, .. },
    } = hash_sections(engine, pad, header, body);
    WithEngine {
        engine,
        answer: compare_tags(stored_tag(stored), tag, lengths),
    }
}
