// A table of readings, worked out by the library's calls and proved of the definitions.
//
// Whoever reads a definition can hold it beside a value that is known from elsewhere: each row of the table says one of the definitions,
// and the calls answer nine of them, which a program may print.
#![tactic(auto)]

ghost use Rattle.std.specs.Prelude.{◌≡◌, Ok};
ghost use Rattle.field.specs.Kinds.{nibble, word};
ghost use Rattle.readings.specs.Table.{Table, first, hash_at_one, table_readings};

use field::{Block, Element, Nibble, Word, evaluate};
use message::{Message, Pad};
use refusal::Refusal;

// The key of the words' readings.
const KEY: u32 = 16_807;

/// What the calls of the library answer on a few elements and short messages.
#[derive(Clone, Copy)]
pub struct Readings {
    /// The product of the nibbles 0110 and 0011.
    pub nibble_product: Nibble,
    /// The nibbles 0001, 0001, evaluated at the key 0010.
    pub nibble_value: Nibble,
    /// The word 1, evaluated at the key 16,807.
    pub word_one: Word,
    /// The words 1, 0, evaluated at the key 16,807.
    pub word_two: Word,
    /// The block of 15 zero bytes and 01, evaluated at the key of 40 and 15 zero bytes.
    pub block_value: Block,
    /// The hash of an empty header and an empty body: zero at any subkey.
    pub empty_hash: Block,
    /// The tag of an empty header and an empty body, as a block: the pad itself.
    pub empty_tag: Block,
    /// The hash of an empty header and a body of the byte 80, at the subkey of 80 and 15 zero bytes.
    pub body_only: Block,
    /// The hash of a header of the byte 80 and an empty body, at that subkey.
    pub header_only: Block,
}

// 0110·0011.
fn nibble_product() -> Nibble
    ensures { result ≡ nibble 0b1010 }
{
    Nibble::new(0b0110) * Nibble::new(0b0011)
}

// 0001, 0001 at the key 0010.
fn nibble_value() -> Nibble
    ensures { result ≡ nibble 0b0110 }
{
    let one = Nibble::new(0b0001);
    evaluate(Nibble::new(0b0010), Nibble::zero(), &[one, one])
}

// 1 at the key.
fn word_one() -> Word
    ensures { result ≡ word 16807 }
{
    evaluate(Word::new(KEY), Word::zero(), &[Word::new(1)])
}

// 1, 0 at the key.
fn word_two() -> Word
    ensures { result ≡ word 282475249 }
{
    evaluate(Word::new(KEY), Word::zero(), &[Word::new(1), Word::new(0)])
}

// 00..00 01 at the key 40 00..00.
fn block_value() -> Block
    ensures { result ≡ first 0xE1 }
{
    evaluate(Block::new(0x40 << 120), Block::zero(), &[Block::new(1)])
}

// The hash at the subkey 80 00..00, which is one. It does not depend on the pad.
fn hash_at_one(message: Message) -> Result<Block, Refusal>
    ensures { result ≡ hash_at_one message.entry.header.now message.entry.body.now }
{
    let digest = message.hash_and_tag(Block::one(), Pad(Block::zero()))?;
    Ok(digest.hash)
}

/// Takes every reading, those of the empty message at the given subkey and under the given pad. Nothing is refused.
pub fn take_readings(subkey: Block, pad: Pad) -> Result<Readings, Refusal>
    ensures table { Table }
    ensures value { result ≡ Ok (table_readings pad) }
{
    let empty = Message {
        header: &[],
        body: &[],
    };
    let digest = empty.hash_and_tag(subkey, pad)?;
    Ok(Readings {
        nibble_product: nibble_product(),
        nibble_value: nibble_value(),
        word_one: word_one(),
        word_two: word_two(),
        block_value: block_value(),
        empty_hash: digest.hash,
        empty_tag: digest.tag.0,
        body_only: hash_at_one(Message {
            header: &[],
            body: &[0x80],
        })?,
        header_only: hash_at_one(Message {
            header: &[0x80],
            body: &[],
        })?,
    })
}
