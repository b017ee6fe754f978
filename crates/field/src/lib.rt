// Elements that can be added and multiplied: blocks, nibbles and words. And the evaluation of a row of them at a key.
#![tactic(auto)]

mod binary;
mod block;
mod element;
mod encodes;
mod evaluation;
mod nibble;
mod powers;
mod word;

pub use block::Block;
pub use element::Element;
pub use encodes::Encodes;
pub use evaluation::evaluate;
pub use nibble::Nibble;
pub use word::Word;
