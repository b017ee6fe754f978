// A header and a body as blocks, and their hash and tag.
#![tactic(auto)]

mod blocks;
mod digest;
mod found;
mod message;
mod part;

pub use blocks::{block_of, block_of_byte_counts};
pub use digest::{Digest, Pad, Tag};
pub use found::Found;
pub use message::{CheckedMessage, Message};
pub use part::Part;
