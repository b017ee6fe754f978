// The format of sealed files.
#![tactic(auto)]

mod block_kind;
mod check;
mod layout;
mod lengths;

pub use block_kind::{BlockKind, NoKind};
pub use check::block_check;
pub use layout::{
    BLOCK_BYTES, CHECK_AT, DATA_AT, DATA_BYTES, LARGEST_FILE, MOST_BLOCKS, blocks_for,
};
pub use lengths::Lengths;
