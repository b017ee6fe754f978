// Sealed files: writing and checking.
#![tactic(auto)]

mod blocks;
mod checking;
mod feeding;
mod hashing;
mod sealed;
mod with_engine;
mod writing;

pub use checking::check_file;
pub use sealed::Sealed;
pub use with_engine::{Checked, WithEngine, Written};
pub use writing::write_file;
