// Tags of whole messages by any engine: made, and checked.
#![tactic(auto)]

mod check;
mod compare;
mod hash;
mod tagging;

pub use check::check_tag;
pub use tagging::{tag_checked, tag_message};
