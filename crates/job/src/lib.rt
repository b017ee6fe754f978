// Jobs: a header and a body, fed in pieces to an engine, and the hash and tag at the close.
//
// A job is in its header state, then in its body state, and then closed. Each state is a type, and the call that ends one takes it
// by value: so no header is fed after the turn, and nothing after the close.
#![tactic(auto)]

mod block_buffer;
mod body_job;
mod call;
mod closed;
mod difference;
mod header_job;
mod run;

pub use body_job::BodyJob;
pub use call::{Answer, Call, Calls};
pub use closed::Closed;
pub use difference::{difference_of_runs, hash_difference};
pub use header_job::HeaderJob;
pub use run::replay;
