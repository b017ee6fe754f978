// Engines: what hashes blocks one at a time, the plain way to do it, and pairs of engines that hand over to each other.
#![tactic(auto)]

mod engine;
mod pair;
mod step;

pub use engine::Engine;
pub use pair::{Pair, Side, absorb_in_pairs};
pub use step::Step;
