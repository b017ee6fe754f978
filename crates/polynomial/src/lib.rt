// Polynomials that a subkey annihilates: the trial of a proposal, and the maker.
#![tactic(auto)]

mod accepted;
mod binary;
mod block;
mod maker;
mod nibble;
mod proposal;
mod scratch;
mod trial;

pub use accepted::Accepted;
pub use binary::Binary;
pub use maker::make_polynomial;
pub use proposal::try_polynomial;
pub use trial::Trial;
