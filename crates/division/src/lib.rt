// The division engine: a polynomial over blocks stands for the hash's value, and a division by an accepted polynomial for its product.
#![tactic(auto)]

mod division;
mod divisor;
mod ring;

pub use division::Division;
