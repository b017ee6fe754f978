// Calls for a C program: blocks cross as two numbers each, refusals as negative ones.
#![tactic(auto)]

mod calls;
mod output;
mod scratch;
mod status;

pub use calls::{sonde_check_tag, sonde_tag, sonde_try_polynomial};
