// The commands `maker` and `trial`: polynomials that a subkey annihilates.
use crate::stop::{Argument, Stop};
use crate::words::exactly;
use field::{Block, Element};
use polynomial::{Accepted, Binary, Trial, make_polynomial, try_polynomial};

// The maker's polynomial, in a scratch of its own.
pub(crate) fn make_block(subkey: Block) -> Result<Block, Stop> {
    let mut scratch = [Block::zero(); 128];
    Ok(make_polynomial(subkey, &mut scratch)?)
}

// The maker's polynomial with the fact that it annihilates, so that no trial has to follow.
pub(crate) fn accepted(subkey: Block) -> Result<Accepted<Block>, Stop> {
    let mut scratch = [Block::zero(); 128];
    Ok(Accepted::make(subkey, &mut scratch)?)
}

// The trial of a proposal.
pub(crate) fn try_block(subkey: Block, proposal: Block) -> Result<Trial<Block>, Stop> {
    let mut scratch = [Block::zero(); 128];
    Ok(try_polynomial(subkey, proposal, &mut scratch)?)
}

// The maker's polynomial for the one word of a command.
fn make_asked(words: &[String]) -> Result<Block, Stop> {
    let [subkey] = exactly::<1>(words)?;
    make_block(Argument::Subkey.parse_block(subkey)?)
}

// The trial of a command's two words.
fn try_asked(words: &[String]) -> Result<Trial<Block>, Stop> {
    let [subkey, proposal] = exactly::<2>(words)?;
    let subkey = Argument::Subkey.parse_block(subkey)?;
    let proposal = Argument::Proposal.parse_block(proposal)?;
    try_block(subkey, proposal)
}

pub(crate) fn print_maker(rt: &HostRuntime, words: &[String]) -> Result<(), Stop> {
    let made = make_asked(words)?;
    println!(rt; "polynomial {made}\nweight {}", made.weight())?;
    Ok(())
}

pub(crate) fn print_trial(rt: &HostRuntime, words: &[String]) -> Result<(), Stop> {
    let trial = try_asked(words)?;
    println!(rt; "accepted, weight {}", trial.weight())?;
    Ok(())
}
