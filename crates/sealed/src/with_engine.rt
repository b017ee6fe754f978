// What a call answers that takes an engine and hands it back.
use crate::sealed::Sealed;
use format::Lengths;
use refusal::Refusal;

/// What a call answers, together with the engine that it took.
#[derive(Drop)]
pub struct WithEngine<E, T> {
    /// The engine, which comes back after a refusal too.
    pub engine: E,
    /// What the call answers.
    pub answer: Result<T, Refusal>,
}

/// What comes of checking a file: how long its parts are.
pub type Checked<E> = WithEngine<E, Lengths>;

/// What comes of writing one.
pub type Written<E> = WithEngine<E, Sealed>;
