// What a job ends with.
use message::Digest;

/// A job after its close.
#[derive(Drop)]
pub struct Closed<E> {
    /// The engine, handed back: its value is the hash, and it is ready for a switch where it was before.
    pub engine: E,
    /// Hash and tag of the header and the body that were taken.
    pub digest: Digest,
}
