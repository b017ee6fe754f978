// How long the two parts of a sealed file are.

/// The lengths of a header and a body, in bytes of their own, without what their blocks add.
#[derive(Clone, Copy, PartialEq, Eq, Debug)]
pub struct Lengths {
    /// The header's length in bytes.
    pub header: u64,
    /// The body's length in bytes.
    pub body: u64,
}
