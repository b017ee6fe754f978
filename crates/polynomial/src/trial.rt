// What a trial that accepts answers: its type says that the weight is that of the accepted polynomial.
ghost use Rattle.std.specs.Prelude.{◌≡◌, ⊤};
ghost use Rattle.polynomial.specs.Bits.{ones_below};

use crate::accepted::Accepted;
use crate::binary::Binary;
use std::alloc::AllocError;

/// A polynomial that passed its trial, with its weight: how many of its stored coefficients are one.
pub struct Trial<K: Binary> {
    polynomial: Accepted<K>,
    weight: u32,
    ghost weighed: { weight ≡ ones_below K.Binary.width (K.Binary.bits polynomial.coefficients) },
}

impl<K: Binary> Clone for Trial<K> {
    ghost is_clone = { λ x y. y ≡ x };

    ghost is_infallible = { λ _. ⊤ };

    fn clone(&self) -> Result<Self, AllocError> {
        Ok(*self)
    }
}

impl<K: Binary> Copy for Trial<K> {}

impl<K: Binary> Trial<K> {
    // The trial of a polynomial that is accepted already, whose ones are counted here.
    pub(crate) fn new(polynomial: Accepted<K>) -> Trial<K>
        ensures { result.polynomial ≡ polynomial }
    {
        let weight = polynomial.coefficients().weight();
        Trial { polynomial, weight }
    }

    /// The accepted polynomial, with its subkey.
    pub fn polynomial(self) -> Accepted<K>
        ensures { result ≡ self.polynomial }
    {
        self.polynomial
    }

    /// How many of the stored coefficients are one. The highest, of t to the kind's width, is not stored and not counted.
    pub fn weight(self) -> u32
        ensures { result ≡ ones_below K.Binary.width (K.Binary.bits self.polynomial.coefficients) }
    {
        self.weight
    }
}
