// A polynomial that passed its trial, or that the maker made: its type says that it annihilates its subkey.
ghost use Rattle.std.specs.Prelude.{◌≡◌, ⊤, length};
ghost use Rattle.polynomial.specs.Polynomials.{Annihilates};

use crate::binary::Binary;
use crate::maker::make_polynomial;
use refusal::Refusal;
use std::alloc::AllocError;

/// A polynomial in t, with a subkey that it annihilates.
///
/// Its degree is the kind's width: 128 over blocks. The highest coefficient is one and not stored, and the others are bits.
pub struct Accepted<K: Binary> {
    pub(crate) subkey: K,
    pub(crate) coefficients: K,
    ghost annihilates: { Annihilates K.Element K.Binary.width (K.Binary.bits coefficients) subkey },
}

impl<K: Binary> Clone for Accepted<K> {
    ghost is_clone = { λ x y. y ≡ x };

    ghost is_infallible = { λ _. ⊤ };

    fn clone(&self) -> Result<Self, AllocError> {
        Ok(*self)
    }
}

impl<K: Binary> Copy for Accepted<K> {}

impl<K: Binary> Accepted<K> {
    ghost use Rattle.polynomial.specs.Outcomes.{MakesAccepted, scratch_after};

    /// The maker's polynomial of this subkey, which annihilates it, so that no trial has to follow.
    ///
    /// It refuses as `make_polynomial` does, and leaves the scratch as that does.
    pub fn make(subkey: K, scratch: &mut [K]) -> Result<Accepted<K>, Refusal>
        ensures value { MakesAccepted K.Binary.own K.Element (length scratch.old) subkey result }
        ensures scratch { scratch.new ≡ scratch_after K.Element K.Binary.width scratch.old }
    {
        let coefficients = make_polynomial(subkey, scratch)?;
        Ok(Accepted {
            subkey,
            coefficients,
        })
    }

    /// The subkey that the polynomial annihilates.
    pub fn subkey(self) -> K
        ensures { result ≡ self.subkey }
    {
        self.subkey
    }

    /// The stored coefficients, as an element: that of t^j is the element's coefficient of index j.
    pub fn coefficients(self) -> K
        ensures { result ≡ self.coefficients }
    {
        self.coefficients
    }
}
