// The maker: the product of t + root over the conjugates of a subkey. These are root, root^2, root^4, .., each the square of the
// one before, from the subkey on, as many as an element has coefficients. The subkey is one of them, so the product annihilates it.
//
// The product grows in the scratch, one factor a round. Its highest coefficient is always one and never stored. Multiplying by
// t + root moves every coefficient one place up and adds root times what stood there, so one pass from the lowest with the last
// value in hand does it in place. What is in hand at the end makes the coefficient of the next place.
//
// In a field of 2^width elements squaring permutes the conjugates, so that every coefficient of the product is its own square: zero
// or one. The laws of a binary kind do not say that it is such a field, so the maker looks at each coefficient and refuses one that
// is neither.
ghost use Rattle.std.specs.Prelude.{◌≡◌, ◌≤◌, [], ◌∷◌, ◌++◌, length, IfOk};
ghost use Rattle.polynomial.specs.Outcomes.{Makes, scratch_after};
ghost use Rattle.polynomial.specs.Polynomials.{Annihilates, IsProductOfFactors};
ghost use Rattle.polynomial.specs.Steps.{Reads, lower_conjugates, lower_times_linear};

use crate::binary::Binary;
use crate::scratch::Scratch;
use field::Element;
use refusal::Refusal;

// Multiplies by t + root in place, and answers the coefficient that goes into the next place.
fn multiply<E: Element + Copy>(coefficients: &mut [E], root: E) -> E
    ensures { coefficients.new ++ result ∷ []
        ≡ lower_times_linear E.Element root coefficients.old }
{
    let mut below = E::zero();
    for coefficient in coefficients.iter_mut() {
        let here = *coefficient;
        *coefficient = below.plus(root.times(here));
        below = here;
    }
    below.plus(root)
}

// Writes the product of as many conjugate factors as there is room for, but for its highest coefficient.
pub(crate) fn expand<E: Element + Copy>(coefficients: &mut [E], subkey: E)
    ensures { coefficients.new ≡ lower_conjugates E.Element subkey (length coefficients.old) }
{
    let mut root = subkey;
    // The front holds a product of degree `degree`, and the place behind it takes the coefficient that the next factor adds.
    for degree in 0..coefficients.len() {
        coefficients[degree] = multiply(&mut coefficients[..degree], root);
        root = root.times(root);
    }
}

// The proposal with these coefficients, or none where one of them is neither zero nor one.
pub(crate) fn read_bits<K: Binary>(coefficients: &[K]) -> Option<K>
    requires { length coefficients.now ≤ K.Binary.width }
    ensures { Reads K.Element K.Binary.bits (length coefficients.now) coefficients.now result }
{
    let mut proposal = K::zero();
    for (k, coefficient) in coefficients.iter().enumerate() {
        if !coefficient.is_zero() {
            if !coefficient.plus(K::one()).is_zero() {
                return None;
            }
            proposal = proposal.flip(k);
        }
    }
    Some(proposal)
}

/// The polynomial of all conjugates of a subkey: the product of t + subkey^(2^i) for i below the kind's width, which annihilates
/// the subkey. The answer has its coefficients, that of t^j at index j, but for the highest, which is one.
///
/// It refuses with `ScratchTooShort` (5) where the scratch holds fewer elements than the kind's width (128 blocks, 4 nibbles),
/// and with `NotBinary` (4) where a coefficient is neither zero nor one.
///
/// The scratch is lent for this call alone: as many elements at its front as the width are zero afterwards, so that none tells the
/// subkey, and the others stay. One that is too short is not touched.
pub fn make_polynomial<K: Binary>(subkey: K, scratch: &mut [K]) -> Result<K, Refusal>
    ensures value { Makes K.Binary.own K.Element (length scratch.old) subkey result }
    ensures annihilates { IfOk result
        (λ p. Annihilates K.Element K.Binary.width (K.Binary.bits p) subkey) }
    ensures factors { IsProductOfFactors K.Element subkey }
    ensures scratch { scratch.new ≡ scratch_after K.Element K.Binary.width scratch.old }
{
    if scratch.len() < K::width() {
        return Err(Refusal::ScratchTooShort);
    }
    let (elements, _) = scratch.split_at_mut(K::width());
    let mut scratch = Scratch { elements };
    scratch.find_bits(subkey).ok_or(Refusal::NotBinary)
}
