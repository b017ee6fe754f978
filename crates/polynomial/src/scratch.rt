// The scratch that the trial and the maker borrow: of what a caller lends, as many elements as a polynomial has coefficients.
//
// What they write there tells the subkey. So the scratch is held by a guard, which zeroes it when it goes, however the call ends.
ghost use Rattle.std.specs.Prelude.{◌≡◌, length, replicate};

use crate::binary::Binary;
use crate::maker::{expand, read_bits};
use crate::proposal::{fill_powers, sum_powers};
use field::Element;

// A lent scratch, zeroed when it goes.
pub(crate) struct Scratch<'a, K: Binary> {
    pub(crate) elements: &'a mut [K],
    ghost whole: { length elements.now ≡ K.Binary.width },
}

impl<K: Binary> Scratch<'_, K> {
    ghost use Rattle.polynomial.specs.Polynomials.{proposal_value};
    ghost use Rattle.polynomial.specs.Steps.{Reads, lower_conjugates};

    // The value of a proposal at the key, by powers that are written to the scratch.
    pub(crate) fn value_at(&mut self, key: K, proposal: K) -> K
        ensures same_reference { self.new.elements.ghost_name ≡ self.old.elements.ghost_name }
        ensures value { result
            ≡ proposal_value K.Element K.Binary.width (K.Binary.bits proposal) key }
    {
        let powers = &mut *self.elements;
        let highest = fill_powers(powers, key);
        highest.plus(sum_powers(powers, proposal))
    }

    // The proposal that is the product of all conjugate factors, or none where some coefficient of the product is neither zero nor
    // one. The product is expanded in the scratch.
    pub(crate) fn find_bits(&mut self, subkey: K) -> Option<K>
        ensures same_reference { self.new.elements.ghost_name ≡ self.old.elements.ghost_name }
        ensures value { Reads K.Element K.Binary.bits K.Binary.width
            (lower_conjugates K.Element subkey K.Binary.width) result }
    {
        let coefficients = &mut *self.elements;
        expand(coefficients, subkey);
        read_bits(coefficients)
    }
}

// Zeroes every element.
fn clear<E: Element + Copy>(elements: &mut [E])
    ensures { elements.new ≡ replicate (length elements.old) E.Element.zero }
{
    elements.fill_with(|| E::zero());
}

impl<K: Binary> Drop for Scratch<'_, K> {
    fn drop(self)
        ensures { self.exit.0.now ≡ replicate K.Binary.width K.Element.zero }
    {
        let Scratch { elements } = self;
        clear(elements);
    }
}
