// What W is divided by: an accepted polynomial, with the places of its ones.
//
// The polynomial is t^128 and lower terms whose coefficients are zeros and ones, all but that of t^128 in the bits of a block. A division
// adds a block to W at the place of each one, for each block of a message. So the places are listed once, when the engine is made, and
// no division looks through 128 bits for the ones among them.
ghost use Rattle.std.specs.Prelude.{◌≡◌};
ghost use Rattle.polynomial.specs.Blocks.{coefficients_of};
ghost use Rattle.division.specs.Places.{one_places};

use arrayvec::ArrayVec;
use field::Block;
use polynomial::{Accepted, Binary};

#[derive(Drop)]
pub(crate) struct Divisor {
    pub(crate) polynomial: Accepted<Block>,
    // Each k at which the coefficient of t^k is one, the lowest first; 128 is not among them.
    pub(crate) places: ArrayVec<u8, 128>,
    ghost ones: { places.items ≡ one_places 128 (coefficients_of polynomial.coefficients) },
}

impl Divisor {
    pub(crate) fn new(polynomial: Accepted<Block>) -> Divisor
        ensures { result.polynomial ≡ polynomial }
    {
        let coefficients = polynomial.coefficients();
        let mut places = ArrayVec::new();
        for place in 0..128u8 {
            if coefficients.bit(usize::from(place)) {
                places.push(place);
            }
        }
        Divisor { polynomial, places }
    }
}
