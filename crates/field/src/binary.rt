// Products of polynomials over the bits, with no branch on a bit.
//
// The product of a and b is the sum of x^k·b over the k whose coefficient in a is one. So one pass over the coefficients of a, with
// x^k·b in hand, comes to it: each turn adds what is in hand under a mask of the coefficient, and multiplies it by x. It is the
// algorithm of NIST SP 800-38D, section 6.3, where the coefficients of a choose by a branch.
ghost use Rattle.std.specs.Prelude.{◌≡◌, ℕ, ◌^◌, ◌<◌};
ghost use Rattle.field.specs.Binary.{FieldShape, times_bit, bit_product};
ghost use Rattle.field.specs.Products.{Lawful};

// The value where the bit is one, else zero: a mask in place of a branch.
pub(crate) fn masked(bit: u128, value: u128) -> u128
    requires { bit < 2 }
    ensures { result ≡ times_bit bit value }
{
    value & (bit * u128::MAX)
}

// A type of polynomials over the bits, by the numbers that write them.
pub(crate) trait Polynomial {
    ghost shape: { FieldShape };

    ghost WIDTH: { ℕ };

    // How many coefficients a polynomial has.
    const WIDTH: u32;

    // The coefficient of x^k, as a number of which a mask is made, so that no branch stands on it.
    fn coefficient(number: u128, k: u32) -> u128
        requires { k < shape.width }
        ensures bit { result < 2 }
        ensures value { result ≡ shape.digit number k };

    // x times the polynomial.
    fn times_x(number: u128) -> u128
        requires { number < 2 ^ shape.width }
        ensures { result ≡ shape.step number };

    ghost width: { shape.width ≡ WIDTH };

    ghost lawful: { Lawful shape };
}

// The product of two polynomials, modulo that of the type.
pub(crate) fn product<P: Polynomial>(a: u128, b: u128) -> u128
    requires { b < 2 ^ P.shape.width }
    ensures value { result ≡ bit_product P.shape P.shape.width a b }
    ensures fits { result < 2 ^ P.shape.width }
{
    let mut sum = 0;
    // x^k·b.
    let mut power = b;
    for k in 0..P::WIDTH {
        sum ^= masked(P::coefficient(a, k), power);
        power = P::times_x(power);
    }
    sum
}
