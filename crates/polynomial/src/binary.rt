// Kinds of element whose coefficients are bits, and so may stand for polynomials in t.
ghost use Rattle.std.specs.Prelude.{◌≡◌, ℕ, Bool, MatchBool, ◌≢◌};
ghost use Rattle.polynomial.specs.Bits.{BinaryLaws, bits_after_flip, ones_below};

use field::Element;

/// An element that is a row of bits, its coefficients. Each kind has its own order of them, in which it writes `bit` and `flip`.
pub trait Binary: Element + Copy {
    ghost width: { ℕ };

    ghost bits: { Self → ℕ → Bool };

    /// How many coefficients an element has.
    fn width() -> usize
        ensures { result ≡ width };

    /// Whether the coefficient of index k is one. Past the width there is none, and the answer is false.
    fn bit(self, k: usize) -> bool
        ensures { result ≡ bits self k };

    /// The element with the coefficient of index k changed. Past the width it stays as it is.
    fn flip(self, k: usize) -> Self
        ensures { (j : ℕ) → bits result j ≡ bits_after_flip width (bits self) k j };

    /// Whether every coefficient is zero.
    fn is_zero(self) -> bool
        ensures { MatchBool result (self ≡ Self.Element.zero) (self ≢ Self.Element.zero) };

    /// How many coefficients are one.
    fn weight(self) -> u32
        ensures { result ≡ ones_below width (bits self) };

    ghost laws: { BinaryLaws Self.Element width bits };
}
