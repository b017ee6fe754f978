// What the evaluation asks of a kind of element: the sums and products of a commutative ring.
ghost use Rattle.std.specs.Prelude.{◌≡◌};
ghost use Rattle.field.specs.Ring.{CommutativeRing};

/// An element of a commutative ring.
pub trait Element: Sized {
    ghost zero: { Self };

    ghost one: { Self };

    ghost sum: { Self → Self → Self };

    ghost product: { Self → Self → Self };

    /// Zero, which a sum leaves as it is.
    fn zero() -> Self
        ensures { result ≡ zero };

    /// One, which a product leaves as it is.
    fn one() -> Self
        ensures { result ≡ one };

    /// The sum of the two.
    fn plus(self, other: Self) -> Self
        ensures { result ≡ sum self other };

    /// The product of the two.
    fn times(self, other: Self) -> Self
        ensures { result ≡ product self other };

    /// (self + item)·key, a step of Horner's rule.
    fn absorb(self, item: Self, key: Self) -> Self
        ensures { result ≡ product (sum self item) key }
    {
        self.plus(item).times(key)
    }

    // The laws of the ring, which each kind proves: by them Horner's rule comes to the sum over the powers of the key.
    ghost ring: { CommutativeRing zero one sum product };
}
