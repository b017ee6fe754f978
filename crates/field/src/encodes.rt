// What a row holds: the elements themselves, or the bytes that write them.
ghost use Rattle.std.specs.Prelude.{◌≡◌, map};
ghost use Rattle.field.specs.Evaluation.{eval_from};

use crate::element::Element;

/// What stands for an element: the element itself, or the bytes that write it, the first byte highest.
pub trait Encodes<E: Element + Copy>: Sized {
    ghost element: { Self → E };

    /// The element that it stands for.
    fn element(&self) -> E
        ensures { result ≡ element self.now };

    /// start·r^n + P1·r^n + P2·r^(n-1) + .. + Pn·r for the key r and n items.
    ///
    /// The items go in one by one, by Horner's rule. A kind whose items are so small that several steps fit in one sum takes
    /// several together.
    fn absorb_row(key: E, start: E, items: &[Self]) -> E
        ensures { result ≡ eval_from E.Element key start (map element items.now) }
    {
        items
            .iter()
            .fold(start, |value, item| value.absorb(item.element(), key))
    }
}

/// An element stands for itself.
impl<E: Element + Copy> Encodes<E> for E {
    ghost element = { λ item. item };

    fn element(&self) -> E {
        *self
    }
}
