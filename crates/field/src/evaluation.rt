// The evaluation of a row of elements at a key, one call for every kind of element and of item.
ghost use Rattle.std.specs.Prelude.{◌≡◌, map};
ghost use Rattle.field.specs.Evaluation.{eval_from};

use crate::element::Element;
use crate::encodes::Encodes;

/// start·r^n + P1·r^n + P2·r^(n-1) + .. + Pn·r for the key r and n items: the items taken in by Horner's rule, from the start on.
///
/// A start of zero gives the evaluation of the row itself, and so zero for no items. With blocks, the subkey as the key and a start
/// of zero it is GHASH of NIST SP 800-38D, section 6.4.
pub fn evaluate<E: Element + Copy, T: Encodes<E>>(key: E, start: E, items: &[T]) -> E
    ensures { result ≡ eval_from E.Element key start (map T.element items.now) }
{
    T::absorb_row(key, start, items)
}
