// The comparison of tags.
//
// All pairs of bytes are xored and the differences gathered with an or: it is zero exactly where no pair differs. All of them are looked
// at, wherever the first difference stands.
ghost use Rattle.std.specs.Prelude.{◌≡◌, ◌≤◌, length};
ghost use Rattle.tag.specs.Tags.{begins_tag, longest_tag};

use message::Tag;

// Whether the tag begins with the given bytes.
pub(crate) fn begins_with(tag: Tag, given: &[u8]) -> bool
    requires { length given.now ≤ longest_tag }
    ensures { result ≡ begins_tag tag given.now }
{
    let bytes = tag.to_bytes();
    let pairs = given.iter().zip(bytes.iter());
    let difference = pairs.fold(0, |difference, (a, b)| difference | (a ^ b));
    difference == 0
}
