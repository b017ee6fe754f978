// Hash and tag of a message, and the pad that makes the one into the other.
//
// Subkey, pad, hash and tag are 16 bytes each, and none may be taken for another: a pad at the place of the subkey, or a hash sent where
// the tag belongs, may give the subkey away. So pad and tag have types of their own. The subkey stays a block, since whatever is made
// from it looks at it.
ghost use Rattle.std.specs.Prelude.{◌≡◌};
ghost use Rattle.field.specs.Bytes.{bytes_of};

use field::{Block, Element};

/// The enciphered pre-counter block, CIPH_K(J0) in NIST SP 800-38D, section 7.1: added to a hash it makes the tag. It serves one
/// message alone.
#[derive(Clone, Copy, PartialEq, Eq, Debug)]
pub struct Pad(pub Block);

/// The tag of a message: its hash with the pad added (NIST SP 800-38D, section 7.1). It may be sent, where the hash is secret.
#[derive(Clone, Copy, PartialEq, Eq, Debug)]
pub struct Tag(pub Block);

impl Tag {
    /// The 16 bytes of the tag, in the order in which they are sent.
    pub fn to_bytes(self) -> [u8; 16]
        ensures { result ≡ bytes_of self.0 }
    {
        self.0.to_bytes()
    }
}

/// What a message comes to under a subkey and a pad.
#[derive(Clone, Copy, PartialEq, Eq, Debug)]
pub struct Digest {
    /// The GHASH of the block list. Together with the message it is an equation in the subkey: it is kept secret.
    pub hash: Block,
    /// The hash with the pad added, which goes with the message.
    pub tag: Tag,
}

impl Digest {
    ghost use Rattle.message.specs.Answer.{digest_under};

    /// A hash, and the tag that it makes under a pad.
    pub fn new(hash: Block, pad: Pad) -> Digest
        ensures { result ≡ digest_under pad hash }
    {
        Digest {
            hash,
            tag: Tag(hash + pad.0),
        }
    }
}
