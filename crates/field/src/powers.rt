// Numbers of two bytes taken in six at a time, with one remainder for six steps of Horner's rule.
//
// Six steps from a value v on, at a key r, come to v·r^6 + a·r^6 + b·r^5 + c·r^4 + d·r^3 + e·r^2 + f·r. A value and a power of the
// key are below 2^31, and a number of two bytes is below 2^16: v·r^6 is below 2^62 and each other product below 2^47, so that the
// sum stays below 2^63. It fits in 64 bits as it stands, and one remainder at its end serves all six.
ghost use Rattle.std.specs.Prelude.{◌≡◌, ◌*◌, ◌^◌, ◌<◌, map};
ghost use Rattle.field.specs.Bytes.{word_of};
ghost use Rattle.field.specs.Digits.{numeral};
ghost use Rattle.field.specs.Evaluation.{eval_from};
ghost use Rattle.field.specs.Kinds.{word_ring};

use crate::element::Element;
use crate::word::{Word, number, remainder};

// How many numbers a group has.
pub(crate) const GROUP: usize = 6;

// A key and its powers up to the sixth: one for each number of a group.
#[derive(Drop)]
pub(crate) struct Powers {
    first: Word,
    second: Word,
    third: Word,
    fourth: Word,
    fifth: Word,
    sixth: Word,
    ghost second_is: { second ≡ word_ring.product first first },
    ghost third_is: { third ≡ word_ring.product first second },
    ghost fourth_is: { fourth ≡ word_ring.product first third },
    ghost fifth_is: { fifth ≡ word_ring.product first fourth },
    ghost sixth_is: { sixth ≡ word_ring.product first fifth },
}

// The number that two bytes write, times a power of the key.
fn weigh(bytes: &[u8; 2], power: Word) -> u64
    ensures value { result ≡ numeral 256 bytes.now * power.value }
    ensures small { result < 2 ^ 47 }
{
    u64::from(number(bytes)) * u64::from(power.value)
}

impl Powers {
    // The key with its powers, each the key times the one before.
    pub(crate) fn new(key: Word) -> Powers
        ensures { result.first ≡ key }
    {
        let second = key * key;
        let third = key * second;
        let fourth = key * third;
        let fifth = key * fourth;
        let sixth = key * fifth;
        Powers {
            first: key,
            second,
            third,
            fourth,
            fifth,
            sixth,
        }
    }

    // The value after six steps, one for each number of the group. The first number is multiplied by the key most often.
    pub(crate) fn absorb(&self, value: Word, group: &[[u8; 2]; GROUP]) -> Word
        ensures { result ≡ eval_from word_ring self.now.first value (map word_of group.now) }
    {
        let [a, b, c, d, e, f] = group;
        let risen = u64::from(value.value) * u64::from(self.sixth.value);
        let sum = risen
            + weigh(a, self.sixth)
            + weigh(b, self.fifth)
            + weigh(c, self.fourth)
            + weigh(d, self.third)
            + weigh(e, self.second)
            + weigh(f, self.first);
        Word {
            value: remainder(sum),
        }
    }
}
