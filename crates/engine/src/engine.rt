// What every engine does: it hashes blocks under a subkey, and may hand its value over to another way of computing.
//
// Whoever writes an engine says in three functions what a user reads off it (`subkey_of`, `value_of`, `ready_of`), and in three
// relations what a call makes of all of it (`absorbs`, `resumes`, `switches`). The functions alone leave open how an engine holds its
// value, and so what it computes with next. A relation is between the whole engine before the call, what the call was handed or
// answered, and the whole engine after. A step engine's relations say which two blocks it holds; a division engine's, which polynomial
// it holds, and where in its ring that begins; a pair's, what the engine that runs did, that the other one is as it was, and which of
// them runs afterwards. A user's contract chains them (`specs/Chain`), and so says all that an engine went through.
ghost use Rattle.std.specs.Prelude.{◌≡◌, Bool, is_ok};
ghost use Rattle.field.specs.declared.block.Block.{Block};
ghost use Rattle.engine.specs.Hashing.{hash_step, switch_answer};

use field::Block;
use refusal::Refusal;

/// A hash that takes in blocks one at a time: from a value of zero on, GHASH (NIST SP 800-38D, section 6.4).
///
/// An engine has a subkey H for as long as it lives, and a value T that each block moves on.
pub trait Engine: Sized {
    /// H, the key of the hash. No call changes it.
    ghost subkey_of: { Self → Block };

    /// T, the hash of the blocks so far.
    ghost value_of: { Self → Block };

    /// Whether a switch would be accepted. No call changes it.
    ghost ready_of: { Self → Bool };

    /// The whole engine before an absorb, the block, the whole engine after.
    ghost absorbs: { Self → Block → Self → Type 0 };

    /// The whole engine before a resume, the value to go on from, the whole engine after.
    ghost resumes: { Self → Block → Self → Type 0 };

    /// The whole engine before a switch, whether it was accepted, the whole engine after.
    ghost switches: { Self → Bool → Self → Type 0 };

    /// H, the subkey.
    fn subkey(&self) -> Block
        ensures answer { result ≡ subkey_of self.now };

    /// T, the value.
    fn value(&self) -> Block
        ensures answer { result ≡ value_of self.now };

    /// Whether a switch would be accepted: the engine has another to hand its value to, and both hash under one subkey.
    fn ready(&self) -> bool
        ensures answer { result ≡ ready_of self.now };

    /// Takes in a block P: T becomes (T + P)·H.
    fn absorb(&mut self, block: Block)
        ensures value { value_of self.new
            ≡ hash_step (subkey_of self.old) (value_of self.old) block }
        ensures subkey { subkey_of self.new ≡ subkey_of self.old }
        ensures ready { ready_of self.new ≡ ready_of self.old }
        ensures whole { absorbs self.old block self.new };

    /// Goes on from another value, whatever was taken in before: T becomes that value, under the same subkey.
    fn resume(&mut self, value: Block)
        ensures value { value_of self.new ≡ value }
        ensures subkey { subkey_of self.new ≡ subkey_of self.old }
        ensures ready { ready_of self.new ≡ ready_of self.old }
        ensures whole { resumes self.old value self.new };

    /// Hands T over within the engine, to its other way of computing: in a pair, to the engine that does not run. T stays what it is,
    /// and so does all that is computed from it.
    ///
    /// Refused as `NotReady` (6) exactly where the engine is not ready. What a refused switch leaves, `switches` says; each engine of
    /// this library is then as it was, all of it.
    fn switch(&mut self) -> Result<(), Refusal>
        ensures answer { result ≡ switch_answer (ready_of self.old) }
        ensures value { value_of self.new ≡ value_of self.old }
        ensures subkey { subkey_of self.new ≡ subkey_of self.old }
        ensures ready { ready_of self.new ≡ ready_of self.old }
        ensures whole { switches self.old (is_ok result) self.new };
}
