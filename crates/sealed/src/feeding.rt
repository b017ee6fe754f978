// The blocks of a file's part, fed to a job.
ghost use Rattle.std.specs.Prelude.{◌≡◌, ℕ, ◌+◌, ◌≤◌, List, [], ◌++◌, length};
ghost use Rattle.message.specs.Limits.{header_limit, body_limit};
ghost use Rattle.reading.specs.Sections.{section_bytes};
ghost use Rattle.sealed.specs.Feeding.{BodyIsFed, HeaderIsFed};

use engine::Engine;
use job::{BodyJob, HeaderJob};
use reading::Section;

// A job in the state of one part, of which it takes piece after piece.
pub(crate) trait Takes {
    ghost limit: { ℕ };

    // From the first state to the second it was fed these bytes.
    ghost fed: { Self → List ℕ → Self → Type 0 };

    fn take(&mut self, piece: &[u8])
        ensures { (first : Self) (taken : List ℕ)
            → length taken + length piece.now ≤ limit
            → fed first taken self.old
            → fed first (taken ++ piece.now) self.new };

    ghost begins: { (first : Self) → fed first [] first };
}

// Nothing is refused, since all together is within the limit.
impl<E: Engine> Takes for HeaderJob<E> {
    ghost limit = { header_limit };

    ghost fed = { HeaderIsFed E.Engine };

    ghost begins = { λ first h can_switch began took. took };

    fn take(&mut self, piece: &[u8]) {
        let _ = self.feed(piece);
    }
}

impl<E: Engine> Takes for BodyJob<E> {
    ghost limit = { body_limit };

    ghost fed = { BodyIsFed E.Engine };

    ghost begins = { λ first h can_switch header began took. took };

    fn take(&mut self, piece: &[u8]) {
        let _ = self.feed(piece);
    }
}

// Feeds a part, block by block.
pub(crate) fn feed_part<J: Takes>(job: &mut J, part: Section)
    requires { length (section_bytes part) ≤ J.limit }
    ensures { J.fed job.old (section_bytes part.entry) job.new }
{
    for piece in part {
        job.take(piece);
    }
}
