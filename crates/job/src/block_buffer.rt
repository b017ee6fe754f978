// The bytes of a part, cut into blocks on their way to an engine.
//
// Fewer than 16 bytes wait for their block. The first bytes of a piece, up to the end of that block, join them one by one, and the byte
// that fills the block sends it to the engine; each later 16 go there straight. So the engine has always hashed the full blocks of all bytes that were taken, and what waits is the rest,
// wherever the bytes were parted into pieces. At the end of the part, what waits is filled with zeros and hashed.
//
// The count is of all bytes taken, those that wait too. It alone is held against the limit, before anything of a piece is taken, so
// a piece is taken whole or not at all.
ghost use Rattle.std.specs.Prelude.{◌≡◌, ◌<◌, ◌≤◌, [], ◌∷◌, slice_set, take};
ghost use Rattle.arrayvec.specs.ArrayVec.{array_vec_len};
ghost use Rattle.engine.specs.Rows.{HashesBlocks};
ghost use Rattle.message.specs.Blocks.{block_from};
ghost use Rattle.message.specs.Limits.{limit_of};

use crate::call::{Answer, Call};
use arrayvec::ArrayVec;
use engine::Engine;
use message::{Part, block_of};

/// An engine that is fed the bytes of a part.
#[derive(Drop)]
pub struct BlockBuffer<E> {
    pub(crate) engine: E,
    pub(crate) part: Part,
    // The bytes that wait for their block.
    pub(crate) pending: ArrayVec<u8, 16>,
    // How many bytes of the part were taken.
    pub(crate) count: u64,
    ghost room: { array_vec_len pending < 16 },
    ghost few: { count ≤ limit_of part },
}

// Hashes the bytes that wait, filled with zeros. There may be 16 here, as in no `BlockBuffer`, so it is handed the fields.
fn absorb_pending<E: Engine>(engine: &mut E, pending: &mut ArrayVec<u8, 16>)
    ensures hashed { HashesBlocks E.Engine engine.old
        (block_from (take 16 pending.old.items) ∷ []) engine.new }
    ensures left { pending.new.items ≡ [] }
{
    engine.absorb(block_of(pending.as_slice()));
    pending.clear();
}

// Writes an answer at its place, where the row reaches so far.
fn write(row: &mut [Answer], place: usize, answer: Answer)
    ensures { row.new ≡ slice_set row.old place answer }
{
    if place < row.len() {
        row[place] = answer;
    }
}

impl<E: Engine> BlockBuffer<E> {
    ghost use Rattle.job.specs.Buffers.{BufferFollows, CutsIntoBlocks, Feeds, Flushes, Switches};
    ghost use Rattle.job.specs.Runs.{AnswersCalls, AnswersIntoRow};
    ghost use Rattle.job.specs.declared.call.Call.TheVariants.{Feed, Switch};

    // One more byte waits, and the block that it fills is hashed.
    fn push(&mut self, byte: u8)
        ensures { CutsIntoBlocks E.Engine self.old (byte ∷ []) self.new }
    {
        self.pending.push(byte);
        if self.pending.is_full() {
            absorb_pending(&mut self.engine, &mut self.pending);
        }
    }

    // Byte after byte joins those that wait.
    fn hold(&mut self, piece: &[u8])
        ensures { CutsIntoBlocks E.Engine self.old piece.now self.new }
    {
        for byte in piece {
            self.push(*byte);
        }
    }

    // Up to 16 bytes: a whole block goes straight to the engine where no byte waits before it.
    fn take_block(&mut self, piece: &[u8])
        ensures { CutsIntoBlocks E.Engine self.old piece.now self.new }
    {
        if self.pending.is_empty() && piece.len() == 16 {
            self.engine.absorb(block_of(piece));
        } else {
            self.hold(piece);
        }
    }

    // Takes a piece of the part whole, or refuses it: first what the block that waits has room for, then 16 bytes at a time.
    pub(crate) fn feed(&mut self, piece: &[u8]) -> Answer
        ensures part { self.new.part ≡ self.old.part }
        ensures whole { Feeds E.Engine self.old piece.now result self.new }
        ensures holds { BufferFollows E.Engine self.old (Feed piece.entry) result self.new }
    {
        if piece.len() as u64 > self.part.limit() - self.count {
            return Err(self.part.too_long());
        }
        self.count += piece.len() as u64;
        let (first, rest) = piece.split_at(self.pending.remaining_capacity().min(piece.len()));
        self.hold(first);
        for block in rest.chunks(16) {
            self.take_block(block);
        }
        Ok(())
    }

    // Asks the engine to switch. What waits goes to the engine that runs then.
    pub(crate) fn switch(&mut self) -> Answer
        ensures whole { Switches E.Engine self.old result self.new }
        ensures holds { BufferFollows E.Engine self.old Switch result self.new }
    {
        self.engine.switch()
    }

    // Hashes what waits, filled with zeros, as at the end of a part.
    pub(crate) fn flush(&mut self)
        ensures { Flushes E.Engine self.old self.new }
    {
        if !self.pending.is_empty() {
            absorb_pending(&mut self.engine, &mut self.pending);
        }
    }

    // One call. The part stays, and with it the state that the job is in.
    fn answer(&mut self, call: &Call) -> Answer
        ensures part { self.new.part ≡ self.old.part }
        ensures answered { AnswersCalls E.Engine self.old
            (call.now ∷ []) (result ∷ []) self.new }
    {
        match call {
            Call::Feed(piece) => self.feed(piece),
            Call::Switch => self.switch(),
        }
    }

    // Every call in turn, also those that the row has no place for.
    pub(crate) fn answer_all(&mut self, calls: &[Call], row: &mut [Answer])
        ensures part { self.new.part ≡ self.old.part }
        ensures answered { AnswersIntoRow E.Engine self.old calls.now row.old self.new row.new }
    {
        for (place, call) in calls.iter().enumerate() {
            write(row, place, self.answer(call));
        }
    }
}
