// How much of a part was gone through.

/// Blocks of one part, counted.
#[derive(Clone, Copy)]
pub(crate) struct Tally {
    pub(crate) blocks: usize,
    /// How many bytes of data they have.
    pub(crate) bytes: u64,
}

impl Tally {
    ghost use Rattle.std.specs.Prelude.{◌≡◌, ◌≤◌};
    ghost use Rattle.format.specs.Layout.{data_limit};
    ghost use Rattle.reading.specs.Scanning.{IsWithinFile, tally_with};

    /// Counts one more block, with this many bytes of data.
    pub(crate) fn add(&mut self, used: usize)
        requires within { IsWithinFile self.old }
        requires used { used ≤ data_limit }
        ensures { self.new ≡ tally_with self.old used }
    {
        self.blocks += 1;
        self.bytes += used as u64;
    }
}
