// Data blocks by their rank.
ghost use Rattle.std.specs.Prelude.{◌≤◌, MatchOption};
ghost use Rattle.layout.specs.Blocks.{Ranked};

use crate::numbers::{Block, Rank};

impl Rank {
    // The data block of this rank; none past 215.
    pub fn block(self) -> Option<Block>
        ensures { MatchOption result (216 ≤ self.0) (λ b. Ranked b.0 self.0) }
    {
        match self.0 {
            k @ 0..=95 => Some(Block(k + k / 3)),
            k @ 96..=215 => {
                let past = k - 96;
                Some(Block(128 + past + past / 15))
            }
            _ => None,
        }
    }
}
