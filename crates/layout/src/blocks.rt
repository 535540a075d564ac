// Blocks: where one lies, whether it is a trailer, and its rank.
ghost use Rattle.std.specs.Prelude.{◌≡◌, true, MatchOption};
ghost use Rattle.layout.specs.Blocks.{sector_of, position_of, LiesOnly, trailer, Ranked, to_sector};

use crate::numbers::{Block, Rank, Sector};

impl Block {
    // The block's sector, and the block's position there.
    pub fn place(self) -> (Sector, u8)
        ensures value { result ≡ (to_sector (sector_of self.0), position_of self.0) }
        ensures only { LiesOnly self.0 result.0.0 result.1 }
    {
        if self.0 < 128 {
            (Sector(self.0 / 4), self.0 % 4)
        } else {
            let past = self.0 - 128;
            (Sector(32 + past / 16), past % 16)
        }
    }

    // Whether the block is the last of its sector.
    pub fn is_trailer(self) -> bool
        ensures { result ≡ trailer self.0 }
    {
        let (sector, position) = self.place();
        sector.size() == Some(position + 1)
    }

    // How many data blocks lie below the block; none for a trailer.
    #[tactic(auto, using(crate::proofs::RankBlocks::ranked_here))]
    pub fn rank(self) -> Option<Rank>
        ensures { MatchOption result (trailer self.0 ≡ true) (λ k. Ranked self.0 k.0) }
    {
        if self.is_trailer() {
            return None;
        }
        let (sector, _) = self.place();
        Some(Rank(self.0 - sector.0))
    }
}
