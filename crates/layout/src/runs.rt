// Runs of data blocks.
ghost use Rattle.std.specs.Prelude.{◌≡◌, ◌+◌, ◌<◌, ◌&&◌, Decides, nat_lt};
ghost use Rattle.std.specs.Option.{option_map};
ghost use Rattle.layout.specs.Blocks.{to_block};
ghost use Rattle.layout.specs.Runs.{run_block, on_card, OnCard, runs_meet, Shared};

use crate::numbers::{Block, Rank};

// A run: `length` data blocks of consecutive ranks, the first of them `start`. Trailers in between are passed over and not counted.
#[derive(Clone, Copy, PartialEq, Eq, Debug)]
pub struct Run {
    pub start: Block,
    pub length: u8,
}

// How many data blocks a card has: ranks go from 0 to 215.
const DATA_BLOCKS: u16 = 216;

impl Run {
    // Block `i` of the run, counted from 0; none past its length or past the last rank, or if it starts at a trailer.
    #[tactic(auto, using(crate::proofs::RankBlocks::past_block, crate::proofs::RankBlocks::ranked_block), unfolding(crate::specs::Runs::run_block))]
    pub fn block(self, i: u8) -> Option<Block>
        ensures { result ≡ option_map to_block (run_block self.start.0 self.length i) }
    {
        if i >= self.length {
            return None;
        }
        let first = self.start.rank()?;
        let rank = first.0.checked_add(i)?;
        Rank(rank).block()
    }

    // Whether the run starts at a data block and stays within the last rank.
    #[tactic(auto, unfolding(crate::specs::Runs::on_card))]
    pub fn is_on_card(self) -> bool
        ensures value { result ≡ on_card self.start.0 self.length }
        ensures each { Decides result (OnCard self.start.0 self.length) }
    {
        // a `match`, since with `is_some_and` the proof did not close
        match self.start.rank() {
            Some(first) => u16::from(first.0) + u16::from(self.length) <= DATA_BLOCKS,
            None => false,
        }
    }

    // Whether the two runs have a rank in common; of runs on the card that are not empty, whether they have a block in common.
    #[tactic(auto, unfolding(crate::specs::Runs::runs_meet))]
    pub fn meets(self, other: Run) -> bool
        ensures value { result ≡ runs_meet self.start.0 self.length other.start.0 other.length }
        ensures shared { OnCard self.start.0 self.length → OnCard other.start.0 other.length → 0 < self.length → 0 < other.length → Decides result (Shared self.start.0 self.length other.start.0 other.length) }
    {
        let Some(a) = self.start.rank() else {
            return false;
        };
        let Some(b) = other.start.rank() else {
            return false;
        };
        meet(a, self.length, b, other.length)
    }
}

fn meet(a: Rank, m: u8, b: Rank, n: u8) -> bool
    ensures { result ≡ (nat_lt a.0 (b.0 + n) && nat_lt b.0 (a.0 + m)) }
{
    u16::from(a.0) < u16::from(b.0) + u16::from(n) && u16::from(b.0) < u16::from(a.0) + u16::from(m)
}
