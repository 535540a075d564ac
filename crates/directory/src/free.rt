// Service blocks that are in no slot's run.
ghost use Rattle.std.specs.Prelude.{◌≡◌, ◌≤◌};
ghost use Rattle.directory.specs.Entries.{slot_at};
ghost use Rattle.directory.specs.Searches.{any_of, count_of};
ghost use Rattle.directory.specs.Slots.{holds_block, free_block, free_blocks};

use crate::accepted::Directory;
use crate::slots::SLOTS;
use layout::{Block, Run};

impl Directory {
    // How many service blocks are in no run.
    pub fn count_free(&self) -> u16
        ensures { result ≡ free_blocks self.now }
    {
        self.count_free_among(256)
    }

    // How many of the first `n` blocks are free.
    #[tactic(auto, unfolding(crate::specs::Searches::count_of))]
    fn count_free_among(&self, n: u16) -> u16
        requires { n ≤ 256 }
        ensures { result ≡ count_of (free_block self.now) n }
    {
        // `as` twice: it is proved that nothing is lost. Over `0..=255u8`, with one `as` less, the proof did not close.
        (0..n).filter(|b| self.is_free(Block(*b as u8))).count() as u16
    }

    // Whether a block is a service block in no slot's run.
    #[tactic(auto, unfolding(crate::specs::Slots::free_block))]
    pub fn is_free(&self, block: Block) -> bool
        ensures { result ≡ free_block self.now block.0 }
    {
        self.is_service(block) && !self.is_taken(block)
    }

    // Whether a slot's run has the block.
    #[tactic(auto, unfolding(crate::specs::Searches::any_of))]
    fn is_taken(&self, block: Block) -> bool
        ensures { result ≡ any_of (λ i. holds_block block.0 (slot_at self.now.services.bytes i)) 11 }
    {
        (0..SLOTS).any(|i| self.holds(i, block))
    }

    fn holds(&self, i: u8, block: Block) -> bool
        ensures { result ≡ holds_block block.0 (slot_at self.now.services.bytes i) }
    {
        let one = Run {
            start: block,
            length: 1,
        };
        self.slot(i).is_some_and(|slot| slot.run.meets(one))
    }
}
