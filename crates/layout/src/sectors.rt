// Sectors: 32 of 4 blocks, then 8 of 16. The last block of a sector is its trailer.
ghost use Rattle.std.specs.Prelude.{◌≡◌, ◌+◌, ◌-◌, if◌then◌else◌, Some, None, nat_lt};
ghost use Rattle.layout.specs.Blocks.{size_of, first_of, to_block};

use crate::numbers::{Block, Sector};

impl Sector {
    // How many sectors a card has.
    pub const COUNT: u8 = 40;

    // How many blocks the sector has, its trailer counted; none past the last sector.
    pub fn size(self) -> Option<u8>
        ensures { result ≡ (if nat_lt self.0 40 then Some (size_of self.0) else None) }
    {
        match self.0 {
            0..=31 => Some(4),
            32..=39 => Some(16),
            _ => None,
        }
    }

    // The first block of the sector; none past the last sector.
    pub fn first(self) -> Option<Block>
        ensures { result ≡ (if nat_lt self.0 40 then Some (to_block (first_of self.0)) else None) }
    {
        match self.0 {
            s @ 0..=31 => Some(Block(4 * s)),
            s @ 32..=39 => Some(Block(128 + 16 * (s - 32))),
            _ => None,
        }
    }

    // The trailer of the sector, its last block; none past the last sector.
    pub fn trailer(self) -> Option<Block>
        ensures { result ≡ (if nat_lt self.0 40 then Some (to_block (first_of self.0 + (size_of self.0 - 1))) else None) }
    {
        let first = self.first()?;
        let size = self.size()?;
        Some(Block(first.0 + (size - 1)))
    }
}
