// The services directory's slots, and the blocks that hold services.
ghost use Rattle.std.specs.Prelude.{◌≡◌};
ghost use Rattle.layout.specs.Runs.{run_block};
ghost use Rattle.directory.specs.Entries.{item_at, slot_at};
ghost use Rattle.directory.specs.Searches.{any_of, lowest_of};
ghost use Rattle.directory.specs.Slots.{names, service_sector, service_block, no_service, slot_wrong, number_is, wrong_slot, share, shares_earlier, lower, header_clear, slots_judged};

use crate::accepted::{Directory, Nscp, Services};
use crate::entries::{Item, Slot, entry_of};
use crate::judge::judge_first;
use crate::nscp::ITEMS;
use layout::{Block, Reason, Refusal, Run, Sector};

// How many slots the services directory has.
pub const SLOTS: u8 = 11;

impl Directory {
    // Slot `i`, counted from 0; none where it is unused or past the last.
    pub fn slot(&self, i: u8) -> Option<Slot>
        ensures { result ≡ slot_at self.now.services.bytes i }
    {
        self.services.slot(i)
    }

    // Item `i`, counted from 0; none where it is unused or past the last.
    pub fn item(&self, i: u8) -> Option<Item>
        ensures { result ≡ item_at self.now.nscp.bytes i }
    {
        self.nscp.item(i)
    }

    // Whether a block is for services.
    #[tactic(auto, unfolding(crate::specs::Slots::service_block))]
    pub fn is_service(&self, block: Block) -> bool
        ensures { result ≡ service_block self.now block.0 }
    {
        let (sector, _) = block.place();
        !block.is_trailer() && self.is_service_sector(sector) && !self.nscp.is_named(block)
    }

    // Whether a sector is of the profile, not the NSCP's, and listed for services or not at all.
    fn is_service_sector(&self, sector: Sector) -> bool
        ensures { result ≡ service_sector self.now sector.0 }
    {
        self.applications.profile.has(sector)
            && sector != self.nscp.sector
            && !self.applications.is_listed_otherwise(sector)
    }

    // The first slot with this number, counted from 0.
    #[tactic(auto, unfolding(crate::specs::Searches::lowest_of))]
    pub fn first_numbered(&self, number: u16) -> Option<u8>
        ensures { result ≡ lowest_of (λ i. number_is number (slot_at self.now.services.bytes i)) 11 }
    {
        (0..SLOTS).find(|i| self.services.is_numbered(*i, number))
    }

    // The header of the services directory and then its slots, the lowest wrong one deciding.
    pub(crate) fn judge_slots(&self) -> Result<(), Refusal>
        ensures { result ≡ slots_judged self.now }
    {
        if !self.services.is_header_clear() {
            return Err(Refusal::at(Reason::ServicesSlot, 0));
        }
        let first = lower_of(self.first_wrong(), self.services.first_shared());
        judge_first(first, Reason::ServicesSlot)
    }

    // The lowest slot that is wrong by itself or has an earlier one's number.
    #[tactic(auto, unfolding(crate::specs::Searches::lowest_of))]
    fn first_wrong(&self) -> Option<u8>
        ensures { result ≡ lowest_of (wrong_slot self.now) 11 }
    {
        (0..SLOTS).find(|i| self.is_wrong_slot(*i))
    }

    #[tactic(auto, unfolding(crate::specs::Slots::wrong_slot))]
    fn is_wrong_slot(&self, i: u8) -> bool
        ensures { result ≡ wrong_slot self.now i }
    {
        self.slot(i).is_some_and(|slot| self.is_wrong(slot)
            || self.services.has_number(i, slot.number))
    }

    // Whether a slot is wrong by itself.
    #[tactic(auto, unfolding(crate::specs::Slots::slot_wrong))]
    fn is_wrong(&self, slot: Slot) -> bool
        ensures { result ≡ slot_wrong self.now slot }
    {
        slot.number == 0
            || slot.run.length == 0
            || !slot.run.is_on_card()
            || self.leaves_services(slot.run)
    }

    // Whether a block of the run is no service block.
    #[tactic(auto, unfolding(crate::specs::Searches::any_of))]
    fn leaves_services(&self, run: Run) -> bool
        ensures { result ≡ any_of (λ k. no_service self.now (run_block run.start.0 run.length k)) run.length }
    {
        (0..run.length).any(|k| self.is_no_service(run, k))
    }

    // Whether block `k` of the run is no service block, or not there.
    fn is_no_service(&self, run: Run, k: u8) -> bool
        ensures { result ≡ no_service self.now (run_block run.start.0 run.length k) }
    {
        run.block(k).is_none_or(|block| !self.is_service(block))
    }
}

impl Nscp {
    // Whether an item names the block, or its whole sector.
    #[tactic(auto, unfolding(crate::specs::Searches::any_of))]
    fn is_named(&self, block: Block) -> bool
        ensures { result ≡ any_of (λ i. names block.0 (item_at self.now.bytes i)) 23 }
    {
        (0..ITEMS).any(|i| self.names(i, block))
    }

    fn names(&self, i: u8, block: Block) -> bool
        ensures { result ≡ names block.0 (item_at self.now.bytes i) }
    {
        self.item(i).is_some_and(|item| {
            if item.names_sector() {
                item.block.place().0 == block.place().0
            } else {
                item.block == block
            }
        })
    }
}

impl Services {
    fn slot(&self, i: u8) -> Option<Slot>
        ensures { result ≡ slot_at self.now.bytes i }
    {
        entry_of::<Slot>(&self.bytes, i)
    }

    fn is_header_clear(&self) -> bool
        ensures { result ≡ header_clear self.now.bytes }
    {
        self.bytes[1] == 0 && self.bytes[2] == 0 && self.bytes[3] == 0
    }

    // Whether one of the first `n` slots has this number.
    #[tactic(auto, unfolding(crate::specs::Searches::any_of))]
    fn has_number(&self, n: u8, number: u16) -> bool
        ensures { result ≡ any_of (λ j. number_is number (slot_at self.now.bytes j)) n }
    {
        (0..n).any(|j| self.is_numbered(j, number))
    }

    fn is_numbered(&self, i: u8, number: u16) -> bool
        ensures { result ≡ number_is number (slot_at self.now.bytes i) }
    {
        self.slot(i).is_some_and(|slot| slot.number == number)
    }

    // The lowest slot that has a block in common with an earlier one. It ends at the first pair: the project fixes this form for comparing slots.
    #[tactic(auto, using(crate::proofs::Searching::any_past), unfolding(crate::specs::Searches::any_of, crate::specs::Searches::lowest_of))]
    fn first_shared(&self) -> Option<u8>
        ensures { result ≡ lowest_of (shares_earlier self.now.bytes) 11 }
    {
        'pairs: {
            for i in 0..SLOTS {
                for j in 0..i {
                    if self.do_share(i, j) {
                        break 'pairs Some(i);
                    }
                }
            }
            None
        }
    }

    fn do_share(&self, i: u8, j: u8) -> bool
        ensures { result ≡ share (slot_at self.now.bytes i) (slot_at self.now.bytes j) }
    {
        match (self.slot(i), self.slot(j)) {
            (Some(later), Some(earlier)) => later.run.meets(earlier.run),
            _ => false,
        }
    }
}

fn lower_of(a: Option<u8>, b: Option<u8>) -> Option<u8>
    ensures { result ≡ lower a b }
{
    match (a, b) {
        (Some(a), Some(b)) => Some(a.min(b)),
        (Some(a), None) => Some(a),
        (None, b) => b,
    }
}
