// The services directory: which item names it, and whether it may stand there.
ghost use Rattle.std.specs.Prelude.{◌≡◌};
ghost use Rattle.directory.specs.Entries.{item_at};
ghost use Rattle.directory.specs.Nscp.{tag_is};
ghost use Rattle.directory.specs.Searches.{any_of, lowest_of};
ghost use Rattle.directory.specs.Services.{listed_otherwise, item_tagged, names_in, misplaced, services_judged};

use crate::accepted::{Applications, Nscp};
use crate::entries::Item;
use crate::nscp::ITEMS;
use layout::{Block, Reason, Refusal, Sector};

// The application identifier of sectors that hold services.
const SERVICES: u16 = 0x4012;

// The tag of the item that names the services directory.
const DIRECTORY_TAG: u8 = 0xCF;

impl Applications {
    // The first block of the services directory, if it may stand where item CF puts it.
    pub(crate) fn services_block(&self, nscp: &Nscp) -> Result<Block, Refusal>
        ensures { result ≡ services_judged self.now.profile self.now.bytes nscp.now.sector.0 nscp.now.bytes }
    {
        let named = nscp.find_item(DIRECTORY_TAG);
        let block = named.ok_or(Refusal::at(Reason::ServicesSector, 0))?.block;
        if self.is_misplaced(nscp, block.place().0) {
            return Err(Refusal::at(Reason::ServicesSector, usize::from(block.0)));
        }
        Ok(block)
    }

    fn is_misplaced(&self, nscp: &Nscp, sector: Sector) -> bool
        ensures { result ≡ misplaced self.now.profile self.now.bytes nscp.now.sector.0 nscp.now.bytes sector.0 }
    {
        !self.profile.may_hold_services(sector)
            || sector == nscp.sector
            || self.is_listed_otherwise(sector)
            || nscp.is_named_by_others(sector)
    }

    // Whether the sector is listed, and not for services.
    pub(crate) fn is_listed_otherwise(&self, sector: Sector) -> bool
        ensures { result ≡ listed_otherwise self.now.profile self.now.bytes sector.0 }
    {
        let mad = self.profile.mad();
        let place = sector.0.checked_sub(mad.first_listed.0);
        place.is_some_and(|i| i < mad.listed && !self.has_aid(i, SERVICES))
    }
}

impl Nscp {
    // The first item with this tag.
    fn find_item(&self, tag: u8) -> Option<Item>
        ensures { result ≡ item_tagged self.now.bytes tag }
    {
        let i = self.first_tagged(tag)?;
        self.item(i)
    }

    #[tactic(auto, unfolding(crate::specs::Searches::lowest_of))]
    fn first_tagged(&self, tag: u8) -> Option<u8>
        ensures { result ≡ lowest_of (λ i. tag_is tag (item_at self.now.bytes i)) 23 }
    {
        (0..ITEMS).find(|i| self.is_tagged(*i, tag))
    }

    // Whether an item other than the services directory's own names a block of the sector.
    #[tactic(auto, unfolding(crate::specs::Searches::any_of))]
    fn is_named_by_others(&self, sector: Sector) -> bool
        ensures { result ≡ any_of (λ i. names_in sector.0 (item_at self.now.bytes i)) 23 }
    {
        (0..ITEMS).any(|i| self.names_in(i, sector))
    }

    fn names_in(&self, i: u8, sector: Sector) -> bool
        ensures { result ≡ names_in sector.0 (item_at self.now.bytes i) }
    {
        self.item(i).is_some_and(|item| item.tag != DIRECTORY_TAG && item.block.place().0 == sector)
    }
}
