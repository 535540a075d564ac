// Find: where a service is.
ghost use Rattle.std.specs.Prelude.{◌≡◌};
ghost use Rattle.directory.specs.Looks.{Taken};
ghost use Rattle.station.specs.Finds.{find_look};
ghost use Rattle.station.specs.Stations.{with_card};

use crate::numbers::{NOT_FINDABLE, judge_number};
use crate::search::{Found, find_slot};
use crate::station::Station;
use card::Card;
use directory::check_card;
use layout::Refusal;

impl<C: Card> Station<C> {
    // The slot and the run of a service. Refused, in this order: number 0000, the directory check, no such service.
    pub fn find(&mut self, number: u16) -> Result<Found, Refusal>
        ensures look { Taken C.Card (find_look self.old.profile number) self.old.card self.new.card result }
        ensures station { self.new ≡ with_card self.old self.new.card }
    {
        judge_number(number, &NOT_FINDABLE)?;
        let directory = check_card(&mut self.card, self.profile)?;
        find_slot(&directory, number)
    }
}
