// Read: a service's data.
ghost use Rattle.std.specs.Prelude.{◌≡◌, length};
ghost use Rattle.station.specs.Reads.{ReadDone};
ghost use Rattle.station.specs.Stations.{with_card};

use crate::frame::{Reading, frame_in, judge_room};
use crate::numbers::{NOT_READABLE, judge_number};
use crate::search::find_slot;
use crate::station::Station;
use card::Card;
use directory::{check_card, read_run};
use layout::Refusal;

impl<C: Card> Station<C> {
    // The data of a service, in the caller's buffer. Refused, in this order: number 0000 or 9999, the directory check, no such service, a short buffer, the card gone while the run is read, the frame.
    pub fn read(&mut self, number: u16, buffer: &mut [u8]) -> Result<Reading, Refusal>
        ensures read { ReadDone C.Card self.old.profile number self.old.card self.new.card buffer.old buffer.new result }
        ensures station { self.new ≡ with_card self.old self.new.card }
    {
        judge_number(number, &NOT_READABLE)?;
        let directory = check_card(&mut self.card, self.profile)?;
        let found = find_slot(&directory, number)?;
        judge_room(found.run, buffer.len())?;
        read_run(&mut self.card, found.run, buffer)?;
        frame_in(buffer, found.run.length)
    }
}
