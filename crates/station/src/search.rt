// The slot that has a service's number.
ghost use Rattle.std.specs.Prelude.{◌≡◌};
ghost use Rattle.station.specs.Finds.{found_in};

use directory::Directory;
use layout::{Reason, Refusal, Run};

// Where a service is: its slot, counted from 1, and its run.
#[derive(Clone, Copy, PartialEq, Eq, Debug)]
pub struct Found {
    pub slot: u8,
    pub run: Run,
}

// The first slot with this number; refused if there is none.
#[tactic(auto, using(directory::proofs::Searching::lowest_some), unfolding(crate::specs::Finds::found_in))]
pub(crate) fn find_slot(directory: &Directory, number: u16) -> Result<Found, Refusal>
    ensures { result ≡ found_in directory.now number }
{
    let absent = Refusal::at(Reason::ServiceAbsent, 0);
    let i = directory.first_numbered(number).ok_or(absent)?;
    let slot = directory.slot(i).ok_or(absent)?;
    Ok(Found {
        slot: i + 1,
        run: slot.run,
    })
}
