// Which service numbers a call takes.
ghost use Rattle.std.specs.Prelude.{◌≡◌};
ghost use Rattle.station.specs.Finds.{number_judged};

use layout::{Reason, Refusal};

// 0000 is no service.
pub(crate) const NOT_FINDABLE: [u16; 1] = [0x0000];

// Nor has 9999 data of its own to be read.
pub(crate) const NOT_READABLE: [u16; 2] = [0x0000, 0x9999];

// The number is none of those that a call does not take.
pub(crate) fn judge_number(number: u16, excepted: &[u16]) -> Result<(), Refusal>
    ensures { result ≡ number_judged excepted.now number }
{
    if excepted.contains(&number) {
        return Err(Refusal::at(Reason::ServiceNumber, 0));
    }
    Ok(())
}
