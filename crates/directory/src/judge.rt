// The first judgements of a card: the trailer of its application directory, and then that directory. Card and profile stay two parameters: the card is borrowed for each reading, and a profile is nothing of a card.
ghost use Rattle.std.specs.Prelude.{◌≡◌, ◌≤◌, true};
ghost use Rattle.layout.specs.Runs.{on_card};
ghost use Rattle.directory.specs.Judged.{trailer_judged, trailer_look, sealed_look, mad_look};
ghost use Rattle.directory.specs.Looks.{Taken};
ghost use Rattle.directory.specs.Searches.{first_judged};

use crate::reading::{read_block, read_run};
use crate::seal::is_sealed;
use card::Card;
use layout::{Profile, Reason, Refusal, Run};

// Where the general purpose byte stands in a trailer.
const GENERAL_PURPOSE: usize = 9;

// The first wrong place of a directory is refused, counted from 1. A `match`, since `map_or` with an `Err` in its closure is no plainer.
pub(crate) fn judge_first(first: Option<u8>, reason: Reason) -> Result<(), Refusal>
    ensures { result ≡ first_judged reason first }
{
    match first {
        Some(i) => Err(Refusal::at(reason, usize::from(i) + 1)),
        None => Ok(()),
    }
}

// The trailer's general purpose byte is the one of the profile's application directory.
pub(crate) fn judge_trailer(profile: Profile, trailer: &[u8; 16]) -> Result<(), Refusal>
    ensures { result ≡ trailer_judged profile trailer.now }
{
    let mad = profile.mad();
    if trailer[GENERAL_PURPOSE] != mad.general_purpose_byte {
        return Err(Refusal::at(Reason::GeneralPurposeByte, usize::from(mad.trailer.0)));
    }
    Ok(())
}

// Reads the application directory of a card: its trailer is judged first, then its seal.
#[tactic(auto, using(crate::proofs::MadPlaces::mad_on_card, crate::proofs::MadPlaces::mad_few))]
pub(crate) fn read_mad<C: Card>(card: &mut C, profile: Profile) -> Result<[u8; 48], Refusal>
    ensures { Taken C.Card (mad_look profile) card.old card.new result }
{
    read_trailer(card, profile)?;
    read_sealed(card, profile.mad().run, Reason::MadChecksum)
}

fn read_trailer<C: Card>(card: &mut C, profile: Profile) -> Result<(), Refusal>
    ensures { Taken C.Card (trailer_look profile) card.old card.new result }
{
    let trailer = read_block(card, profile.mad().trailer)?;
    judge_trailer(profile, &trailer)
}

// Reads a directory of at most three blocks, and refuses one that does not have its seal.
pub(crate) fn read_sealed<C: Card>(
    card: &mut C,
    run: Run,
    reason: Reason,
) -> Result<[u8; 48], Refusal>
    requires run { on_card run.start.0 run.length ≡ true }
    requires few { run.length ≤ 3 }
    ensures { Taken C.Card (sealed_look reason run.start.0 run.length) card.old card.new result }
{
    // fixed memory, for there is no heap here: a shorter directory is followed by zeros
    let mut bytes = [0u8; 48];
    read_run(card, run, &mut bytes)?;
    if !is_sealed(&bytes[0..16 * usize::from(run.length)]) {
        return Err(Refusal::at(reason, usize::from(run.start.0)));
    }
    Ok(bytes)
}
