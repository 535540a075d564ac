// The listing of one card. Allocator and station stay two parameters: a struct of both would have to hold the station by `&mut` for the length of one call.
ghost use Rattle.std.specs.Prelude.{◌≡◌, ◌++◌, is_ok, IfOk, string_bytes};
ghost use Rattle.directory.specs.Checks.{verdict as verdict_of};
ghost use Rattle.directory.specs.Slots.{free_blocks};
ghost use Rattle.full_listing.specs.Records.{lines_of, verdict_lines, card_record};
ghost use Rattle.full_listing.specs.Steadily.{Wrote};
ghost use Rattle.text.specs.Lines.{free_line};

use crate::images::Listing;
use crate::services::slot_lines;
use card::Card;
use directory::{Directory, check_card};
use layout::Refusal;
use station::Station;
use std::alloc::{AllocError, Global};
use text::{free_line, profile_line, refused_line};

// What is said of the card on a station, if it does not leave.
pub(crate) fn card_listing<C: Card>(
    heap: Global,
    station: &mut Station<C>,
) -> Result<Listing, AllocError>
    ensures text { C.steady station.old.card → IfOk result (λ l. string_bytes l.text ≡ card_record station.old.profile (C.blocks station.old.card)) }
    ensures accepted { C.steady station.old.card → IfOk result (λ l. l.accepted ≡ is_ok (verdict_of station.old.profile (C.blocks station.old.card))) }
{
    let mut text = profile_line(heap, station.profile)?;
    let verdict = check_card(&mut station.card, station.profile);
    let accepted = verdict.is_ok();
    let lines = verdict_lines(heap, station, verdict)?;
    text.push_str(lines.as_str())?;
    Ok(Listing { text, accepted })
}

// The slots and the free blocks of an accepted card, or why it is refused.
fn verdict_lines<C: Card>(
    heap: Global,
    station: &mut Station<C>,
    verdict: Result<Directory, Refusal>,
) -> Result<String, AllocError>
    ensures { Wrote C.Card station.old station.new (λ p b. verdict_lines p b verdict) result }
{
    match verdict {
        Ok(directory) => directory_lines(heap, station, &directory),
        Err(refusal) => refused_line(heap, refusal.number()),
    }
}

// A line for each used slot, and then how many service blocks are free. `listing` has functions of this shape for lines that read nothing: here the station changes from slot to slot, and the contracts say how.
fn directory_lines<C: Card>(
    heap: Global,
    station: &mut Station<C>,
    directory: &Directory,
) -> Result<String, AllocError>
    ensures { Wrote C.Card station.old station.new (λ p b. lines_of p b directory.now 11 ++ free_line (free_blocks directory.now)) result }
{
    let mut text = slot_lines(heap, station, directory)?;
    let free = free_line(heap, directory.count_free())?;
    text.push_str(free.as_str())?;
    Ok(text)
}
