// What the lister says of a card image: judged as a value, and written as text.
#![tactic(auto)]

ghost use Rattle.std.specs.Prelude.{◌≡◌, ◌++◌, IfOk, string_bytes};
ghost use Rattle.card.specs.Blocks.{blocks_of};
ghost use Rattle.directory.specs.Checks.{verdict as verdict_of};
ghost use Rattle.directory.specs.Slots.{free_blocks};
ghost use Rattle.listing.specs.Records.{listed, accepted, slot_line, slot_lines, lines_of, verdict_lines, card_record, record_of};
ghost use Rattle.text.specs.Lines.{free_line};

use card::ImageCard;
use directory::{Directory, SLOTS, Slot, check_card};
use layout::{Image, Profile, Refusal, image_of};
use std::alloc::{AllocError, Global};
use text::{free_line, profile_line, refused_line, slot_words};

// A card of a profile, and its directories or why it is refused.
#[derive(Clone, Copy)]
pub struct Listing {
    pub profile: Profile,
    pub verdict: Result<Directory, Refusal>,
}

// The listing of an image under a profile letter, or why one of the two is refused: the image's size comes first.
pub fn list(letter: &str, bytes: &[u8]) -> Result<Listing, Refusal>
    ensures { result ≡ listed letter.now bytes.now }
{
    let mut image = image_of(bytes)?;
    let profile = letter.parse::<Profile>()?;
    let verdict = judge(&mut image, profile);
    Ok(Listing { profile, verdict })
}

// Judges the card in an image.
fn judge(image: &mut Image, profile: Profile) -> Result<Directory, Refusal>
    ensures { result ≡ verdict_of profile (blocks_of image.old) }
{
    let mut card = ImageCard::new(image);
    check_card(&mut card, profile)
}

// Whether nothing is refused: neither the input nor the card.
pub fn is_accepted(listing: &Result<Listing, Refusal>) -> bool
    ensures { result ≡ accepted listing.now }
{
    listing.as_ref().is_ok_and(|card| card.verdict.is_ok())
}

// The record's text, each line ended.
pub fn record_of(heap: Global, listing: &Result<Listing, Refusal>) -> Result<String, AllocError>
    ensures { IfOk result (λ s. string_bytes s ≡ record_of listing.now) }
{
    match listing {
        Ok(card) => card_record(heap, card),
        Err(refusal) => refused_line(heap, refusal.number()),
    }
}

// What is said of a card that was judged.
fn card_record(heap: Global, card: &Listing) -> Result<String, AllocError>
    ensures { IfOk result (λ s. string_bytes s ≡ card_record card.now) }
{
    let mut text = profile_line(heap, card.profile)?;
    let lines = verdict_lines(heap, &card.verdict)?;
    text.push_str(lines.as_str())?;
    Ok(text)
}

fn verdict_lines(heap: Global, verdict: &Result<Directory, Refusal>) -> Result<String, AllocError>
    ensures { IfOk result (λ s. string_bytes s ≡ verdict_lines verdict.now) }
{
    match verdict {
        Ok(directory) => directory_lines(heap, directory),
        Err(why) => refused_line(heap, why.number()),
    }
}

// A line for each used slot, and then how many service blocks are free. The fuller listing has functions of this shape of its own: there the station changes from slot to slot, and the contracts say how.
fn directory_lines(heap: Global, directory: &Directory) -> Result<String, AllocError>
    ensures { IfOk result (λ s. string_bytes s ≡ lines_of directory.now.services.bytes 11 ++ free_line (free_blocks directory.now)) }
{
    let mut text = slot_lines(heap, directory)?;
    let free = free_line(heap, directory.count_free())?;
    text.push_str(free.as_str())?;
    Ok(text)
}

#[tactic(auto, unfolding(crate::specs::Records::lines_of))]
fn slot_lines(heap: Global, directory: &Directory) -> Result<String, AllocError>
    ensures { IfOk result (λ s. string_bytes s ≡ lines_of directory.now.services.bytes 11) }
{
    let mut text = String::new(heap);
    for i in 0..SLOTS {
        let line = slot_text(heap, directory.slot(i))?;
        text.push_str(line.as_str())?;
    }
    Ok(text)
}

// The line of a slot, or nothing if it is unused.
fn slot_text(heap: Global, slot: Option<Slot>) -> Result<String, AllocError>
    ensures { IfOk result (λ s. string_bytes s ≡ slot_lines slot) }
{
    match slot {
        Some(slot) => slot_line(heap, slot),
        None => Ok(String::new(heap)),
    }
}

#[tactic(auto, unfolding(crate::specs::Records::slot_line))]
fn slot_line(heap: Global, slot: Slot) -> Result<String, AllocError>
    ensures { IfOk result (λ s. string_bytes s ≡ slot_line slot) }
{
    let words = slot_words(heap, slot)?;
    format!(in heap; "{words}\n")
}
