// The whole listing.
ghost use Rattle.std.specs.Prelude.{◌≡◌, false, IfOk, Ok, Err, string_bytes};
ghost use Rattle.full_listing.specs.Records.{record_for, record_of, accepted_for, accepted as accepted_of};

use crate::cards::card_listing;
use crate::input::{Input, input_of};
use card::ImageCard;
use layout::Refusal;
use station::Station;
use std::alloc::{AllocError, Global};
use text::refused_line;

// The record's text, each line ended, and whether nothing is refused: neither the input nor the card. A flag beside the text and no `Result`, since the text is printed either way.
#[derive(Drop)]
pub struct Listing {
    pub text: String,
    pub accepted: bool,
}

// The listing of an image under a profile letter. The image's size is judged first, then the letter, then the card.
pub fn list(heap: Global, letter: &str, bytes: &[u8]) -> Result<Listing, AllocError>
    ensures text { IfOk result (λ l. string_bytes l.text ≡ record_of letter.now bytes.now) }
    ensures accepted { IfOk result (λ l. l.accepted ≡ accepted_of letter.now bytes.now) }
{
    match input_of(letter, bytes) {
        Ok(mut input) => image_listing(heap, &mut input),
        Err(refusal) => refused_listing(heap, refusal),
    }
}

// The listing of a card inside an image, which is lent, so that its 4,096 bytes are not copied.
fn image_listing(heap: Global, input: &mut Input) -> Result<Listing, AllocError>
    ensures text { IfOk result (λ l. string_bytes l.text ≡ record_for (Ok input.old)) }
    ensures accepted { IfOk result (λ l. l.accepted ≡ accepted_for (Ok input.old)) }
{
    let card = ImageCard::new(&mut input.image);
    let mut station = Station::new(input.profile, card, 0, 0);
    card_listing(heap, &mut station)
}

// The one line of an input that is refused.
fn refused_listing(heap: Global, refusal: Refusal) -> Result<Listing, AllocError>
    ensures text { IfOk result (λ l. string_bytes l.text ≡ record_for (Err refusal)) }
    ensures accepted { IfOk result (λ l. l.accepted ≡ false) }
{
    let text = refused_line(heap, refusal.number())?;
    Ok(Listing {
        text,
        accepted: false,
    })
}
