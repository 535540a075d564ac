// The lines of a card's services.
ghost use Rattle.std.specs.Prelude.{◌≡◌, IfOk, Ok, string_bytes};
ghost use Rattle.full_listing.specs.Records.{service_line, reading_words, slot_line, lines_of};
ghost use Rattle.full_listing.specs.Steadily.{Answered, Wrote};

use card::Card;
use directory::{Directory, SLOTS, Slot};
use layout::Refusal;
use station::{Reading, Station};
use std::alloc::{AllocError, Global};
use text::{refused_line, slot_words};

// How many bytes a buffer has that holds any run. A fixed one spares each reading an allocation that could fail.
const ANY_RUN: usize = 4096;

// A line for each used slot.
#[tactic(auto, unfolding(crate::specs::Records::lines_of))]
pub(crate) fn slot_lines<C: Card>(
    heap: Global,
    station: &mut Station<C>,
    directory: &Directory,
) -> Result<String, AllocError>
    ensures { Wrote C.Card station.old station.new (λ p b. lines_of p b directory.now 11) result }
{
    let mut text = String::new(heap);
    for i in 0..SLOTS {
        let line = slot_text(heap, station, directory.slot(i))?;
        text.push_str(line.as_str())?;
    }
    Ok(text)
}

// The line of a slot, or nothing if it is unused.
fn slot_text<C: Card>(
    heap: Global,
    station: &mut Station<C>,
    slot: Option<Slot>,
) -> Result<String, AllocError>
    ensures { Wrote C.Card station.old station.new (λ p b. slot_line p b slot) result }
{
    match slot {
        Some(slot) => {
            let reading = read_service(station, slot.number);
            service_line(heap, slot, reading)
        }
        None => Ok(String::new(heap)),
    }
}

// Reads a service, whatever the length of its run.
fn read_service<C: Card>(station: &mut Station<C>, number: u16) -> Result<Reading, Refusal>
    ensures { Answered C.Card number station.old station.new result }
{
    let mut buffer = [0u8; ANY_RUN];
    station.read(number, &mut buffer)
}

// `1234 0C 01 E0 1`, or `1234 0C 01 refused 14`.
fn service_line(
    heap: Global,
    slot: Slot,
    reading: Result<Reading, Refusal>,
) -> Result<String, AllocError>
    ensures { IfOk result (λ s. string_bytes s ≡ service_line slot reading) }
{
    let words = slot_words(heap, slot)?;
    let answer = reading_words(heap, reading)?;
    format!(in heap; "{words} {answer}")
}

fn reading_words(heap: Global, reading: Result<Reading, Refusal>) -> Result<String, AllocError>
    ensures { IfOk result (λ s. string_bytes s ≡ reading_words reading) }
{
    match reading {
        Ok(reading) => tag_words(heap, reading),
        Err(refusal) => refused_line(heap, refusal.number()),
    }
}

#[tactic(auto, using(text::proofs::Written::hex_byte_written))]
fn tag_words(heap: Global, reading: Reading) -> Result<String, AllocError>
    ensures { IfOk result (λ s. string_bytes s ≡ reading_words (Ok reading)) }
{
    let Reading { tag, objects, .. } = reading;
    format!(in heap; "{tag:02X} {objects}\n")
}
