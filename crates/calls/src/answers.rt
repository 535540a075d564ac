// Answers as text.
ghost use Rattle.std.specs.Prelude.{◌≡◌, ◌++◌, IfOk, string_bytes, codes};
ghost use Rattle.calls.specs.Answers.{found_words, find_words, lay_words, reading_words, of_frame, touched, read_refused, read_words};

use card::Laid;
use layout::{Reason, Refusal, Run};
use station::{Found, Reading};
use std::alloc::{AllocError, Global};
use text::hex_bytes;

// What a buffer is filled with before a read.
pub const FILL: u8 = 0xEE;

// A line of the record: the line that was read, and its answer. The line is bytes and need not be text, so no `format!` can join them.
pub fn record_line(heap: Global, line: &[u8], answer: &str) -> Result<Vec<u8>, AllocError>
    ensures { IfOk result (λ v. v.items ≡ line.now ++ (codes ": " ++ (answer.now ++ codes "\n"))) }
{
    let mut text = Vec::from_slice(heap, line)?;
    text.extend_from_slice(b": ")?;
    text.extend_from_slice(answer.as_bytes())?;
    text.extend_from_slice(b"\n")?;
    Ok(text)
}

// `slot 1 run 0C 01`, or the refusal.
pub(crate) fn find_words(heap: Global, answer: Result<Found, Refusal>) -> Result<String, AllocError>
    ensures { IfOk result (λ s. string_bytes s ≡ find_words answer) }
{
    match answer {
        Ok(found) => found_words(heap, found),
        Err(refusal) => format!(in heap; "{refusal}"),
    }
}

#[tactic(auto, using(text::proofs::Written::hex_byte_written))]
fn found_words(heap: Global, found: Found) -> Result<String, AllocError>
    ensures { IfOk result (λ s. string_bytes s ≡ found_words found) }
{
    let Run { start, length } = found.run;
    format!(in heap; "slot {} run {:02X} {length:02X}", found.slot, start.0)
}

// `yes` or `no`: no `Display`, since the words are the record's and `Laid` is the card's
pub(crate) fn lay_words(laid: Laid) -> &'static str
    ensures { result.now ≡ lay_words laid }
{
    match laid {
        Laid::Yes => "yes",
        Laid::No => "no",
    }
}

// `tag E0 content 2 6 buffer E006..`, or the refusal, with the buffer if it was touched.
pub(crate) fn read_words(
    heap: Global,
    answer: Result<Reading, Refusal>,
    buffer: &[u8],
) -> Result<String, AllocError>
    ensures { IfOk result (λ s. string_bytes s ≡ read_words answer buffer.now) }
{
    match answer {
        Ok(reading) => reading_words(heap, reading, buffer),
        Err(refusal) => read_refused(heap, refusal, buffer),
    }
}

#[tactic(auto, using(text::proofs::Written::hex_byte_written))]
fn reading_words(heap: Global, reading: Reading, buffer: &[u8]) -> Result<String, AllocError>
    ensures { IfOk result (λ s. string_bytes s ≡ reading_words reading buffer.now) }
{
    let Reading {
        tag,
        start,
        length,
        ..
    } = reading;
    let bytes = hex_bytes(heap, buffer)?;
    format!(in heap; "tag {tag:02X} content {start} {length} buffer {bytes}")
}

fn read_refused(heap: Global, refusal: Refusal, buffer: &[u8]) -> Result<String, AllocError>
    ensures { IfOk result (λ s. string_bytes s ≡ read_refused refusal buffer.now) }
{
    if is_of_frame(refusal.reason) || is_touched(buffer) {
        let bytes = hex_bytes(heap, buffer)?;
        format!(in heap; "{refusal} buffer {bytes}")
    } else {
        format!(in heap; "{refusal}")
    }
}

// Whether the refusal comes after a whole run was read.
fn is_of_frame(reason: Reason) -> bool
    ensures { result ≡ of_frame reason }
{
    matches!(
        reason,
        Reason::DataFrame | Reason::DataChecksum | Reason::DataObject | Reason::DataPadding
    )
}

// Whether a byte of a buffer is no longer what it was filled with.
fn is_touched(buffer: &[u8]) -> bool
    ensures { result ≡ touched buffer.now }
{
    buffer.iter().any(|byte| *byte != FILL)
}
