// Lines of a record.
ghost use Rattle.std.specs.Prelude.{◌≡◌, IfOk, string_bytes};
ghost use Rattle.layout.specs.Profiles.{letter_of};
ghost use Rattle.text.specs.Lines.{profile_line, refused_line, free_line, slot_words};

use directory::Slot;
use layout::{Profile, Run};
use std::alloc::{AllocError, Global};

// `profile A`
pub fn profile_line(heap: Global, profile: Profile) -> Result<String, AllocError>
    ensures { IfOk result (λ s. string_bytes s ≡ profile_line (letter_of profile)) }
{
    format!(in heap; "profile {profile}\n")
}

// `refused 4`, by the number of a refusal. A number and no `Reason`, since a narrower type would ask more of callers.
pub fn refused_line(heap: Global, number: u8) -> Result<String, AllocError>
    ensures { IfOk result (λ s. string_bytes s ≡ refused_line number) }
{
    format!(in heap; "refused {number}\n")
}

// `free 38`
pub fn free_line(heap: Global, count: u16) -> Result<String, AllocError>
    ensures { IfOk result (λ s. string_bytes s ≡ free_line count) }
{
    format!(in heap; "free {count}\n")
}

// `1234 0C 01`: a slot's number, and the start and the length of its run. No `Display` of `Slot`: in an `fmt`, which has the slot behind a reference, the proof does not know that the fields of its run are bytes.
#[tactic(auto, using(crate::proofs::Written::hex_byte_written), unfolding(crate::specs::Lines::slot_words))]
pub fn slot_words(heap: Global, slot: Slot) -> Result<String, AllocError>
    ensures { IfOk result (λ s. string_bytes s ≡ slot_words slot) }
{
    let [high, low] = slot.number.to_be_bytes();
    let Run { start, length } = slot.run;
    format!(in heap; "{high:02X}{low:02X} {:02X} {length:02X}", start.0)
}
