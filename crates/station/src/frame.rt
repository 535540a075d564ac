// The frame of a service's data at the front of a buffer.
ghost use Rattle.std.specs.Prelude.{◌≡◌, ◌*◌, ◌≤◌, length, take};
ghost use Rattle.station.specs.Reads.{room_judged, reading_in};

use layout::{Reason, Refusal, Run};
use service::read_frame;

// What was read of a service: its outer tag, the offset and the length of its content in the buffer, and how many objects that has.
#[derive(Clone, Copy, PartialEq, Eq, Debug)]
pub struct Reading {
    pub tag: u8,
    pub start: usize,
    pub length: usize,
    pub objects: usize,
}

// The buffer holds the run; else the place is how many bytes are needed.
pub(crate) fn judge_room(run: Run, room: usize) -> Result<(), Refusal>
    ensures { result ≡ room_judged run.length room }
{
    let need = 16 * usize::from(run.length);
    if room < need {
        return Err(Refusal::at(Reason::BufferLength, need));
    }
    Ok(())
}

// The frame in the first blocks of a buffer.
pub(crate) fn frame_in(buffer: &[u8], blocks: u8) -> Result<Reading, Refusal>
    requires { 16 * blocks ≤ length buffer.now }
    ensures { result ≡ reading_in (take (16 * blocks) buffer.now) }
{
    let end = 16 * usize::from(blocks);
    let frame = read_frame(&buffer[0..end])?;
    Ok(Reading {
        tag: frame.tag,
        start: frame.start,
        length: frame.content.len(),
        objects: frame.objects,
    })
}
