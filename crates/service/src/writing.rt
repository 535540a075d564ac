// The frame of service data, written into the bytes of a run.
ghost use Rattle.std.specs.Prelude.{◌≡◌, [], ◌∷◌, length, is_ok, if◌then◌else◌, Ok};
ghost use Rattle.layout.specs.Buffers.{overlaid};
ghost use Rattle.layout.specs.Refusals.{then};
ghost use Rattle.service.specs.Frames.{write_judged, blocks_for, summed, frame_bytes};
ghost use Rattle.service.specs.Grammar.{covered};
ghost use Rattle.service.specs.Laws.{WriteSound};
ghost use Rattle.service.specs.Lengths.{short_length};

use crate::blocks::blocks_for;
use crate::frames::{MARK, is_outer_tag};
use crate::objects::count_objects;
use arrayvec::ArrayVec;
use layout::{Crc16, Reason, Refusal, checksum};

// The most bytes that a written run has: 17 blocks, for a content of 255 bytes.
pub const LONGEST_RUN: usize = 272;

// Writes the frame of a tag and a content at the front of a buffer, as whole blocks, and answers how many. Refused, with the buffer as it was, if the tag is no outer tag, or the content is over 255 bytes or has a wrong object. The caller lends the bytes, for there is no heap here.
pub fn write_frame(tag: u8, content: &[u8], run: &mut [u8; 272]) -> Result<u8, Refusal>
    ensures answer { result ≡ (then) (write_judged tag content.now) (λ _. Ok (blocks_for (length content.now))) }
    ensures buffer { run.new ≡ (if is_ok result then overlaid (frame_bytes tag content.now) run.old else run.old) }
    ensures sound { WriteSound tag content.now }
{
    let count = judge_new(tag, content)?;
    let blocks = blocks_for(count);
    let mut frame = ArrayVec::new();
    push_frame(&mut frame, tag, count, content);
    let end = frame.len();
    run[..end].copy_from_slice(frame.as_slice());
    run[end..16 * usize::from(blocks)].fill(0);
    Ok(blocks)
}

// Tag and content stay two parameters, as the call has them. The tag is an outer tag, the content is short enough and has no wrong object; answers the content's length.
fn judge_new(tag: u8, content: &[u8]) -> Result<u8, Refusal>
    ensures { result ≡ (then) (write_judged tag content.now) (λ _. Ok (length content.now)) }
{
    if !is_outer_tag(tag) {
        return Err(Refusal::at(Reason::OuterTag, 0));
    }
    let count = u8::try_from(content.len()).map_err(|_| Refusal::at(Reason::NewContent, 255))?;
    count_objects(content).map_err(|wrong| Refusal::at(Reason::NewContent, wrong.place))?;
    Ok(count)
}

// The bytes of a frame up to its padding, into an empty one that the caller has: as an answer its 272 bytes would be moved at each return.
fn push_frame(frame: &mut ArrayVec<u8, LONGEST_RUN>, tag: u8, count: u8, content: &[u8])
    requires empty { frame.old.items ≡ [] }
    requires count { count ≡ length content.now }
    ensures { frame.new.items ≡ summed (covered tag (short_length count) content.now) }
{
    push_header(frame, tag, count);
    frame.try_extend_from_slice(content).unwrap();
    frame.try_extend_from_slice(&MARK).unwrap();
    let sum = checksum::<Crc16>(frame.as_slice());
    frame.try_extend_from_slice(&sum.to_be_bytes()).unwrap();
}

// The outer tag and the shorter form of the length.
fn push_header(frame: &mut ArrayVec<u8, LONGEST_RUN>, tag: u8, count: u8)
    requires { frame.old.items ≡ [] }
    ensures { frame.new.items ≡ tag ∷ short_length count }
{
    frame.push(tag);
    if count > 0x7F {
        frame.push(0x81);
    }
    frame.push(count);
}
