// The frame of service data, read from the bytes of a run.
ghost use Rattle.std.specs.Prelude.{◌≡◌, ◌+◌, ◌≤◌, true, length};
ghost use Rattle.service.specs.Frames.{outer, header_of, end_judged, padding_judged, used, frame_of, frame_seen};
ghost use Rattle.std.specs.List.{position};
ghost use Rattle.service.specs.Laws.{FrameExact, OneAlteredByte};

use crate::lengths::{Length, length_at};
use crate::objects::count_objects;
use layout::{Crc16, Reason, Refusal, checksum};

// The mark before the checksum.
pub(crate) const MARK: [u8; 2] = [0xC0, 0x02];

// A frame: its outer tag, the offset of its content in the run, that content, a part of the run, and how many objects it has.
#[derive(Drop)]
pub struct Frame<'a> {
    pub tag: u8,
    pub start: usize,
    pub content: &'a [u8],
    pub objects: usize,
}

// What a run begins with: the outer tag, and where the content begins and ends.
#[derive(Clone, Copy)]
pub struct Header {
    pub tag: u8,
    pub start: usize,
    pub end: usize,
}

// The frame in the bytes of a run. Refused, in this order: tag or length, mark, checksum, objects, padding.
#[tactic(auto, using(crate::proofs::FrameForms::frame_exact, crate::proofs::OneAltered::one_altered), unfolding(crate::specs::Frames::frame_in))]
pub fn read_frame<'a>(run: &'a [u8]) -> Result<Frame<'a>, Refusal>
    ensures reads { frame_seen result ≡ frame_of run.now }
    ensures exact { FrameExact run.now }
    ensures altered { OneAlteredByte run.now }
{
    let Header { tag, start, end } = read_header(run)?;
    judge_end(run, end)?;
    let content = &run[start..end];
    let objects = count_objects(content)?;
    judge_padding(run, end + 4)?;
    Ok(Frame {
        tag,
        start,
        content,
        objects,
    })
}

// Whether a byte is an outer tag.
pub(crate) fn is_outer_tag(tag: u8) -> bool
    ensures { result ≡ outer tag }
{
    matches!(tag, 0xE0 | 0x65)
}

// The outer tag and the length.
fn read_header(run: &[u8]) -> Result<Header, Refusal>
    ensures { result ≡ header_of run.now }
{
    let tag = match run {
        [tag, ..] if is_outer_tag(*tag) => *tag,
        _ => return Err(Refusal::at(Reason::DataFrame, 0)),
    };
    let Length { after, count } = length_at(run, 1).ok_or(Refusal::at(Reason::DataFrame, 1))?;
    Ok(Header {
        tag,
        start: after,
        end: after + count,
    })
}

// The mark and the checksum stand at the end of the content.
fn judge_end(run: &[u8], end: usize) -> Result<(), Refusal>
    ensures { result ≡ end_judged run.now end }
{
    // the bytes of MARK, since a pattern cannot name a part of a constant
    let Some([0xC0, 0x02, high, low, ..]) = run.get(end..) else {
        return Err(Refusal::at(Reason::DataFrame, end));
    };
    if u16::from_be_bytes([*high, *low]) != checksum::<Crc16>(&run[..end + 2]) {
        return Err(Refusal::at(Reason::DataChecksum, end + 2));
    }
    Ok(())
}

// Every byte from an offset on is 00. A `match`, since `map_or` with an `Err` in its closure is no plainer.
fn judge_padding(run: &[u8], from: usize) -> Result<(), Refusal>
    requires { from ≤ length run.now }
    ensures { result ≡ padding_judged run.now from }
{
    match first_used(&run[from..]) {
        Some(after) => Err(Refusal::at(Reason::DataPadding, from + after)),
        None => Ok(()),
    }
}

// The place of the first byte that is not 00.
fn first_used(bytes: &[u8]) -> Option<usize>
    ensures { result ≡ position used bytes.now }
{
    bytes.iter().position(|byte| *byte != 0)
}
