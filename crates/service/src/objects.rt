// Objects, read one after another from a content that they borrow.
ghost use Rattle.std.specs.Prelude.{◌≡◌, ◌-◌, ◌≤◌, length};
ghost use Rattle.std.specs.Iterator.{at_most};
ghost use Rattle.service.specs.Laws.{Walked, ContentExact};
ghost use Rattle.service.specs.Objects.{value_at, value_seen, object_at, object_seen, seen, next_object, next_seen, counted, objects_of};

use crate::lengths::{Length, length_at};
use layout::{Reason, Refusal};

// An object with a tag of one byte or of two, the first of them the high one. Its data is a part of the content, and `next` is the offset after it.
// Each case has the fields of its own, since the project fixes this form of the answer.
#[derive(Drop)]
pub enum Object<'a> {
    OneByte {
        tag: u8,
        format: u8,
        data: &'a [u8],
        next: usize,
    },
    TwoByte {
        tag: u16,
        format: u8,
        data: &'a [u8],
        next: usize,
    },
}

// What an object's length counts: the format byte and the data; and the offset after them.
#[derive(Drop)]
pub struct Value<'a> {
    pub format: u8,
    pub data: &'a [u8],
    pub next: usize,
}

// The length at an offset and what it counts; none if that is nothing, or not all there.
fn value_at<'a>(content: &'a [u8], at: usize) -> Option<Value<'a>>
    ensures { value_seen result ≡ value_at content.now at }
{
    let Length { after, count } = length_at(content, at)?;
    let next = after + count;
    let (format, data) = content.get(after..next)?.split_first()?;
    Some(Value {
        format: *format,
        data,
        next,
    })
}

// The object at an offset; none if no whole object stands there.
#[tactic(auto, unfolding(crate::specs::Objects::object_at))]
fn object_at<'a>(content: &'a [u8], at: usize) -> Option<Object<'a>>
    ensures { object_seen result ≡ object_at content.now at }
{
    match (*content.get(at)?, content.get(at + 1)) {
        (0, _) => None,
        (tag, _) if tag & 0x1F != 0x1F => {
            let Value { format, data, next } = value_at(content, at + 1)?;
            Some(Object::OneByte {
                tag,
                format,
                data,
                next,
            })
        }
        (first, Some(second @ 0..=0x7F)) => {
            let Value { format, data, next } = value_at(content, at + 2)?;
            Some(Object::TwoByte {
                tag: u16::from_be_bytes([first, *second]),
                format,
                data,
                next,
            })
        }
        _ => None,
    }
}

// The object at an offset, or none at the end. Refused where no whole object stands.
// Content and offset stay two parameters, here and in what it calls, since the project fixes this form of the call.
#[tactic(auto, using(crate::proofs::Contents::walked))]
pub fn next_object<'a>(content: &'a [u8], at: usize) -> Result<Option<Object<'a>>, Refusal>
    ensures reads { next_seen result ≡ next_object content.now at }
    ensures walks { Walked content.now }
{
    if at == content.len() {
        return Ok(None);
    }
    let object = object_at(content, at).ok_or(Refusal::at(Reason::DataObject, at))?;
    Ok(Some(object))
}

impl Object<'_> {
    // The offset after the object.
    pub fn next(&self) -> usize
        ensures { result ≡ (seen self.now).next }
    {
        match self {
            Object::OneByte { next, .. } | Object::TwoByte { next, .. } => *next,
        }
    }
}

// The objects of a content from an offset on. They end after the last, or after the refusal of the first wrong one.
#[derive(Drop)]
struct ObjectsFrom<'a> {
    content: &'a [u8],
    at: usize,
    ghost inside: { at ≤ length content.now },
}

impl<'a> Iterator for ObjectsFrom<'a> {
    ghost use Rattle.service.specs.Walks.{Gives};

    type Item = Result<Object<'a>, Refusal>;

    ghost next_gives = { Gives };

    ghost remaining = { λ s. at_most (length s.content.now - s.at) };

    #[tactic(auto, using(crate::proofs::Counting::next_met, crate::proofs::Counting::next_wrong))]
    fn next(&mut self) -> Option<Result<Object<'a>, Refusal>> {
        match next_object(self.content, self.at) {
            Ok(None) => None,
            Ok(Some(object)) => {
                self.at = object.next();
                Some(Ok(object))
            }
            Err(wrong) => {
                self.at = self.content.len();
                Some(Err(wrong))
            }
        }
    }
}

// How many objects a content has. Refused at the first offset where no whole object stands.
#[tactic(auto, using(crate::proofs::Contents::content_exact, crate::proofs::Counting::progress_none, crate::proofs::Counting::progress_more, crate::proofs::Counting::progress_done, crate::proofs::Counting::progress_wrong))]
pub fn count_objects(content: &[u8]) -> Result<usize, Refusal>
    ensures value { result ≡ counted (objects_of content.now) }
    ensures exact { ContentExact content.now }
{
    let objects = ObjectsFrom { content, at: 0 };
    let mut count = 0;
    // a closure of try_fold would have to show that one more fits after any count
    for object in objects {
        object?;
        count += 1;
    }
    Ok(count)
}
