// Why a card or an input is refused.
ghost use Rattle.std.specs.Prelude.{◌≡◌, Some};
ghost use Rattle.layout.specs.Refusals.{number_of, refusal, refusal_words};

use std::error::Error;
use std::fmt;

// The reasons, each with the number that is printed.
#[derive(Clone, Copy, PartialEq, Eq, Debug)]
pub enum Reason {
    // the profile is not one capital letter from A to E
    ProfileLetter = 1,
    // the card left the reader
    CardGone = 2,
    // the trailer of the application directory has another general purpose byte
    GeneralPurposeByte = 3,
    // the application directory does not have the checksum that it begins with
    MadChecksum = 4,
    // no sector, or more than one, carries the NSCP directory, or it may not stand there
    NscpSector = 5,
    // the NSCP directory does not have the checksum that it begins with
    NscpChecksum = 6,
    // the NSCP directory's header or an item of it is wrong
    NscpItem = 7,
    // the services directory is not named, or may not stand where it is
    ServicesSector = 8,
    // the services directory does not have the checksum that it begins with
    ServicesChecksum = 9,
    // the services directory's header or a slot of it is wrong
    ServicesSlot = 10,
    // a service's number is 0000, or one that the call does not take
    ServiceNumber = 11,
    // no slot has the service's number
    ServiceAbsent = 12,
    // service data has another outer tag, no length, or no mark and checksum where they should stand
    DataFrame = 13,
    // service data does not have the checksum that it ends with
    DataChecksum = 14,
    // no whole object stands where one should
    DataObject = 15,
    // a byte after service data is not 00
    DataPadding = 16,
    // the caller's buffer is shorter than the service's run
    BufferLength = 17,
    // an outer tag to be written is neither E0 nor 65
    OuterTag = 18,
    // content to be written is over 255 bytes long, or an object of it is wrong
    NewContent = 19,
    // an image is not 4,096 bytes long
    ImageSize = 28,
}

// A reason, and the place that it concerns: a block or an offset, 0 where there is none.
#[derive(Clone, Copy, PartialEq, Eq, Debug)]
pub struct Refusal {
    pub reason: Reason,
    pub place: usize,
}

impl Refusal {
    // The refusal for this reason at this place.
    pub fn at(reason: Reason, place: usize) -> Refusal
        ensures { result ≡ refusal reason place }
    {
        Refusal { reason, place }
    }

    // The number that is printed.
    pub fn number(self) -> u8
        ensures { result ≡ number_of self.reason }
    {
        // `as` reads the number that the enum declares
        self.reason as u8
    }
}

// `refused 12 at 0`: the number and the place.
impl fmt::Display for Refusal {
    ghost output = { λ refusal. Some (refusal_words refusal) };

    fn fmt<W: fmt::Write>(&self, f: &mut fmt::Formatter<W>) -> fmt::Result {
        write!(f, "refused {} at {}", self.number(), self.place)
    }
}

impl Error for Refusal {}
