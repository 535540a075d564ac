// The five profiles of citizen cards.
ghost use Rattle.std.specs.Prelude.{◌≡◌, Some};
ghost use Rattle.std.specs.Option.{ok_or};
ghost use Rattle.layout.specs.Profiles.{letter_of, profile_of, within, sectors_of, nscp_sectors, services_sectors, mad_of};
ghost use Rattle.layout.specs.Refusals.{refusal};

use crate::numbers::{Block, Sector};
use crate::refusals::{Reason, Refusal};
use crate::runs::Run;
use std::fmt;
use std::str::FromStr;

// Which sectors of a card belong to the scheme.
#[derive(Clone, Copy, PartialEq, Eq, Debug)]
pub enum Profile {
    A,
    B,
    C,
    D,
    E,
}

// A Mifare application directory, the MAD: its blocks, the trailer of its sector, the general purpose byte there, and the sectors that it lists.
#[derive(Clone, Copy, PartialEq, Eq, Debug)]
pub struct Mad {
    pub run: Run,
    pub trailer: Block,
    pub general_purpose_byte: u8,
    pub first_listed: Sector,
    pub listed: u8,
}

// The profile of a letter; refused unless it is one capital letter from A to E.
impl FromStr for Profile {
    type Err = Refusal;

    ghost use Rattle.layout.specs.declared.refusals.Reason.TheVariants.{ProfileLetter};

    ghost from_str_gives = { λ letter answer. answer ≡ ok_or (profile_of letter) (refusal ProfileLetter 0) };

    fn from_str(letter: &str) -> Result<Profile, Refusal> {
        match letter.as_bytes() {
            [b'A'] => Ok(Profile::A),
            [b'B'] => Ok(Profile::B),
            [b'C'] => Ok(Profile::C),
            [b'D'] => Ok(Profile::D),
            [b'E'] => Ok(Profile::E),
            _ => Err(Refusal::at(Reason::ProfileLetter, 0)),
        }
    }
}

// The profile's letter.
impl fmt::Display for Profile {
    ghost output = { λ profile. Some (letter_of profile) };

    fn fmt<W: fmt::Write>(&self, f: &mut fmt::Formatter<W>) -> fmt::Result {
        f.write_str(self.letter())
    }
}

impl Profile {
    // The profile's letter.
    pub fn letter(self) -> &'static str
        ensures value { result.now ≡ letter_of self }
        ensures back { profile_of result.now ≡ Some self }
    {
        match self {
            Profile::A => "A",
            Profile::B => "B",
            Profile::C => "C",
            Profile::D => "D",
            Profile::E => "E",
        }
    }

    // Whether the sector belongs to the profile.
    pub fn has(self, sector: Sector) -> bool
        ensures { result ≡ within (sectors_of self) sector.0 }
    {
        match self {
            Profile::A => matches!(sector.0, 1..=15),
            Profile::B => matches!(sector.0, 1..=15 | 25..=31),
            Profile::C => matches!(sector.0, 1..=15 | 32..=34 | 36..=38),
            Profile::D => matches!(sector.0, 17..=39),
            Profile::E => matches!(sector.0, 1..=15 | 32 | 36..=38),
        }
    }

    // Whether the NSCP directory may stand in the sector.
    pub fn may_hold_nscp(self, sector: Sector) -> bool
        ensures { result ≡ within (nscp_sectors self) sector.0 }
    {
        match self {
            Profile::D => matches!(sector.0, 17..=31),
            _ => matches!(sector.0, 1..=15),
        }
    }

    // Whether the services directory may stand in the sector.
    pub fn may_hold_services(self, sector: Sector) -> bool
        ensures { result ≡ within (services_sectors self) sector.0 }
    {
        match self {
            Profile::B => matches!(sector.0, 1..=15 | 25..=31),
            _ => self.may_hold_nscp(sector),
        }
    }

    // The profile's application directory: MAD2 for D, MAD1 for the others.
    pub fn mad(self) -> Mad
        ensures { result ≡ mad_of self }
    {
        match self {
            Profile::D => Mad {
                run: Run {
                    start: Block(64),
                    length: 3,
                },
                trailer: Block(67),
                general_purpose_byte: 0xC2,
                first_listed: Sector(17),
                listed: 23,
            },
            _ => Mad {
                run: Run {
                    start: Block(1),
                    length: 2,
                },
                trailer: Block(3),
                general_purpose_byte: 0xC1,
                first_listed: Sector(1),
                listed: 15,
            },
        }
    }
}
