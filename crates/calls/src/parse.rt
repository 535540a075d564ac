// Lines as calls.
ghost use Rattle.std.specs.Prelude.{◌≡◌, ◌<◌, ◌^◌};
ghost use Rattle.calls.specs.Digits.{number_of};
ghost use Rattle.calls.specs.Lines.{passed_over, ended, find_of, read_of, call_of};

use crate::digits::Notation;
use crate::words::{Split, first_word};

// A call of a station.
#[derive(Clone, Copy, PartialEq, Eq, Debug)]
pub enum Call {
    Find { number: u16 },
    Read { number: u16, room: u16 },
    Lay,
}

// Four hexadecimal digits.
const SERVICE_NUMBER: Notation = Notation {
    base: 16,
    fewest: 4,
    longest: 4,
    most: 0xFFFF,
};

// A decimal of one to ten digits, at most 65535.
const ROOM: Notation = Notation {
    base: 10,
    fewest: 1,
    longest: 10,
    most: 0xFFFF,
};

// Whether a line is empty or a remark.
pub fn is_passed_over(line: &[u8]) -> bool
    ensures { result ≡ passed_over line.now }
{
    matches!(line, [] | [b'#', ..])
}

// The call that a line without blanks at its ends is: `find NNNN`, `read NNNN ROOM` or `lay`; none if it is no call.
pub fn parse_call(line: &[u8]) -> Option<Call>
    ensures { result ≡ call_of line.now }
{
    let Split { word, rest } = first_word(line);
    match word {
        b"find" => parse_find(rest),
        b"read" => parse_read(rest),
        b"lay" => ended(rest, Call::Lay),
        _ => None,
    }
}

#[tactic(auto, unfolding(crate::specs::Lines::find_of))]
fn parse_find(line: &[u8]) -> Option<Call>
    ensures { result ≡ find_of line.now }
{
    let Split { word, rest } = first_word(line);
    let number = short_number(word, SERVICE_NUMBER)?;
    ended(rest, Call::Find { number })
}

#[tactic(auto, unfolding(crate::specs::Lines::read_of))]
fn parse_read(line: &[u8]) -> Option<Call>
    ensures { result ≡ read_of line.now }
{
    let Split { word, rest } = first_word(line);
    let number = short_number(word, SERVICE_NUMBER)?;
    let Split { word, rest } = first_word(rest);
    let room = short_number(word, ROOM)?;
    ended(rest, Call::Read { number, room })
}

// A call, if nothing stands behind it.
fn ended(rest: &[u8], call: Call) -> Option<Call>
    ensures { result ≡ ended rest.now call }
{
    rest.is_empty().then_some(call)
}

// A number of at most 65535.
fn short_number(word: &[u8], notation: Notation) -> Option<u16>
    requires { notation.most < 2 ^ 16 }
    ensures { result ≡ number_of notation word.now }
{
    let number = notation.number_of(word)?;
    u16::try_from(number).ok()
}
