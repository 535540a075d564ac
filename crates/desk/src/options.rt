// What the desk program is given.
ghost use Rattle.std.specs.Prelude.{◌≤◌, IfSome, length};

use calls::Notation;
use card::{Plan, Torn};
use hex::FromHex;

// The arguments, once they are understood. They are words of the command line.
#[derive(Clone, Copy)]
pub(crate) struct Options<'a> {
    pub letter: &'a str,
    pub path: &'a str,
    pub station: u32,
    pub last: u32,
    pub plan: Option<Plan>,
    pub save: Option<&'a str>,
}

// A decimal of one to ten digits that 32 bits hold.
const DECIMAL: Notation = Notation {
    base: 10,
    fewest: 1,
    longest: 10,
    most: 0xFFFF_FFFF,
};

impl<'a> Options<'a> {
    // The options in the words behind the program's name; none if they are not understood. No `TryFrom`, since there is no error to tell.
    pub(crate) fn from_words(words: &'a [String]) -> Option<Options<'a>> {
        let [letter, path, rest @ ..] = words else {
            return None;
        };
        let mut options = Options {
            letter: letter.as_str(),
            path: path.as_str(),
            station: 1,
            last: 0,
            plan: None,
            save: None,
        };
        let mut rest = rest;
        // each option takes as many words as it has values
        while let Some((name, values)) = rest.split_first() {
            rest = options.take(name.as_str(), values)?;
        }
        Some(options)
    }

    // Takes the values of one option, and answers the words behind them.
    fn take(&mut self, name: &str, words: &'a [String]) -> Option<&'a [String]>
        ensures { IfSome result (λ rest. length rest.now ≤ length words.now) }
    {
        if name == "--tear" {
            let [answers, torn, refusals, rest @ ..] = words else {
                return None;
            };
            self.plan = Some(Plan {
                answers: decimal(answers.as_str())?,
                torn: torn_of(torn.as_str())?,
                refusals: decimal(refusals.as_str())?,
            });
            return Some(rest);
        }
        let (value, rest) = words.split_first()?;
        match name {
            "--station" => self.station = decimal(value.as_str())?,
            "--last" => self.last = decimal(value.as_str())?,
            "--save" => self.save = Some(value.as_str()),
            _ => return None,
        }
        Some(rest)
    }
}

fn decimal(word: &str) -> Option<u32> {
    let number = DECIMAL.number_of(word.as_bytes())?;
    u32::try_from(number).ok()
}

// What a write that is broken off leaves: the old bytes, the new, or sixteen given ones.
fn torn_of(word: &str) -> Option<Torn> {
    match word {
        "old" => Some(Torn::Old),
        "new" => Some(Torn::New),
        _ => Some(Torn::Other(<[u8; 16]>::from_hex(word).ok()?)),
    }
}
