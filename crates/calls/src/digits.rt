// Numbers as a clerk writes them.
ghost use Rattle.std.specs.Prelude.{◌≡◌, ◌≤◌, IfSome};
ghost use Rattle.calls.specs.Digits.{digit_of, one_more, number_in, number_of};

// How a number is written: to which base, in how many digits at least and at most, and the largest that is taken.
#[derive(Clone, Copy, PartialEq, Eq, Debug)]
pub struct Notation {
    pub base: u64,
    pub fewest: usize,
    pub longest: usize,
    pub most: u64,
}

impl Notation {
    // The number in a word; none if it has fewer or more digits, another byte, or is larger than the most.
    pub fn number_of(self, word: &[u8]) -> Option<u64>
        ensures value { result ≡ number_of self word.now }
        ensures bound { IfSome result (λ n. n ≤ self.most) }
    {
        if !(self.fewest..=self.longest).contains(&word.len()) {
            return None;
        }
        number_in(word, self.base).filter(|value| *value <= self.most)
    }
}

// The number that digits to a base write; none if another byte stands among them, or it passes 64 bits.
fn number_in(word: &[u8], base: u64) -> Option<u64>
    ensures { result ≡ number_in base word.now }
{
    word.iter()
        .try_fold(0, |value, byte| one_more(value, *byte, base))
}

// A number with one digit more behind it.
fn one_more(value: u64, byte: u8, base: u64) -> Option<u64>
    ensures { result ≡ one_more base value byte }
{
    let digit = digit_of(byte).filter(|digit| *digit < base)?;
    value.checked_mul(base)?.checked_add(digit)
}

// What a digit counts, a letter of either case.
fn digit_of(byte: u8) -> Option<u64>
    ensures { result ≡ digit_of byte }
{
    char::from(byte).to_digit(16).map(|digit| u64::from(digit))
}
