// The words of a line.
ghost use Rattle.std.specs.Prelude.{◌≡◌, ◌≤◌, length, take};
ghost use Rattle.std.specs.List.{prefix_len, suffix_len};
ghost use Rattle.calls.specs.Words.{is_one_of, trimmed, trimmed_front, trimmed_end, word_length, rest_after};

// A word, and what follows it and the blanks after it.
#[derive(Drop)]
pub struct Split<'a> {
    pub word: &'a [u8],
    pub rest: &'a [u8],
}

// What stands between words, and what may stand at the ends of a line.
const BLANKS: &[u8] = b" \t";

const END_BLANKS: &[u8] = b" \t\r";

// The line without the blanks at both ends.
pub fn trim<'a>(line: &'a [u8]) -> &'a [u8]
    ensures { result.now ≡ trimmed line.now }
{
    let front = &line[..line.len() - count_behind(line, END_BLANKS)];
    &front[count_ahead(front, END_BLANKS)..]
}

// The first word of a line, and the rest. Both are empty where nothing is left.
pub fn first_word<'a>(line: &'a [u8]) -> Split<'a>
    ensures word { result.word.now ≡ take (word_length line.now) line.now }
    ensures rest { result.rest.now ≡ rest_after line.now }
{
    let (word, after) = line.split_at(word_length(line));
    Split {
        word,
        rest: &after[count_ahead(after, BLANKS)..],
    }
}

// How many bytes come before the first blank. This and the next two say that they are within the line, since a slice is cut by each.
fn word_length(line: &[u8]) -> usize
    ensures value { result ≡ word_length line.now }
    ensures within { result ≤ length line.now }
{
    line.iter()
        .take_while(|byte| !BLANKS.contains(*byte))
        .count()
}

// How many bytes at the front are of a set, and how many at the end.
fn count_ahead(line: &[u8], set: &[u8]) -> usize
    ensures value { result ≡ prefix_len (is_one_of set.now) line.now }
    ensures within { result ≤ length line.now }
{
    line.iter().take_while(|byte| set.contains(*byte)).count()
}

fn count_behind(line: &[u8], set: &[u8]) -> usize
    ensures value { result ≡ suffix_len (is_one_of set.now) line.now }
    ensures within { result ≤ length line.now }
{
    line.iter()
        .rev()
        .take_while(|byte| set.contains(*byte))
        .count()
}
