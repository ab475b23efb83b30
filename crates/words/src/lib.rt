// Lines and words in a text, and numbers in a word.
#![tactic(auto)]

ghost use Rattle.std.specs.Prelude.{◌≡◌, ◌==◌, ℕ, ◌^◌, ◌<◌, not, List, [], ◌∷◌, length, position, MatchOption};
ghost use Rattle.std.specs.List.{before_first, after_first};
ghost use Rattle.std.specs.Iterator.{YieldsFirstRef, item_count};
ghost use Rattle.std.specs.Str.{bytes_eq};
ghost use Rattle.words.specs.Cutting.{newline, lines, lines_left, blank, words, said, nothing_after, number_in};

use std::marker::Model;

// A number has at most so many digits.
const MOST_DIGITS: usize = 8;

// The lines of a text, up to its end.
#[derive(Drop)]
pub struct Lines<'a> {
    // nothing, once the last line is given
    rest: Option<&'a [u8]>,
}

impl<'a> Model for Lines<'a> {
    ghost Value = { List (List ℕ) };

    ghost view = { λ l. lines_left l.rest };
}

impl<'a> Iterator for Lines<'a> {
    type Item = &'a [u8];

    ghost next_gives = { YieldsFirstRef (λ left. left) };

    ghost remaining = { item_count (λ left. left) };

    fn next(&mut self) -> Option<&'a [u8]> {
        let text = self.rest?;
        let (line, rest) = cut_line(text);
        // no newline ends the last line
        self.rest = (line.len() < text.len()).then_some(rest);
        Some(line)
    }
}

impl<'a> Lines<'a> {
    pub fn new(text: &'a [u8]) -> Self
        ensures lines { result ≡ lines text.now }

        // A `usize` can number them.
        ensures fits { length result < 2 ^ 64 }
    {
        Lines { rest: Some(text) }
    }
}

// The words of a line, up to its end. Not one type with `Lines`: they share their shape alone, and each cuts in its own
// way.
#[derive(Drop)]
pub struct Words<'a> {
    rest: &'a [u8],
}

impl<'a> Model for Words<'a> {
    ghost Value = { List (List ℕ) };

    ghost view = { λ w. words w.rest.now };
}

impl<'a> Iterator for Words<'a> {
    type Item = &'a [u8];

    ghost next_gives = { YieldsFirstRef (λ left. left) };

    ghost remaining = { item_count (λ left. left) };

    fn next(&mut self) -> Option<&'a [u8]> {
        let (word, rest) = next_word(self.rest)?;
        self.rest = rest;
        Some(word)
    }
}

impl<'a> Words<'a> {
    pub fn new(line: &'a [u8]) -> Self
        ensures { result ≡ words line.now }
    {
        Words { rest: line }
    }

    // The value, if no word follows, or else this error.
    pub fn end<T: Drop, E: Drop>(mut self, value: T, extra: E) -> Result<T, E>
        ensures { result ≡ nothing_after extra value self.entry }
    {
        // a `match`: `map_or(Ok(value), |_| Err(extra))` hides which of the two comes when
        match self.next() {
            None => Ok(value),
            Some(_) => Err(extra),
        }
    }
}

// Where a byte first stands.
fn place_of(byte: u8, text: &[u8]) -> Option<usize>
    ensures { result ≡ position (λ b. b == byte) text.now }
{
    text.iter().position(|b| *b == byte)
}

// The first line, and what follows it.
pub fn cut_line(text: &[u8]) -> (&[u8], &[u8])
    ensures line { result.0.now ≡ before_first newline text.now }
    ensures rest { result.1.now ≡ after_first newline text.now }
{
    match place_of(b'\n', text) {
        Some(end) => (&text[..end], &text[end + 1..]),
        None => (text, &[]),
    }
}

// A line without its comment.
pub fn uncommented(line: &[u8]) -> &[u8]
    ensures { result.now ≡ said line.now }
{
    let end = place_of(b'#', line).unwrap_or(line.len());
    &line[..end]
}

// A space, a tab or a carriage return, which separate words.
fn is_blank(b: u8) -> bool
    ensures { result ≡ blank b }
{
    matches!(b, b' ' | b'\t' | b'\r')
}

// Where a word begins.
fn word_start(text: &[u8]) -> Option<usize>
    ensures { result ≡ position (λ b. not (blank b)) text.now }
{
    text.iter().position(|b| !is_blank(*b))
}

// Where the next word ends, if something follows it.
fn word_end(text: &[u8]) -> Option<usize>
    ensures { result ≡ position blank text.now }
{
    text.iter().position(|b| is_blank(*b))
}

// The first word, and what follows it.
pub fn next_word(text: &[u8]) -> Option<(&[u8], &[u8])>
    ensures { MatchOption result (words text.now ≡ []) (λ x. words text.now ≡ x.0.now ∷ words x.1.now) }
{
    let from = &text[word_start(text)?..];
    Some(from.split_at(word_end(from).unwrap_or(from.len())))
}

// The number that a word spells.
pub fn number(word: &[u8]) -> Option<u32>
    ensures { result ≡ number_in word.now }
{
    if word.is_empty() || word.len() > MOST_DIGITS {
        return None;
    }
    let mut n = 0u32;
    for b in word {
        if !b.is_ascii_digit() {
            return None;
        }
        n = n * 10 + u32::from(*b - b'0');
    }
    Some(n)
}

// Whether a word is the one that is meant.
pub fn is_word(word: &[u8], text: &[u8]) -> bool
    ensures { result ≡ bytes_eq word.now text.now }
{
    word == text
}
