ghost use Rattle.std.specs.Prelude.{◌≡◌, ◌+◌, ◌^◌, ◌<◌, [], ◌∷◌, ◌==◌, length, IfSome, IfNone, MatchOption, count_by, position};
ghost use Rattle.std.specs.List.{join_with_byte};
ghost use Rattle.text_forms.specs.Words.{parts_of, words_of};

use std::marker::Model;

/// Returns the index of the first separator.
fn find(bytes: &[u8], separator: u8) -> Option<usize>
    ensures value { result ≡ position (λ b. b == separator) bytes.now }
    ensures bound { IfSome result (λ i. i < length bytes.now) }
{
    bytes.iter().position(|b| *b == separator)
}

/// Returns the number of separators.
fn count(bytes: &[u8], separator: u8) -> usize
    ensures value { result ≡ count_by (λ b. b == separator) bytes.now }
    ensures bound { result < 2 ^ 63 }
{
    bytes.iter().filter(|b| **b == separator).count()
}

/// Returns the bytes before the first separator and those after it, if there is a separator.
/// Either side can be empty.
pub fn cut(bytes: &[u8], separator: u8) -> Option<(&[u8], &[u8])>
    ensures whole { IfNone result (parts_of separator bytes.now ≡ bytes.now ∷ []) }
    ensures parts { IfSome result (λ x. parts_of separator bytes.now ≡ x.0.now ∷ parts_of separator x.1.now) }
    ensures len { IfSome result (λ x. length x.0.now + length x.1.now + 1 ≡ length bytes.now) }
{
    match find(bytes, separator) {
        None => None,
        Some(i) => Some((&bytes[..i], &bytes[i + 1..])),
    }
}

/// Returns the number of parts, empty ones included: one more than there are separators.
pub fn count_parts(bytes: &[u8], separator: u8) -> usize
    ensures { result ≡ length (parts_of separator bytes.now) }
{
    count(bytes, separator) + 1
}

/// The words of a line that are left to read. Exactly one space separates words, so there is an empty word between two
/// spaces, and an empty line is one empty word. Contracts see the list of the words.
#[derive(Debug, Drop)]
pub struct Words<'a> {
    rest: Option<&'a [u8]>,
}

impl<'a> Model for Words<'a> {
    ghost use Rattle.std.specs.Prelude.{ℕ, List, option_map};
    ghost use Rattle.text_forms.specs.Words.{words_left};

    ghost Value = { List (List ℕ) };

    ghost view = { λ w. words_left (option_map (λ r. r.now) w.rest) };
}

impl<'a> Words<'a> {
    /// Returns all words of a line.
    pub fn new(line: &'a [u8]) -> Self
        ensures { result ≡ words_of line.now }
    {
        Words { rest: Some(line) }
    }

    /// Returns how many words are left.
    pub fn count(&self) -> usize
        ensures { result ≡ length self.now }
    {
        match self.rest {
            None => 0,
            Some(line) => count_parts(line, b' '),
        }
    }

    /// Takes the next word, if one is left. Once it has returned `None`, it always does.
    pub fn next(&mut self) -> Option<&'a [u8]>
        ensures { MatchOption result ((self.old ≡ []) × (self.new ≡ [])) (λ word. self.old ≡ word.now ∷ self.new) }
    {
        match self.rest {
            None => None,
            Some(line) => match cut(line, b' ') {
                None => {
                    self.rest = None;
                    Some(line)
                }
                Some((word, rest)) => {
                    self.rest = Some(rest);
                    Some(word)
                }
            },
        }
    }

    /// Returns all bytes that are left, with the spaces between the words, if a word is left.
    pub fn rest(self) -> Option<&'a [u8]>
        ensures { MatchOption result (self.entry ≡ []) (λ rest. (self.entry ≡ words_of rest.now) × (rest.now ≡ join_with_byte 32 self.entry)) }
    {
        self.rest
    }
}
