ghost use Rattle.std.specs.Prelude.{◌≡◌, ℕ, ◌+◌, ◌^◌, ◌<◌, ◌≤◌, ◌&&◌, length, true, false, Ok, Some, None, IfSome, MatchOption};
ghost use Rattle.text_forms.specs.Blocks.{BeginsWithBlock, IsFirstKept, block_at};
ghost use Rattle.text_forms.specs.Lines as lines;
ghost use Rattle.text_forms.specs.Steps.{◌>>=◌ as and_then};
ghost use Rattle.text_forms.specs.Words.{parts_of};

use crate::cut;
use std::marker::Model;

/// Why a line is bad. A refusal shows the number of the variant.
#[derive(Clone, Copy, Debug, PartialEq, Eq)]
pub enum Reason {
    /// The first word is not the expected one.
    Keyword = 1,
    /// There are too few or too many words; an empty word counts.
    WordCount = 2,
    /// A later word is not spelled as its place requires, for example a numeral with a leading zero.
    Spelling = 3,
    /// A number is outside the range of its place.
    OutOfRange = 4,
    /// A number that counts lines of a kind is not the next one.
    NotDue = 5,
    /// Two words or numbers that must differ are equal.
    Repeated = 6,
    /// The text ends before or within this line, or does not end after its last line.
    TextEnd = 7,
}

impl Reason {
    /// Returns the number that a refusal shows, 1 to 7.
    pub fn number(self) -> u8
        ensures { result ≡ lines.reason_number self }
    {
        self as u8
    }
}

/// The first bad line of a text, with the first reason that applies to it.
#[derive(Clone, Copy, Debug, PartialEq, Eq)]
pub struct BadLine {
    /// The number of the line, counted from 1. Comments and empty lines count.
    pub line: u32,
    pub reason: Reason,
}

/// Where a text ends.
#[derive(Clone, Copy, Debug, PartialEq, Eq)]
pub struct Ending {
    /// The number of the line after the last line end.
    pub line: u32,
    /// Whether that line is empty, so that the last line has its line end.
    pub whole: bool,
}

/// A line without its line end, with its number.
#[derive(Debug, Drop)]
pub struct NumberedLine<'a> {
    number: u32,
    bytes: &'a [u8],
}

impl<'a> Model for NumberedLine<'a> {
    ghost use Rattle.text_forms.specs.Lines as lines;

    ghost Value = { lines.NumberedLine };

    ghost view = { λ l. record { number = l.number; bytes = l.bytes.now } };
}

impl<'a> NumberedLine<'a> {
    /// Returns the number of the line, counted from 1. Comments and empty lines count.
    pub fn number(&self) -> u32
        ensures { result ≡ self.now.number }
    {
        self.number
    }

    /// Returns the bytes of the line, without its line end.
    pub fn bytes(&self) -> &'a [u8]
        ensures { result.now ≡ self.now.bytes }
    {
        self.bytes
    }
}

/// The lines of a text that are left to read.
#[derive(Debug, Drop)]
pub struct TextLines<'a> {
    skips_comments: bool,
    number: u32,
    rest: &'a [u8],
}

impl<'a> Model for TextLines<'a> {
    ghost use Rattle.std.specs.Prelude.{◌+◌, ◌^◌, ◌<◌, length};
    ghost use Rattle.text_forms.specs.Lines as lines;
    ghost use Rattle.text_forms.specs.Words.{parts_of};

    ghost Value = { lines.Remaining };

    ghost view = { λ l. lines.lines_from l.skips_comments l.number (parts_of 10 l.rest.now) };

    ghost invariant = { λ l. l.number + length l.rest.now < 2 ^ 32 };
}

impl<'a> TextLines<'a> {
    /// Returns all lines of a text.
    pub fn new(text: &'a [u8]) -> Self
        requires { length text.now < 2 ^ 31 }
        ensures { result ≡ lines.lines_from false 1 (parts_of 10 text.now) }
    {
        TextLines {
            skips_comments: false,
            number: 1,
            rest: text,
        }
    }

    /// Returns the lines of a text except empty lines and those that begin with `#`, which still count in the numbers.
    pub fn without_comments(text: &'a [u8]) -> Self
        requires { length text.now < 2 ^ 31 }
        ensures { result ≡ lines.lines_from true 1 (parts_of 10 text.now) }
    {
        TextLines {
            skips_comments: true,
            number: 1,
            rest: text,
        }
    }

    /// Returns the next line and those after it, or where the text ends.
    pub fn next(self) -> Result<(NumberedLine<'a>, TextLines<'a>), Ending>
        ensures { result ≡ lines.next_of self.entry }
    {
        let (number, rest) = past_comments(self.skips_comments, self.number, self.rest);
        match cut(rest, b'\n') {
            None => Err(Ending {
                line: number,
                whole: rest.is_empty(),
            }),
            Some((line, after)) => Ok((
                NumberedLine {
                    number,
                    bytes: line,
                },
                TextLines {
                    skips_comments: self.skips_comments,
                    number: number + 1,
                    rest: after,
                },
            )),
        }
    }

    /// Copies the lines, so that the caller can read on and come back.
    pub fn again(&self) -> TextLines<'a>
        ensures { result ≡ self.now }
    {
        TextLines {
            skips_comments: self.skips_comments,
            number: self.number,
            rest: self.rest,
        }
    }

    /// Returns the bytes of the next `count` lines with line ends, and the lines after them. It returns `None` if fewer
    /// whole lines are left, or if a skipped line is among them.
    pub fn block(self, count: u32) -> Option<(&'a [u8], TextLines<'a>)>
        ensures { MatchOption result (lines.block_of count self.entry ≡ None) (λ found. lines.block_of count self.entry ≡ Some (found.0.now, found.1)) }
    {
        let (number, text) = past_comments(self.skips_comments, self.number, self.rest);
        let (block, rest) = take_lines(self.skips_comments, text, count)?;
        let left = TextLines {
            skips_comments: self.skips_comments,
            number: number + count,
            rest,
        };
        Some((block, left))
    }

    /// Returns the next line and those after it. If no line is left, returns `TextEnd`.
    pub fn due(self) -> Result<(NumberedLine<'a>, TextLines<'a>), BadLine>
        ensures { result ≡ lines.due_of self.entry }
    {
        match self.next() {
            Ok(found) => Ok(found),
            Err(ending) => Err(BadLine {
                line: ending.line,
                reason: Reason::TextEnd,
            }),
        }
    }

    /// Checks that the text ends here, with a line end.
    pub fn finish(self) -> Result<(), BadLine>
        ensures { result ≡ lines.nothing_left self.entry }
    {
        match self.next() {
            Ok((line, _)) => Err(BadLine {
                line: line.number(),
                reason: Reason::TextEnd,
            }),
            Err(ending) if ending.whole => Ok(()),
            Err(ending) => Err(BadLine {
                line: ending.line,
                reason: Reason::TextEnd,
            }),
        }
    }
}

/// Returns the text without the skipped lines at its head, with the number of its first line.
fn past_comments(skips_comments: bool, number: u32, text: &[u8]) -> (u32, &[u8])
    requires { number + length text.now < 2 ^ 32 }
    ensures same { lines.lines_from skips_comments result.0 (parts_of 10 result.1.now) ≡ lines.lines_from skips_comments number (parts_of 10 text.now) }
    ensures kept { IsFirstKept skips_comments (parts_of 10 result.1.now) }
    ensures small { result.0 + length result.1.now < 2 ^ 32 }
{
    let mut number = number;
    let mut rest = text;
    while let Some((line, after)) = cut(rest, b'\n') {
        if !is_skipped(skips_comments, line) {
            return (number, rest);
        }
        number += 1;
        rest = after;
    }
    (number, rest)
}

/// Returns the bytes of the next `count` lines with line ends, and the text after them. It returns `None` if there are
/// fewer whole lines, or if one of them is skipped.
fn take_lines(skips_comments: bool, text: &[u8], count: u32) -> Option<(&[u8], &[u8])>
    ensures lines { (number : ℕ) → MatchOption result (block_at skips_comments number count text.now ≡ None)
        (λ found. BeginsWithBlock skips_comments number count text.now found.0.now found.1.now) }
    ensures small { IfSome result (λ found. count + length found.1.now ≤ length text.now) }
{
    let mut rest = text;
    let mut due = count;
    while due > 0 {
        let Some((line, after)) = cut(rest, b'\n') else {
            return None;
        };
        if is_skipped(skips_comments, line) {
            return None;
        }
        rest = after;
        due -= 1;
    }
    Some((&text[..text.len() - rest.len()], rest))
}

/// Returns whether a line is empty or begins with `#`.
fn is_comment(line: &[u8]) -> bool
    ensures { result ≡ lines.is_comment line.now }
{
    match line {
        [] => true,
        [first, ..] => *first == b'#',
    }
}

/// Returns whether a line is skipped.
fn is_skipped(skips_comments: bool, line: &[u8]) -> bool
    ensures { result ≡ (skips_comments && lines.is_comment line.now) }
{
    skips_comments && is_comment(line)
}

/// Returns what was read from a line and the lines after it, or the line with the reason why it is bad.
pub fn at_line<'a, T>(
    line: &NumberedLine<'_>,
    read: Result<T, Reason>,
    left: TextLines<'a>,
) -> Result<(T, TextLines<'a>), BadLine>
    ensures { result ≡ and_then (lines.at_line line.now.number read) (λ value. Ok (value, left.entry)) }
{
    match read {
        Ok(value) => Ok((value, left)),
        Err(reason) => Err(BadLine {
            line: line.number(),
            reason,
        }),
    }
}
