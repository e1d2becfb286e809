ghost use Rattle.std.specs.Prelude.{◌≡◌, ◌≤◌, length, false, None, Some, IfOk, MatchOption};
ghost use Rattle.log_reader.specs.{TEXT_BYTES, parts_of, last_number, nothing_begins};
ghost use Rattle.text_forms.specs.Lines as lines;
ghost use Rattle.log_reader.specs.HeadForms as head;
ghost use Rattle.log_reader.specs.LogReading as reading;

use crate::line_forms::starts;
use std::marker::Model;
use text_forms::{BadLine, NumberedLine, Reason, TextLines};

/// The rest of the lines of a log's text. No line number exceeds 67,108,865.
#[derive(Debug, Drop)]
pub(crate) struct LogLines<'a> {
    lines: TextLines<'a>,
}

impl<'a> Model for LogLines<'a> {
    ghost use Rattle.text_forms.specs.Lines.{Remaining};
    ghost use Rattle.log_reader.specs.Numbers.{AreLow};

    ghost Value = { Remaining };

    ghost view = { λ l. l.lines };

    ghost invariant = { λ l. AreLow l.lines };
}

impl<'a> LogLines<'a> {
    /// Returns all lines of a text.
    pub(crate) fn new(text: &'a [u8]) -> Self
        requires { length text.now ≤ TEXT_BYTES }
        ensures { result ≡ lines.lines_from false 1 (parts_of 10 text.now) }
    {
        LogLines {
            lines: TextLines::new(text),
        }
    }

    /// Returns the next line and the lines after it. A text that ends here ends too early.
    pub(crate) fn due(self) -> Result<(NumberedLine<'a>, LogLines<'a>), BadLine>
        ensures value { result ≡ lines.due_of self.entry }
        ensures low { IfOk result (λ x. x.0.number ≤ last_number) }
    {
        let (line, lines) = self.lines.due()?;
        Ok((line, LogLines { lines }))
    }

    /// Returns the bytes of this many lines, with their line ends, and the lines after them.
    pub(crate) fn block(self, count: u32) -> Option<(&'a [u8], LogLines<'a>)>
        ensures { MatchOption result (lines.block_of count self.entry ≡ None) (λ found. lines.block_of count self.entry ≡ Some (found.0.now, found.1)) }
    {
        let (block, lines) = self.lines.block(count)?;
        Some((block, LogLines { lines }))
    }

    /// Whether the first word of the next line is this one.
    pub(crate) fn begins(&self, word: &[u8]) -> bool
        ensures { result ≡ reading.begins word.now self.now }
    {
        match self.lines.again().next() {
            Ok((line, _)) => starts(line.bytes(), word),
            Err(_) => false,
        }
    }

    /// Returns the same lines if the next one does not begin with the word; otherwise that line is bad.
    pub(crate) fn without(self, word: &[u8]) -> Result<LogLines<'a>, BadLine>
        ensures { result ≡ nothing_begins word.now self.entry }
    {
        if !self.begins(word) {
            return Ok(self);
        }
        let (line, _) = self.due()?;
        Err(BadLine {
            line: line.number(),
            reason: Reason::TextEnd,
        })
    }

    /// Requires the text to end here, with a line end.
    pub(crate) fn finish(self) -> Result<(), BadLine>
        ensures { result ≡ lines.nothing_left self.entry }
    {
        self.lines.finish()
    }
}

/// Returns what was read from a line, which is bad if it does not have its form.
pub(crate) fn well_formed<T>(line: u32, read: Option<T>) -> Result<T, BadLine>
    ensures { result ≡ lines.at_line line (head.formed read) }
{
    match read {
        Some(value) => Ok(value),
        None => Err(BadLine {
            line,
            reason: Reason::Spelling,
        }),
    }
}

/// Skips a line that must be this text.
pub(crate) fn text_at<'a>(text: &[u8], lines: LogLines<'a>) -> Result<((), LogLines<'a>), BadLine>
    ensures { result ≡ reading.line_by (head.is_text text.now) lines.entry }
{
    let (line, left) = lines.due()?;
    if line.bytes() == text {
        Ok(((), left))
    } else {
        Err(BadLine {
            line: line.number(),
            reason: Reason::Spelling,
        })
    }
}
