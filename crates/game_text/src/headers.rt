ghost use Rattle.std.specs.Prelude.{◌≡◌, ◌∷◌, ◌++◌, [], OnOk};
ghost use Rattle.game_text.specs.Accounts as accounts;
ghost use Rattle.game_text.specs.Headers as headers;
ghost use Rattle.text_forms.specs.Steps as steps;

use std::alloc::AllocError;
use text_forms::{BadLine, Reason, TextLines, Words, at_line, read_row};

/// Returns the version that the first line's second word gives.
fn version_of(word: &[u8]) -> Result<u8, Reason>
    ensures { result ≡ headers.version_of word.now }
{
    if word == b"1".as_slice() {
        Ok(1)
    } else if word == b"2".as_slice() {
        Ok(2)
    } else {
        Err(Reason::Keyword)
    }
}

/// Returns the version of the first line, or the first reason that applies.
#[tactic(auto, unfolding(crate::specs::Headers::header_of))]
pub(crate) fn header_of(line: &[u8]) -> Result<u8, Reason>
    ensures { result ≡ headers.header_of line.now }
{
    let mut words = Words::new(line);
    let Some(first) = words.next() else {
        return Err(Reason::Keyword);
    };
    if first != b"tac".as_slice() {
        return Err(Reason::Keyword);
    }
    if words.count() != 1 {
        return Err(Reason::WordCount);
    }
    let Some(version) = words.next() else {
        return Err(Reason::WordCount);
    };
    version_of(version)
}

/// Appends the first line of a game file with this version. On error the text may end within it.
pub(crate) fn print_header(version: u8, out: &mut Vec<u8>) -> Result<(), AllocError>
    ensures { OnOk result (out.new.items ≡ out.old.items ++ (headers.header_text version ++ 10 ∷ [])) }
{
    let line = if version == 2 { b"tac 2\n" } else { b"tac 1\n" };
    out.extend_from_slice(line)?;
    Ok(())
}

/// Checks the first line of an account file.
#[tactic(auto, unfolding(crate::specs::Accounts::title_of))]
pub(crate) fn title_of(line: &[u8]) -> Result<(), Reason>
    ensures { result ≡ accounts.title_of line.now }
{
    let _numbers = read_row(line, b"account", &[])?;
    Ok(())
}

/// Checks the last line.
#[tactic(auto, unfolding(crate::specs::Headers::read_end_line))]
fn end_of(line: &[u8]) -> Result<(), Reason>
    ensures { result ≡ headers.read_end_line line.now }
{
    let _numbers = read_row(line, b"end", &[])?;
    Ok(())
}

/// Reads the last line.
pub(crate) fn end_at(lines: TextLines<'_>) -> Result<((), TextLines<'_>), BadLine>
    ensures { result ≡ steps.read_by headers.read_end_line lines.entry }
{
    let (line, left) = lines.due()?;
    at_line(&line, end_of(line.bytes()), left)
}
