// Lines of words and numbers.
ghost use Rattle.std.specs.Prelude.{◌≡◌, ◌+◌, ◌++◌, ◌≤◌, length};
ghost use Rattle.tac_commands.specs.NumberedLines as lines;

use tac_base::{Text, print_numeral};

/// A line without numbers.
pub(crate) fn plain(line: &[u8]) -> Text
    requires { length line.now ≤ 18 }
    ensures { result ≡ line.now }
{
    let mut text = Text::new();
    text.push_bytes(line);
    text
}

/// The line of some words and a number.
pub(crate) fn counted(words: &[u8], n: u32) -> Text
    requires { length words.now ≤ 16 }
    ensures { result ≡ lines.counted words.now n }
{
    let mut text = Text::new();
    text.push_bytes(words);
    text.push(b' ');
    print_numeral(u64::from(n), &mut text);
    text.push(b'\n');
    text
}

/// The line of some words and two numbers.
pub(crate) fn numbered(words: &[u8], first: u32, second: u32) -> Text
    requires { length words.now ≤ 16 }
    ensures { result ≡ lines.numbered words.now first second }
{
    let mut text = Text::new();
    text.push_bytes(words);
    text.push(b' ');
    print_numeral(u64::from(first), &mut text);
    text.push(b' ');
    print_numeral(u64::from(second), &mut text);
    text.push(b'\n');
    text
}
