// Reads the lines of a log's head.
ghost use Rattle.std.specs.Prelude.{◌≡◌, ◌≤◌, IfSome, decimal};
ghost use Rattle.log_reader.specs.HeadForms as forms;

use line_protocol::{Cause, Verdict};
use tac_base::{Agent, Text, print_numeral};
use text_forms::{Column, Words, read_row};

/// Reads one digit, at most this number.
pub(crate) fn digit_of(most: u8, word: &[u8]) -> Option<u8>
    requires { most ≤ 9 }
    ensures value { result ≡ forms.digit_of most word.now }
    ensures range { IfSome result (λ n. n ≤ most) }
{
    match word {
        [digit] => {
            if 48 <= *digit && *digit <= 48 + most {
                Some(*digit - 48)
            } else {
                None
            }
        }
        _ => None,
    }
}

/// Reads an agent of one digit.
fn agent_of(word: &[u8]) -> Option<Agent>
    ensures { result ≡ forms.digit_of 7 word.now }
{
    let number = digit_of(7, word)?;
    Agent::new(number).ok()
}

/// Reads a verdict of one word.
fn word_verdict(word: &[u8]) -> Option<Verdict>
    ensures { result ≡ forms.read_refused word.now }
{
    if word == b"syntax".as_slice() {
        Some(Verdict::Syntax)
    } else if word == b"wrongword".as_slice() {
        Some(Verdict::WrongWord)
    } else if word == b"taken".as_slice() {
        Some(Verdict::Taken)
    } else if word == b"lost".as_slice() {
        Some(Verdict::Lost)
    } else {
        None
    }
}

/// Reads the verdict on a link that took a seat.
fn seated_of(word: &[u8], agent: &[u8]) -> Option<Verdict>
    ensures { result ≡ forms.seated_of word.now agent.now }
{
    if word == b"seated".as_slice() {
        let seat = agent_of(agent)?;
        Some(Verdict::Seated(seat))
    } else {
        None
    }
}

/// Reads a verdict from the rest of a line's words.
fn verdict_of(mut words: Words<'_>) -> Option<Verdict>
    ensures { result ≡ forms.read_verdict words.entry }
{
    let word = words.next()?;
    let Some(agent) = words.next() else {
        return word_verdict(word);
    };
    match words.next() {
        None => seated_of(word, agent),
        Some(_) => None,
    }
}

/// A place as a numeral.
fn place_word(place: u8) -> Text
    ensures { result ≡ decimal place }
{
    let mut word = Text::new();
    print_numeral(u64::from(place), &mut word);
    word
}

/// Reads the verdict from the line of the link at this place in the order of arrival.
#[tactic(auto, unfolding(crate::specs::HeadForms::read_link))]
pub(crate) fn link_of(place: u8, line: &[u8]) -> Option<Verdict>
    ensures { result ≡ forms.read_link place line.now }
{
    let mut words = Words::new(line);
    let keyword = words.next()?;
    let number = words.next()?;
    if keyword == b"link".as_slice() && number == place_word(place).as_slice() {
        verdict_of(words)
    } else {
        None
    }
}

/// Reads a cause from a word.
fn cause_of(word: &[u8]) -> Option<Cause>
    ensures { result ≡ forms.read_cause word.now }
{
    if word == b"quit".as_slice() {
        Some(Cause::Quit)
    } else if word == b"end".as_slice() {
        Some(Cause::End)
    } else if word == b"readfault".as_slice() {
        Some(Cause::ReadFault)
    } else if word == b"writefault".as_slice() {
        Some(Cause::WriteFault)
    } else if word == b"budget".as_slice() {
        Some(Cause::Budget)
    } else {
        None
    }
}

/// Makes the agent and the cause of a session's end from three words.
fn ended_of(keyword: &[u8], agent: &[u8], word: &[u8]) -> Option<(Agent, Cause)>
    ensures { result ≡ forms.ended_of keyword.now agent.now word.now }
{
    if keyword == b"end".as_slice() {
        let seat = agent_of(agent)?;
        let cause = cause_of(word)?;
        Some((seat, cause))
    } else {
        None
    }
}

/// Reads the agent and the cause from the line of a session's end.
#[tactic(auto, unfolding(crate::specs::HeadForms::read_end))]
pub(crate) fn end_of(line: &[u8]) -> Option<(Agent, Cause)>
    ensures { result ≡ forms.read_end line.now }
{
    let mut words = Words::new(line);
    let keyword = words.next()?;
    let agent = words.next()?;
    let word = words.next()?;
    match words.next() {
        None => ended_of(keyword, agent, word),
        Some(_) => None,
    }
}

/// Reads the number of missed ticks, 0..255, from its line.
#[tactic(auto, unfolding(crate::specs::HeadForms::read_missed))]
pub(crate) fn missed_of(line: &[u8]) -> Option<u8>
    ensures { result ≡ forms.read_missed line.now }
{
    match read_row(line, b"missed", &[Column::within(0, 255)]) {
        Ok(numbers) => Some(numbers[0] as u8),
        Err(_) => None,
    }
}
