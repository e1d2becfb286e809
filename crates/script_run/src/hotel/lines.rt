// Reads the lines of a hotel script.
ghost use Rattle.std.specs.Prelude.{◌≡◌, ◌≤◌, [], ◌∷◌, List, Some};
ghost use Rattle.script_run.specs.Prelude.{points_of, judged, IsFit};
ghost use Rattle.script_run.specs.HotelLines as lines;

use crate::ScriptReason;
use bid_strings::read_points;
use tac_base::{Agent, Call, Caller, Points};
use text_forms::Words;

/// What a line requests.
#[derive(Debug, Drop)]
pub enum HotelLine {
    /// An agent's bid.
    Bid { agent: Agent, points: Points },
    /// An agent reads its own state.
    Own { agent: Agent },
    /// The clock publishes the price.
    Publish,
    /// The clock closes the hotel.
    Close,
}

impl HotelLine {
    /// The caller of the line.
    pub(crate) fn caller(&self) -> Caller
        ensures { result ≡ (lines.asked self.now).0 }
    {
        match self {
            HotelLine::Bid { agent, .. } => agent.caller(),
            HotelLine::Own { agent } => agent.caller(),
            HotelLine::Publish => Caller::clock(),
            HotelLine::Close => Caller::clock(),
        }
    }

    /// The call of the line.
    pub(crate) fn call(&self) -> Call
        ensures value { result ≡ (lines.asked self.now).1 }
        ensures fit { IsFit result }
    {
        match self {
            HotelLine::Bid { points, .. } => Call::Bid(points.copy()),
            HotelLine::Own { .. } => Call::Own,
            HotelLine::Publish => Call::Publish,
            HotelLine::Close => Call::Close,
        }
    }
}

// Reads a line of one word.
fn clock_line(word: &[u8]) -> Result<HotelLine, ScriptReason>
    ensures { result ≡ lines.clock_line word.now }
{
    if word == b"publish".as_slice() {
        Ok(HotelLine::Publish)
    } else if word == b"close".as_slice() {
        Ok(HotelLine::Close)
    } else {
        Err(ScriptReason::Form)
    }
}

fn agent_of(word: &[u8]) -> Option<Agent>
    ensures { result ≡ lines.agent_of word.now }
{
    match word {
        [digit] => agent_of_digit(*digit),
        _ => None,
    }
}

pub(crate) fn agent_of_digit(digit: u8) -> Option<Agent>
    ensures { result ≡ lines.agent_of (digit ∷ []) }
{
    if 48 <= digit && digit <= 55 {
        Agent::new(digit - 48).ok()
    } else {
        None
    }
}

// Reads a bid from a text of points.
fn bid_of(agent: Agent, text: &[u8]) -> Result<HotelLine, ScriptReason>
    ensures { result ≡ lines.hotel_bid agent (judged (points_of text.now)) }
{
    match read_points(text) {
        Ok(points) => Ok(HotelLine::Bid { agent, points }),
        Err(_) => Err(ScriptReason::Points),
    }
}

// Reads a line of an agent and a word.
fn own_line(agent: Option<Agent>, keyword: &[u8]) -> Result<HotelLine, ScriptReason>
    ensures { result ≡ lines.own_line agent keyword.now }
{
    let Some(agent) = agent else {
        return Err(ScriptReason::Form);
    };
    if keyword == b"own".as_slice() {
        Ok(HotelLine::Own { agent })
    } else {
        Err(ScriptReason::Form)
    }
}

// Reads a line of an agent, a word and points.
fn bid_line(agent: Option<Agent>, keyword: &[u8], points: &[u8]) -> Result<HotelLine, ScriptReason>
    ensures { result ≡ lines.hotel_bid_line agent keyword.now points.now }
{
    let Some(agent) = agent else {
        return Err(ScriptReason::Form);
    };
    if keyword == b"bid".as_slice() {
        bid_of(agent, points)
    } else {
        Err(ScriptReason::Form)
    }
}

/// Reads what a line requests, or the reason why it is bad in itself: its form or its points.
#[tactic(auto, unfolding(crate::specs::HotelLines::hotel_line_of))]
pub(crate) fn line_of(line: &[u8]) -> Result<HotelLine, ScriptReason>
    ensures { result ≡ lines.hotel_line_of line.now }
{
    let mut words = Words::new(line);
    let Some(first) = words.next() else {
        return Err(ScriptReason::Form);
    };
    let Some(keyword) = words.next() else {
        return clock_line(first);
    };
    let agent = agent_of(first);
    match words.rest() {
        None => own_line(agent, keyword),
        Some(points) => bid_line(agent, keyword, points),
    }
}
