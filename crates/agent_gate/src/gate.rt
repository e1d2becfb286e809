// The gate decides which link plays as which agent.
ghost use Rattle.std.specs.Prelude.{◌≡◌, ◌≢◌, ◌<◌, IfSome, false, length, position, replicate, bytes_eq};
ghost use Rattle.agent_gate.specs.Gates as gates;

use game_text::{Game, SeatWord};
use line_protocol::Verdict;
use std::marker::Model;
use tac_base::Agent;
use tac_base::limits::AGENTS;
use text_forms::Words;

/// The seats of a game: the word of each, and whether it is taken.
#[derive(Drop)]
pub struct Gate {
    words: [SeatWord; 8],
    taken: [bool; 8],
}

impl Model for Gate {
    ghost use Rattle.agent_gate.specs.Gates.{Seats};

    ghost Value = { Seats };

    ghost view = { λ gate. record { words = gate.words; taken = gate.taken } };
}

/// Returns the seat word of a line `hello WORD`.
fn greeting_of(line: &[u8]) -> Option<SeatWord>
    ensures { result ≡ gates.greeting_of line.now }
{
    let mut words = Words::new(line);
    let first = words.next()?;
    let word = words.next()?;
    if first == b"hello".as_slice() && words.count() == 0 {
        SeatWord::new(word).ok()
    } else {
        None
    }
}

/// Returns the index of a word among the words.
fn place_of(words: &[SeatWord], word: &[u8]) -> Option<usize>
    ensures value { result ≡ position (bytes_eq word.now) words.now }
    ensures bound { IfSome result (λ place. place < length words.now) }
{
    words.iter().position(|other| word == other.as_slice())
}

/// Returns the agent whose seat has this word.
fn seat_of(words: &[SeatWord; 8], word: &[u8]) -> Option<Agent>
    ensures { result ≡ position (bytes_eq word.now) words.now }
{
    match place_of(words, word) {
        None => None,
        Some(place) => Agent::new(place as u8).ok(),
    }
}

impl Gate {
    /// Makes the gate of a game, with no seat taken.
    pub fn new(game: &Game) -> Gate
        ensures { result ≡ record { words = game.now.words; taken = replicate AGENTS false } }
    {
        Gate {
            words: game.words,
            taken: [false; 8],
        }
    }

    /// Returns the verdict on a link by its first line, given without its end. This project defines the verdicts and their order.
    pub fn admit(&mut self, line: &[u8]) -> Verdict
        ensures verdict { result ≡ gates.verdict_of self.old line.now }
        // Only seating a link changes something: its seat is then taken.
        ensures seats { self.new ≡ gates.seats_after self.old result }
        ensures never_lost { result ≢ Verdict.Lost }
    {
        let Some(word) = greeting_of(line) else {
            return Verdict::Syntax;
        };
        let Some(agent) = seat_of(&self.words, word.as_slice()) else {
            return Verdict::WrongWord;
        };
        let seat = agent.get() as usize;
        if self.taken[seat] {
            return Verdict::Taken;
        }
        self.taken[seat] = true;
        Verdict::Seated(agent)
    }
}
