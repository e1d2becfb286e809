ghost use Rattle.std.specs.Prelude.{◌≡◌, ◌≤◌, ◌<◌, ◌↔◌, length, IfOk, Ok};
ghost use Rattle.game_text.specs.Games as games;
ghost use Rattle.game_text.specs.Headers as headers;
ghost use Rattle.game_text.specs.SeatWords as seats;
ghost use Rattle.game_text.specs.ClosingOrders as orders;
ghost use Rattle.text_forms.specs.Steps as steps;

use crate::agents::{Agents, agents_in};
use crate::closing_orders::order_of;
use crate::flights::Flights;
use crate::headers::{end_at, header_of};
use crate::hotel_nights::{HotelNights, nights_in};
use crate::seat_words::seats_of;
use crate::{FlightLine, GameFault, SeatWord};
use std::marker::Model;
use tac_base::limits::GAME_BYTES;
use tac_base::{Client, Good};
use text_forms::{BadLine, TextLines, at_line, repeat};

/// The content of a game file. The ranges are those of the game description; this project defines the form of the file.
#[derive(Debug, Drop)]
pub struct Game {
    /// The version of the file, 1 or 2. In a game of version 1 each hotel night has 16 rooms and quotes are not live.
    pub version: u8,
    /// The seat word of each agent, all different.
    pub words: [SeatWord; 8],
    /// The flights, goods 0..7.
    pub flights: [FlightLine; 8],
    /// The hotel nights, goods 8..15, in the order in which they close.
    pub order: [Good; 8],
    /// How many rooms each hotel night, goods 8..15, has: 1..64.
    pub rooms: [u8; 8],
    /// Whether each admitted bid publishes a hotel's ask, in addition to the clock.
    pub live: bool,
    /// How many of the tickets 16..27 each agent has at the start, 0..16 of each.
    pub endow: [[u8; 12]; 8],
    /// The clients of each agent.
    pub clients: [[Client; 8]; 8],
}

impl Model for Game {
    ghost use Rattle.game_text.specs.Games.{GameFile, IsGame};

    ghost Value = { GameFile };

    ghost view = { λ g. record { version = g.version; words = g.words; flights = g.flights; order = g.order; rooms = g.rooms; live = g.live; endow = g.endow; clients = g.clients } };

    ghost invariant = { λ g. IsGame (record { version = g.version; words = g.words; flights = g.flights; order = g.order; rooms = g.rooms; live = g.live; endow = g.endow; clients = g.clients }) };
}

impl Game {
    /// Returns the same game in version 2.
    pub fn upgraded(self) -> Game
        ensures { result ≡ games.upgraded self }
    {
        Game { version: 2, ..self }
    }
}

/// Reads the first line.
fn header_at(lines: TextLines<'_>) -> Result<(u8, TextLines<'_>), BadLine>
    ensures { result ≡ steps.read_by headers.header_of lines.entry }
{
    let (line, left) = lines.due()?;
    at_line(&line, header_of(line.bytes()), left)
}

/// Reads the line of the seat words.
fn seats_at(lines: TextLines<'_>) -> Result<([SeatWord; 8], TextLines<'_>), BadLine>
    ensures { result ≡ steps.read_by seats.seats_of lines.entry }
{
    let (line, left) = lines.due()?;
    at_line(&line, seats_of(line.bytes()), left)
}

/// Reads the line of the closing order.
fn order_at(lines: TextLines<'_>) -> Result<([Good; 8], TextLines<'_>), BadLine>
    ensures { result ≡ steps.read_by orders.order_of lines.entry }
{
    let (line, left) = lines.due()?;
    at_line(&line, order_of(line.bytes()), left)
}

/// Reads the game from the lines that are left.
#[tactic(auto, unfolding(crate::specs::Games::game_in))]
fn game_in(lines: TextLines<'_>) -> Result<Game, BadLine>
    ensures { result ≡ games.game_in lines.entry }
{
    let (version, left) = header_at(lines)?;
    let (words, left) = seats_at(left)?;
    let mut flights = [FlightLine::default(); 8];
    let left = repeat(&Flights, &mut flights, left)?;
    let (order, left) = order_at(left)?;
    let (HotelNights { rooms, live }, left) = nights_in(version, left)?;
    let (Agents { endow, clients }, left) = agents_in(left)?;
    let (_, left) = end_at(left)?;
    left.finish()?;
    Ok(Game {
        version,
        words,
        flights,
        order,
        rooms,
        live,
        endow,
        clients,
    })
}

#[tactic(auto, unfolding(crate::specs::Games::game_of))]
fn game_of(text: &[u8]) -> Result<Game, GameFault>
    ensures { result ≡ games.game_of text.now }
{
    if text.len() > GAME_BYTES as usize {
        return Err(GameFault::TooLong);
    }
    Ok(game_in(TextLines::without_comments(text))?)
}

/// Reads a game file, version 1 or 2. It allocates no memory.
pub fn read_game(text: &[u8]) -> Result<Game, GameFault>
    // The result is the game, or the first bad line with its first reason.
    ensures exact { result ≡ games.game_of text.now }
    ensures too_long { (result ≡ Err GameFault.TooLong) ↔ (GAME_BYTES < length text.now) }
    // The lines that are neither empty nor comments are those of the game, and the game is in its ranges.
    ensures found { IfOk result (λ game. games.IsTextOf game text.now × games.IsGame game) }
    // Each text of a game is read as that game.
    ensures only { (game : games.GameFile) → length text.now ≤ GAME_BYTES → games.IsTextOf game text.now → games.IsGame game → result ≡ Ok game }
{
    game_of(text)
}
