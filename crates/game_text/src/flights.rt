ghost use Rattle.std.specs.Prelude.{◌≡◌, ◌≤◌, ◌≤ℤ◌, ◌∷◌, [], pos, negsuc, map, length, replicate, unsigned_abs, IsTrue};
ghost use Rattle.std.specs.List.{list_all};
ghost use Rattle.game_text.specs.Flights as flights;
ghost use Rattle.game_text.specs.Games as games;
ghost use Rattle.text_forms.specs.Rows as rows;
ghost use Rattle.tac_base.specs.declared.limits.TheConstants.{FLIGHT_DRAWS};

use crate::numbers::{dollars_at, is_due, signed_at};
use std::alloc::AllocError;
use std::marker::Model;
use tac_base::limits::FLIGHT_DRAWS;
use text_forms::{
    BadLine, Column, Digits, Part, PrintedPart, Reason, TextLines, at_line, print_row, read_row,
};

/// How the price of a flight changes: the parameters of the flight rule, with draws from the file.
#[derive(Clone, Copy, Debug, PartialEq, Eq)]
pub struct FlightLine {
    /// The first price, 250..400 dollars.
    pub first: u16,
    /// The bound of the changes at the last tick, -10..30 dollars.
    pub bound: i8,
    /// The draws of the ticks 1..53.
    pub draws: [u32; FLIGHT_DRAWS],
}

impl Model for FlightLine {
    ghost use Rattle.game_text.specs.Flights.{FlightTerms, IsFlight};

    ghost Value = { FlightTerms };

    ghost view = { λ f. record { first = f.first; bound = f.bound; draws = f.draws } };

    ghost invariant = { λ f. IsFlight (record { first = f.first; bound = f.bound; draws = f.draws }) };

    ghost inverse = { λ t. record { first = t.first; bound = t.bound; draws = t.draws } };
}

impl FlightLine {
    /// Returns a flight with the draws of ticks 1..53; each number of 32 bits is a draw.
    pub fn new(first: u16, bound: i8, draws: &[u32]) -> Self
        requires first_low { 250 ≤ first }
        requires first_high { first ≤ 400 }
        requires bound_low { negsuc 9 ≤ℤ bound }
        requires bound_high { bound ≤ℤ pos 30 }
        requires count { length draws.now ≡ FLIGHT_DRAWS }
        ensures { result ≡ record { first = first; bound = bound; draws = draws.now } }
    {
        let mut kept = [0; FLIGHT_DRAWS];
        kept.copy_from_slice(draws);
        FlightLine {
            first,
            bound,
            draws: kept,
        }
    }
}

/// Returns the columns of a flight's line: the good, the first price, the bound and the draws.
fn flight_columns() -> [Column; 56]
    ensures { result ≡ flights.flight_columns }
{
    let mut columns = [Column::within(0, u32::MAX); 56];
    columns[1] = Column::within(250, 400);
    columns[2] = Column {
        signed: true,
        digits: Digits::Ten,
        low: -10,
        high: 30,
    };
    columns
}

/// Returns the draws, each as a number of 32 bits.
fn draws_of(numbers: &[i64]) -> [u32; FLIGHT_DRAWS]
    requires count { length numbers.now ≡ FLIGHT_DRAWS }
    requires range { IsTrue (list_all (λ n. rows.is_in flights.any n) numbers.now) }
    ensures { result ≡ map unsigned_abs numbers.now }
{
    let mut draws = [0; FLIGHT_DRAWS];
    for (i, number) in numbers.iter().enumerate() {
        draws[i] = *number as u32;
    }
    draws
}

fn flight_from(good: u8, numbers: &[i64]) -> Result<FlightLine, Reason>
    requires count { length numbers.now ≡ 56 }
    requires range { IsTrue (rows.all_in flights.flight_columns numbers.now) }
    ensures { result ≡ flights.flight_from good numbers.now }
{
    if !is_due(numbers, 0, good) {
        return Err(Reason::NotDue);
    }
    Ok(FlightLine::new(
        dollars_at(numbers, 1),
        signed_at(numbers, 2),
        &draws_of(&numbers[3..]),
    ))
}

/// Returns the flight of a line with this good, or the first reason that applies.
#[tactic(auto, unfolding(crate::specs::Flights::flight_of))]
fn flight_of(good: u8, line: &[u8]) -> Result<FlightLine, Reason>
    ensures { result ≡ flights.flight_of good line.now }
{
    let numbers = read_row(line, b"flight", &flight_columns())?;
    flight_from(good, &numbers)
}

/// The flight with the lowest first price, with bound 10 and draws 0.
impl Default for FlightLine {
    fn default() -> Self
        ensures { result ≡ record { first = 250; bound = pos 10; draws = replicate FLIGHT_DRAWS 0 } }
    {
        FlightLine::new(250, 10, &[0; FLIGHT_DRAWS])
    }
}

/// The flights, each in its own line.
#[derive(Drop)]
pub(crate) struct Flights;

impl Part for Flights {
    type Value = FlightLine;

    ghost gives = { λ _ good left. games.flight_part good left };

    fn read<'a>(
        &self,
        good: u8,
        lines: TextLines<'a>,
    ) -> Result<(FlightLine, TextLines<'a>), BadLine> {
        let (line, left) = lines.due()?;
        at_line(&line, flight_of(good, line.bytes()), left)
    }
}

/// Returns the numbers of a flight's line.
fn flight_numbers(good: u8, flight: &FlightLine) -> [i64; 56]
    ensures { result ≡ flights.flight_numbers good flight.now }
{
    let mut numbers = [0; 56];
    numbers[0] = i64::from(good);
    numbers[1] = i64::from(flight.first);
    numbers[2] = i64::from(flight.bound);
    for (i, draw) in flight.draws.iter().enumerate() {
        numbers[3 + i] = i64::from(*draw);
    }
    numbers
}

impl PrintedPart for Flights {
    type Value = FlightLine;

    ghost lines = { λ _ good flight. flights.flight_text good flight ∷ [] };

    fn print(&self, good: u8, flight: &FlightLine, out: &mut Vec<u8>) -> Result<(), AllocError> {
        print_row(out, b"flight", &flight_numbers(good, flight))
    }
}
