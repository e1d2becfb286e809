// What a game file of version 2 defines for the hotel nights.
ghost use Rattle.std.specs.Prelude.{◌≡◌, ◌++◌, pos, length, map, replicate, IsTrue, OnOk};
ghost use Rattle.text_forms.specs.Lines.{text_of};
ghost use Rattle.text_forms.specs.Steps as steps;
ghost use Rattle.game_text.specs.HotelNights as nights;

use crate::numbers::bytes_of;
use std::alloc::AllocError;
use tac_base::limits::NIGHT_ROOMS;
use text_forms::{BadLine, Column, Reason, TextLines, Words, at_line, print_row, read_row};

/// The rooms of each hotel night, goods 8..15, and whether quotes are live.
#[derive(Drop)]
pub(crate) struct HotelNights {
    pub(crate) rooms: [u8; 8],
    pub(crate) live: bool,
}

/// Returns the rooms of a line, or the first reason that applies.
#[tactic(auto, unfolding(crate::specs::HotelNights::read_rooms))]
fn rooms_of(line: &[u8]) -> Result<[u8; 8], Reason>
    ensures { result ≡ nights.read_rooms line.now }
{
    let numbers = read_row(
        line,
        b"rooms",
        &[Column::within(1, u32::from(NIGHT_ROOMS)); 8],
    )?;
    Ok(bytes_of(&numbers))
}

/// Reads the line of the rooms.
fn rooms_at(lines: TextLines<'_>) -> Result<([u8; 8], TextLines<'_>), BadLine>
    ensures { result ≡ steps.read_by nights.read_rooms lines.entry }
{
    let (line, left) = lines.due()?;
    at_line(&line, rooms_of(line.bytes()), left)
}

/// Returns whether the word stands for live quotes.
fn live_of(word: &[u8]) -> Result<bool, Reason>
    ensures { result ≡ nights.live_of word.now }
{
    if word == b"minute".as_slice() {
        Ok(false)
    } else if word == b"live".as_slice() {
        Ok(true)
    } else {
        Err(Reason::Spelling)
    }
}

/// Returns whether the quotes of a line are live, or the first reason that applies.
#[tactic(auto, unfolding(crate::specs::HotelNights::quotes_of))]
fn quotes_of(line: &[u8]) -> Result<bool, Reason>
    ensures { result ≡ nights.quotes_of line.now }
{
    let mut words = Words::new(line);
    let Some(first) = words.next() else {
        return Err(Reason::Keyword);
    };
    if first != b"quotes".as_slice() {
        return Err(Reason::Keyword);
    }
    if words.count() != 1 {
        return Err(Reason::WordCount);
    }
    let Some(word) = words.next() else {
        return Err(Reason::WordCount);
    };
    live_of(word)
}

/// Reads the line of the quotes.
fn quotes_at(lines: TextLines<'_>) -> Result<(bool, TextLines<'_>), BadLine>
    ensures { result ≡ steps.read_by nights.quotes_of lines.entry }
{
    let (line, left) = lines.due()?;
    at_line(&line, quotes_of(line.bytes()), left)
}

/// Reads the hotel nights from a file of this version; version 1 has no lines for them.
#[tactic(auto, unfolding(crate::specs::HotelNights::nights_in))]
pub(crate) fn nights_in(
    version: u8,
    lines: TextLines<'_>,
) -> Result<(HotelNights, TextLines<'_>), BadLine>
    ensures { result ≡ nights.nights_in version lines.entry }
{
    if version != 2 {
        let plain = HotelNights {
            rooms: [16; 8],
            live: false,
        };
        return Ok((plain, lines));
    }
    let (rooms, left) = rooms_at(lines)?;
    let (live, left) = quotes_at(left)?;
    Ok((HotelNights { rooms, live }, left))
}

/// Returns the numbers of the line of the rooms.
fn room_numbers(rooms: &[u8; 8]) -> [i64; 8]
    ensures { result ≡ map pos rooms.now }
{
    let mut numbers = [0; 8];
    for (i, count) in rooms.iter().enumerate() {
        numbers[i] = i64::from(*count);
    }
    numbers
}

/// Appends the lines of the hotel nights in a file of this version. After an error the text may end within them.
pub(crate) fn print_nights(
    version: u8,
    rooms: &[u8; 8],
    live: bool,
    out: &mut Vec<u8>,
) -> Result<(), AllocError>
    ensures { OnOk result (out.new.items ≡ out.old.items ++ text_of (nights.night_lines version (record { rooms = rooms.now; live = live }))) }
{
    if version != 2 {
        return Ok(());
    }
    print_row(out, b"rooms", &room_numbers(rooms))?;
    let quotes = if live {
        b"quotes live\n".as_slice()
    } else {
        b"quotes minute\n"
    };
    out.extend_from_slice(quotes)?;
    Ok(())
}
