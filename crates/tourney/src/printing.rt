// Prints the standings.
ghost use Rattle.std.specs.Prelude.{◌≡◌, ◌++◌, ◌∷◌, [], List, OnOk, OnErr, slice_index_or};
ghost use Rattle.std.specs.Fmt.{signed_decimal};
ghost use Rattle.tourney.specs.{text_of, GoesOn, GameFile, LoggedGame, IsPrinted, AreStandingsOf, team_lines, teams};
ghost use Rattle.tourney.specs.StandingsTexts as texts;

use crate::{Standings, TeamRow};
use std::alloc::AllocError;
use tac_base::{Memory, Text, print_signed};
use text_forms::print_row;

/// Appends a number after a byte. After an error the text is as it was.
fn print_number(out: &mut Vec<u8>, mark: u8, number: i64) -> Result<(), AllocError>
    ensures added { OnOk result (out.new.items ≡ out.old.items ++ mark ∷ signed_decimal number) }
    ensures kept { OnErr result (out.new.items ≡ out.old.items) }
{
    let mut text = Text::new();
    text.push(mark);
    print_signed(number, &mut text);
    out.extend_from_slice(text.as_slice())?;
    Ok(())
}

/// Appends a team's average after a space. After an error part of it may have been appended.
fn print_average(row: &TeamRow, out: &mut Vec<u8>) -> Result<(), AllocError>
    ensures added { OnOk result (out.new.items ≡ out.old.items ++ 32 ∷ texts.average_text row.now) }
    ensures part { OnErr result (GoesOn out.old.items out.new.items) }
{
    print_number(out, b' ', row.over)?;
    print_number(out, b'/', i64::from(row.under))
}

/// Appends what follows a team's word. After an error part of it may have been appended.
fn print_numbers(row: &TeamRow, out: &mut Vec<u8>) -> Result<(), AllocError>
    ensures added { OnOk result (out.new.items ≡ out.old.items ++ 32 ∷ texts.numbers_text row.now) }
    ensures part { OnErr result (GoesOn out.old.items out.new.items) }
{
    print_number(out, b' ', i64::from(row.games))?;
    print_number(out, b' ', row.total)?;
    print_average(row, out)?;
    print_number(out, b' ', i64::from(row.rank))
}

/// Appends the line of a team with this word. After an error part of it may have been appended.
fn print_team(word: &[u8], row: &TeamRow, out: &mut Vec<u8>) -> Result<(), AllocError>
    ensures added { OnOk result (out.new.items ≡ out.old.items ++ (texts.team_line word.now row.now ++ 10 ∷ [])) }
    ensures part { OnErr result (GoesOn out.old.items out.new.items) }
{
    out.extend_from_slice(b"team ")?;
    out.extend_from_slice(word)?;
    print_numbers(row, out)?;
    out.push(b'\n')?;
    Ok(())
}

/// The word of the team at a place; it is empty past the last one.
fn word_at(standings: &Standings, team: u16) -> &[u8]
    ensures { (played : List (GameFile × LoggedGame)) → AreStandingsOf standings.now played → result.now ≡ slice_index_or (teams played) team [] }
{
    match standings.word(team) {
        Some(word) => word,
        None => &[],
    }
}

/// Appends the lines of the teams of these rows. After an error part of them may have been appended.
fn print_teams(standings: &Standings, rows: &[TeamRow], out: &mut Vec<u8>) -> Result<(), AllocError>
    ensures added { (played : List (GameFile × LoggedGame)) → AreStandingsOf standings.now played → OnOk result (out.new.items ≡ out.old.items ++ text_of (team_lines (teams played) rows.now)) }
    ensures part { GoesOn out.old.items out.new.items }
{
    for row in rows {
        print_team(word_at(standings, row.team), row, out)?;
    }
    Ok(())
}

/// Appends the text of the standings: the line `table N`, a line `team WORD GAMES TOTAL NUM/DEN RANK` for each team in the
/// order in which they first appear, and `end`. After `Memory` part of it may have been appended.
pub fn print_standings(standings: &Standings, out: &mut Vec<u8>) -> Result<(), Memory>
    ensures printed { (played : List (GameFile × LoggedGame)) → AreStandingsOf standings.now played → OnOk result (IsPrinted played out.old.items out.new.items) }
    ensures part { OnErr result (GoesOn out.old.items out.new.items) }
{
    let rows = standings.rows()?;
    print_row(out, b"table", &[i64::from(standings.games())])?;
    print_teams(standings, &rows, out)?;
    out.extend_from_slice(b"end\n")?;
    Ok(())
}
