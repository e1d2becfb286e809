// Writes the standings of the teams of several games.
ghost use Rattle.std.specs.Prelude.{◌≡◌, ◌+◌, ◌*◌, ◌/◌, ◌≤◌, ◌<◌, ℕ, List, [], ◌∷◌, length, string_len, All, IfErr, IfOk, IfSome, OnOk};
ghost use Rattle.tac_commands.specs.{MaySelectTwo, WritesDue, table_steps, in_pairs, EndsAtPair, TableGoesOn, HasAdded, IsAdded, outcome_of};
ghost use Rattle.tac_commands.specs.Prelude.{FILE_NAMES, NAME_BYTES, known_then, GameFile, LoggedGame, IsSound, IsPrinted, AreStandingsOf};
ghost use Rattle.tac_commands.specs.Services.{bytes_of_words};
ghost use Rattle.tac_commands.specs.Commands as commands;
ghost use Rattle.tac_commands.specs.Ends.{Ends, EndsBatch};
ghost use Rattle.tac_commands.specs.FlawTexts as texts;
ghost use Rattle.tac_commands.specs.Outcomes as outcomes;
ghost use Rattle.tac_commands.specs.Runs.{Runs, StopsAt};

use crate::ends::End;
use crate::numbered_lines::counted;
use crate::reading::read_value;
use crate::refusals::Refusal;
use game_text::Game;
use log_audit::{Finding, audit_log};
use log_reader::Log;
use std::alloc::Global;
use tac_base::limits::TABLE_GAMES;
use tac_io::{Files, Sink, write_all};
use tourney::{Standings, print_standings};

/// Why a table is not written.
#[derive(Clone, Copy, Debug, PartialEq, Eq)]
enum TableFault {
    /// This is to be written in place of the table.
    Refused(Refusal),
    /// The log of this pair, counted from 0, is not sound.
    Unsound(u8),
}

/// Adds the game of a pair to the standings, if its log is sound.
fn add_sound(
    alloc: Global,
    standings: Standings,
    game: &Game,
    log: &Log,
    pair: u8,
) -> Result<Standings, TableFault>
    requires { standings.games < TABLE_GAMES }
    ensures sound { OnOk result (IsSound game.now log.now) }
    ensures added { IfOk result (λ after. HasAdded standings after game.now log.now) }
    ensures games { IfOk result (λ after. after.games ≡ standings.games + 1) }
    ensures fault { IfErr result (λ fault. StopsAt (IsSound game.now log.now) (λ text. text ≡ texts.unsound_text pair) (outcome_of fault)) }
{
    match audit_log(alloc, game, log) {
        Ok(Finding::Sound) => match standings.add(game, log) {
            Ok(after) => Ok(after),
            Err(_) => Err(TableFault::Refused(Refusal::Memory)),
        },
        Ok(Finding::Unsound(_)) => Err(TableFault::Unsound(pair)),
        Err(_) => Err(TableFault::Refused(Refusal::Memory)),
    }
}

/// Reads and judges the game and the log of a pair, in this order, and adds the game to the standings.
fn add_pair<F: Files>(
    alloc: Global,
    standings: Standings,
    game: &str,
    log: &str,
    pair: u8,
    files: &mut F,
) -> Result<Standings, TableFault>
    requires names { MaySelectTwo (F.state files.old) game.now log.now }
    requires few { standings.games < TABLE_GAMES }
    ensures added { IfOk result (λ after. IsAdded (F.state files.old).content game.now log.now standings after) }
    ensures games { IfOk result (λ after. after.games ≡ standings.games + 1) }
    ensures names { OnOk result ((F.state files.new).names ≡ known_then (known_then (F.state files.old).names (game.now ∷ [])) (log.now ∷ [])) }
    ensures quiet { OnOk result ((F.state files.new).faults ≡ (F.state files.old).faults) }
    ensures content { (F.state files.new).content ≡ (F.state files.old).content }
    ensures fault { IfErr result (EndsAtPair (F.state files.old) (F.state files.new) pair game.now log.now) }
{
    let game = match read_value::<Game, F>(alloc, files, game) {
        Ok(game) => game,
        Err(refusal) => return Err(TableFault::Refused(refusal)),
    };
    let log = match read_value::<Log, F>(alloc, files, log) {
        Ok(log) => log,
        Err(refusal) => return Err(TableFault::Refused(refusal)),
    };
    add_sound(alloc, standings, &game, &log, pair)
}

/// Returns the standings of all pairs of a game and its log, or the first fault of a pair. After it no later file is selected.
fn add_pairs<F: Files>(
    alloc: Global,
    names: &[String],
    files: &mut F,
) -> Result<Standings, TableFault>
    requires names { IfSome (F.state files.old).names (λ selected. (selected ≡ []) × All (λ name. string_len name ≤ NAME_BYTES) names.now) }
    requires few { length names.now ≤ FILE_NAMES }
    ensures all { IfOk result (TableGoesOn (in_pairs (bytes_of_words names.now)) [] (length names.now / 2) (F.state files.old) (F.state files.new)) }
    ensures fault { IfErr result (λ fault. Runs (table_steps [] (in_pairs (bytes_of_words names.now)))
        (F.state files.old) (F.state files.new) (outcome_of fault)) }
{
    let mut standings = Standings::begin(alloc);
    for pair in 0..names.len() / 2 {
        let game = names[2 * pair].as_str();
        let log = names[2 * pair + 1].as_str();
        standings = add_pair(alloc, standings, game, log, pair as u8, files)?;
    }
    Ok(standings)
}

/// Writes the standings.
fn write_standings<K: Sink>(alloc: Global, standings: &Standings, out: &mut K) -> End
    ensures { (played : List (GameFile × LoggedGame)) → AreStandingsOf standings.now played
        → Ends (WritesDue (IsPrinted played [])) (K.state out.old) (K.state out.new) result }
{
    let mut text = Vec::new(alloc);
    let Ok(()) = print_standings(standings, &mut text) else {
        return End::Refused(Refusal::Memory);
    };
    match write_all(out, text.as_slice()) {
        Ok(()) => End::Done,
        Err(_) => End::WriteFault,
    }
}

/// Writes that the log of a pair is not sound.
fn write_unsound<K: Sink>(pair: u8, out: &mut K) -> End
    ensures { Ends (λ outcome. outcome ≡ outcomes.Unsound (texts.unsound_text pair)) (K.state out.old) (K.state out.new) result }
{
    match write_all(out, counted(b"unsound", u32::from(pair)).as_slice()) {
        Ok(()) => End::Unsound,
        Err(_) => End::WriteFault,
    }
}

/// Writes the standings over the games and logs of these names, in turn. It reads and judges all of them before it writes the text.
pub(crate) fn table_files<F: Files, K: Sink>(
    alloc: Global,
    names: &[String],
    files: &mut F,
    out: &mut K,
) -> End
    requires names { IfSome (F.state files.old).names (λ selected. (selected ≡ []) × All (λ name. string_len name ≤ NAME_BYTES) names.now) }
    requires few { length names.now ≤ FILE_NAMES }
    ensures { EndsBatch (commands.Table (in_pairs (bytes_of_words names.now))) (F.state files.old) (F.state files.new) (K.state out.old) (K.state out.new) result }
{
    match add_pairs(alloc, names, files) {
        Ok(standings) => write_standings(alloc, &standings, out),
        Err(TableFault::Unsound(pair)) => write_unsound(pair, out),
        Err(TableFault::Refused(refusal)) => End::Refused(refusal),
    }
}
