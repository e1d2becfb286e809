// Plays a made game by a made script.
ghost use Rattle.std.specs.Prelude.{◌≡◌, ◌+◌, ◌≤◌, ◌++◌, IfOk};
ghost use Rattle.tac_commands.specs.{MADE_REQUESTS, IsBidScript, IsSummary, IsTrial, WritesDue};
ghost use Rattle.tac_commands.specs.Ends.{Ends, WritesWhole};
ghost use Rattle.tac_commands.specs.Trials as trials;

use crate::ends::End;
use crate::numbered_lines::counted;
use crate::refusals::Refusal;
use draw_maker::{make_game, make_script};
use game_log::print_score;
use game_text::Game;
use score_sheet::{AgentScore, Sheet};
use script_run::{PlayCount, QuietFault, play_quiet};
use std::alloc::{AllocError, Global};
use std::thread::Threads;
use tac_base::{Memory, Text, print_numeral};
use tac_io::{Sink, write_all};
use text_forms::{PrintedPart, print_parts};

/// The line of a trial.
fn trial_line(seed: u64, count: u32) -> Text
    ensures { result ≡ trials.trial_line seed count }
{
    let mut line = Text::new();
    line.push_bytes(b"trial ");
    print_numeral(seed, &mut line);
    line.push(b' ');
    print_numeral(u64::from(count), &mut line);
    line.push(b'\n');
    line
}

/// The agents' scores, one per line.
#[derive(Drop)]
struct ScoreLines;

impl PrintedPart for ScoreLines {
    ghost use Rattle.std.specs.Prelude.{[], ◌∷◌};
    ghost use Rattle.game_log.specs.SheetText.{score_line};

    type Value = AgentScore;

    ghost lines = { λ _ agent scored. score_line agent scored ∷ [] };

    fn print(&self, agent: u8, scored: &AgentScore, out: &mut Vec<u8>) -> Result<(), AllocError> {
        print_score(agent, scored, out)
    }
}

/// The summary of a trial.
fn trial_text(
    alloc: Global,
    seed: u64,
    count: u32,
    played: PlayCount,
    sheet: &Sheet,
) -> Result<Vec<u8>, Memory>
    ensures { IfOk result (λ text. text.items ≡ trials.trial_text seed count played sheet.now) }
{
    let mut out = Vec::new(alloc);
    out.extend_from_slice(trial_line(seed, count).as_slice())?;
    out.extend_from_slice(counted(b"entries", played.entries).as_slice())?;
    out.extend_from_slice(counted(b"trades", played.trades).as_slice())?;
    print_parts(&ScoreLines, sheet.agents.as_slice(), &mut out)?;
    out.extend_from_slice(b"end\n")?;
    Ok(out)
}

/// Writes the summary of a trial.
fn write_trial<K: Sink>(
    alloc: Global,
    seed: u64,
    count: u32,
    played: PlayCount,
    sheet: &Sheet,
    out: &mut K,
) -> End
    ensures { WritesWhole (trials.trial_text seed count played sheet.now) (K.state out.old) (K.state out.new) result }
{
    let Ok(text) = trial_text(alloc, seed, count, played, sheet) else {
        return End::Refused(Refusal::Memory);
    };
    match write_all(out, text.as_slice()) {
        Ok(()) => End::Done,
        Err(_) => End::WriteFault,
    }
}

/// Plays a game by a made script, which is never refused.
fn play_made<R: Threads + Sync>(
    rt: &R,
    alloc: Global,
    game: &Game,
    script: &[u8],
    count: u32,
) -> Result<(PlayCount, Sheet), Memory>
    requires few { count ≤ MADE_REQUESTS }
    requires made { IsBidScript count script.now }
    ensures { IfOk result (λ played. IsSummary game.now script.now played.0 played.1) }
{
    match play_quiet(rt, alloc, game, script) {
        Ok(played) => Ok(played),
        Err(QuietFault::Line { .. }) => unreachable!(),
        Err(QuietFault::TooLong) => unreachable!(),
        Err(QuietFault::Memory) => Err(Memory),
    }
}

/// Plays the made game by the made script, and writes the counts and the scores.
pub(crate) fn trial<R: Threads + Sync, K: Sink>(
    rt: &R,
    alloc: Global,
    seed: u64,
    count: u32,
    out: &mut K,
) -> End
    requires { count ≤ MADE_REQUESTS }
    ensures { Ends (WritesDue (IsTrial seed count)) (K.state out.old) (K.state out.new) result }
{
    let Ok(script) = make_script(alloc, seed, count) else {
        return End::Refused(Refusal::Memory);
    };
    match play_made(rt, alloc, &make_game(seed), script.as_slice(), count) {
        Ok((played, sheet)) => write_trial(alloc, seed, count, played, &sheet, out),
        Err(_) => End::Refused(Refusal::Memory),
    }
}
