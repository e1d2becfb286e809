// Serves a game over links.
ghost use Rattle.std.specs.Prelude.{◌≡◌, ◌∷◌, [], IfSome};
ghost use Rattle.tacd.specs.{known_then, code_number, seen_service, EndsOrStops, ReportsOne, outside_of, hosted_game, missed_of, FilesState, MaySelect, head_of, at_pace, Serves, ServesGame};
ghost use Rattle.tacd.specs.Finishing as finishing;
ghost use Rattle.tac_io.specs.Written.{WritesPiece};

use crate::answer::{Answer, Played, coded};
use agent_gate::{Dialect, LineDialect};
use auction_core::Closed;
use game_log::{LogHead, LogWriteFault, log_ranges, write_play_part, write_scores};
use game_run::{GameEnd, RunFault, run_game};
use game_text::Game;
use json_dialect::JsonDialect;
use std::alloc::Global;
use std::sync::Wait;
use std::thread::Threads;
use std::time::Clock;
use tac_commands::{Code, End, Form, Refusal, Service, finish, read_value};
use tac_io::{Failed, Files, Links, Sink, Ticker};

/// Writes the first part of the log of a game that was played.
fn write_first<K: Sink>(out: &mut K, played: &Played) -> Result<(), Failed>
    ensures { WritesPiece (finishing.first_part played.now) (K.state out.old) (K.state out.new) result }
{
    write_play_part(out, &played.head, &played.closed)
}

/// Writes the log of a game that was played.
fn write_log<R: Threads + Sync, K: Sink>(
    rt: &R,
    alloc: Global,
    game: &Game,
    played: &Played,
    out: &mut K,
) -> End
    ensures { EndsOrStops (finishing.LogAllows game.now played.now) (K.state out.old) (K.state out.new) result }
{
    match write_first(out, played) {
        Ok(()) => match write_scores(rt, alloc, game, &played.closed, out) {
            Ok(()) => End::Done,
            Err(LogWriteFault::Failed) => End::WriteFault,
            Err(LogWriteFault::Memory) => End::Refused(Refusal::Memory),
        },
        Err(_) => End::WriteFault,
    }
}

/// The number of ticks that lapsed in a game.
fn missed(head: &LogHead) -> u8
    ensures { result ≡ missed_of (head_of head.now) }
{
    match head {
        LogHead::Play => 0,
        LogHead::Serve { missed, .. } => *missed,
    }
}

/// The code of a played game: that of a lapsed tick if no other applies.
fn lapsed_code(code: Code, missed: u8) -> Code
    ensures { result ≡ finishing.lapsed_code code missed }
{
    match code {
        Code::Success if missed > 0 => Code::ClockFault,
        _ => code,
    }
}

/// Writes the log of a game that was played, and returns the code.
fn finish_played<R: Threads + Sync, K: Sink>(
    rt: &R,
    alloc: Global,
    game: &Game,
    played: &Played,
    out: &mut K,
) -> Code
    ensures { ReportsOne (finishing.WritesLog game.now played.now) (K.state out.old) (K.state out.new) (code_number result) }
{
    let end = write_log(rt, alloc, game, played, out);
    let code = finish(out, end);
    lapsed_code(code, missed(&played.head))
}

/// Plays the game over the links by the ticker, with a pace in milliseconds, and writes its log.
fn serve_game<
    R: Threads + Sync + Wait + Clock,
    D: Dialect + Sync,
    K: Sink,
    N: Links,
    T: Ticker + Send,
>(
    rt: &R,
    alloc: Global,
    game: &Game,
    port: u16,
    pace: u16,
    dialect: &D,
    out: &mut K,
    links: &mut N,
    ticker: &mut T,
) -> Answer<N::Link>
    requires ports { IfSome (N.state links.old).ports (λ ports. ports ≡ []) }
    requires ticks { IfSome (T.state ticker.old).waited (λ ticks. ticks ≡ []) }
    ensures { (before after : FilesState) → ReportsOne (ServesGame N.Link.state (hosted_game game.now (D.form dialect.now) port)
        (at_pace pace (outside_of before (K.state out.old) (N.state links.old) (T.state ticker.old)))
        (outside_of after (K.state out.new) (N.state links.new) (T.state ticker.new)) result) (K.state out.old) (K.state out.new) result.code }
{
    ticker.pace(pace);
    match run_game(rt, alloc, game, port, dialect, links, ticker) {
        Ok(
            GameEnd {
                closed,
                head,
                links: ended,
            },
        ) => {
            // By this law, what was played keeps to the ranges of logs.
            log_ranges(game, &head, &closed);
            let played = Played { head, closed };
            let code = finish_played(rt, alloc, game, &played, out);
            Answer {
                code: code.number(),
                ended,
                played: Some(played),
            }
        }
        Err(RunFault::Links(ended)) => {
            let code = finish(out, End::Refused(Refusal::LinkFault));
            Answer {
                code: code.number(),
                ended,
                played: None,
            }
        }
        Err(RunFault::Memory) => {
            let code = finish(out, End::Refused(Refusal::Memory));
            coded(alloc, code)
        }
    }
}

/// Serves the game of a file over links, and writes its log.
pub(crate) fn serve<
    R: Threads + Sync + Wait + Clock,
    F: Files,
    K: Sink,
    N: Links,
    T: Ticker + Send,
>(
    rt: &R,
    alloc: Global,
    service: Service<'_>,
    files: &mut F,
    out: &mut K,
    links: &mut N,
    ticker: &mut T,
) -> Answer<N::Link>
    requires names { MaySelect (F.state files.old) service.game.now }
    requires ports { IfSome (N.state links.old).ports (λ ports. ports ≡ []) }
    requires ticks { IfSome (T.state ticker.old).waited (λ ticks. ticks ≡ []) }
    ensures outcome { Serves N.Link.state (seen_service service.entry)
        (outside_of (F.state files.old) (K.state out.old) (N.state links.old) (T.state ticker.old))
        (outside_of (F.state files.new) (K.state out.new) (N.state links.new) (T.state ticker.new)) result }
    ensures names { (F.state files.new).names ≡ known_then (F.state files.old).names (service.entry.game.now ∷ []) }
{
    match read_value::<Game, F>(alloc, files, service.game) {
        Ok(game) => match service.form {
            Form::Lines => serve_game(
                rt,
                alloc,
                &game,
                service.port,
                service.pace,
                &LineDialect,
                out,
                links,
                ticker,
            ),
            Form::Json => serve_game(
                rt,
                alloc,
                &game,
                service.port,
                service.pace,
                &JsonDialect::new(alloc),
                out,
                links,
                ticker,
            ),
        },
        Err(refusal) => {
            let code = finish(out, End::Refused(refusal));
            coded(alloc, code)
        }
    }
}
