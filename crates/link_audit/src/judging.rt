// Judges a log by one link.
ghost use Rattle.std.specs.Prelude.{◌≡◌, ◌≤◌, ◌-◌, ◌↔◌, if◌then◌else◌, ℕ, [], false, IfOk, IsTrue, Some, length, slice_get};
ghost use Rattle.link_audit.specs.{LINK_BYTES, SESSION_LINES, IsSound, HasTruePosts, IsAhead, IsTable, IsWide, subject_of, IsVouched, HasNumbers, IsDifferenceOf, IsWhole, IsWholeLink, IsYes, IsYesExactlyIf, EndsSo, IsAccounted, IsFinished, TellsMemory, lines_at};
ghost use Rattle.link_audit.specs.declared.hearing.Heard.TheVariants.{Through};

use crate::causes::{Ending, has_cause_for};
use crate::greeting::{behind_welcome, seat_of};
use crate::hearing::{Heard, hear};
use crate::known::KnownDialect;
use crate::leaving::open_ending;
use crate::lines::line_end;
use crate::passing::pass;
use crate::places::Places;
use crate::replies::count_memory;
use crate::table::table;
use crate::vouching::{Difference, Vouching};
use game_text::Game;
use log_audit::no_flaw;
use log_reader::Log;
use std::alloc::Global;
use tac_base::{Agent, Board, Memory};

/// The result for a link by its lines alone, and what they show of the end of its session.
#[derive(Clone, Copy, Debug)]
struct Accounted {
    vouching: Vouching,
    ending: Ending,
}

/// The result for a link about which the log is right, once no line without a reply is left: whole, if the last byte sent to the agent is a
/// line end.
fn vouched(agent: Agent, lines: u32, after: u32, memory: u32, ended: bool) -> Vouching
    ensures { result ≡ (if ended then Vouching.Whole agent lines memory else Vouching.Cut agent lines after memory) }
{
    if ended {
        Vouching::Whole {
            agent,
            lines,
            memory,
        }
    } else {
        Vouching::Cut {
            agent,
            lines,
            after,
            memory,
        }
    }
}

/// Whether the last byte is a line end.
fn is_ended(bytes: &[u8]) -> bool
    ensures { IsTrue result ↔ (slice_get bytes.now (length bytes.now - 1) ≡ Some 10) }
{
    match bytes.last() {
        Some(last) => *last == b'\n',
        None => false,
    }
}

/// The result for a link after the walk over its replies. `ended` says whether the last byte sent to the agent is a line end.
fn finish<D: KnownDialect>(
    log: &Log,
    boards: &[Vec<Board>],
    agent: Agent,
    dialect: &D,
    asked: &[u8],
    at: usize,
    places: &Places,
    lines: u32,
    memory: u32,
    ended: bool,
) -> Result<Vouching, Memory>
    requires posts { HasTruePosts log.now }
    requires table { IsTable boards.now }
    requires short { (at ≤ length asked.now) × (length asked.now ≤ LINK_BYTES) }
    requires wide { IsWide places.now }
    requires few { lines ≤ SESSION_LINES }
    ensures yes { IfOk result (IsYesExactlyIf agent (IsAhead (D.form dialect.now) (subject_of log.now boards.now agent) places.now (lines_at asked.now at) [] (SESSION_LINES - lines))) }
    ensures how { IfOk result (IsFinished (D.form dialect.now) (subject_of log.now boards.now agent) asked.now ended (Through places.now at lines)) }
    ensures told { IfOk result (TellsMemory memory) }
{
    match pass(log, boards, agent, dialect, asked, at, places, lines)? {
        Ok(after) => match line_end(asked, at) {
            None => Ok(vouched(agent, lines, after, memory, ended)),
            Some(_) => Ok(Vouching::Cut {
                agent,
                lines,
                after,
                memory,
            }),
        },
        Err(left) => Ok(Vouching::Not(left)),
    }
}

/// The result for a link that differs here.
fn unlike(difference: Difference) -> Accounted
    ensures { result ≡ record { vouching = Vouching.Not difference; ending = Ending.Quit } }
{
    Accounted {
        vouching: Vouching::Not(difference),
        ending: Ending::Quit,
    }
}

/// Judges a sound log by the lines of a link: whether they account for the log's part of its agent. After `Memory` it found nothing.
fn account<D: KnownDialect>(
    alloc: Global,
    game: &Game,
    log: &Log,
    dialect: &D,
    asked: &[u8],
    said: &[u8],
) -> Result<Accounted, Memory>
    requires sound { IsSound game.now log.now }
    requires short { length asked.now ≤ LINK_BYTES }
    ensures lines { IfOk result (λ found. IsAccounted game.now (D.form dialect.now) log.now asked.now said.now found.vouching) }
    ensures ending { IfOk result (λ found. EndsSo game.now (D.form dialect.now) log.now asked.now said.now found.ending) }
{
    // The log is in its ranges, and has no flaw.
    let _head = log.head();
    no_flaw();
    let Some(end) = line_end(asked, 0) else {
        return Ok(unlike(Difference::Seat));
    };
    let Some(agent) = seat_of(game, log, &asked[0..end]) else {
        return Ok(unlike(Difference::Seat));
    };
    let Some(told) = behind_welcome(game, agent, said) else {
        return Ok(unlike(Difference::Welcome));
    };
    let boards = table(alloc, game, log)?;
    let ended = is_ended(said);
    let memory = count_memory(dialect, said, told);
    match hear(log, &boards, agent, dialect, asked, end + 1, said, told)? {
        Heard::Through { places, at, lines } => {
            let vouching = finish(
                log, &boards, agent, dialect, asked, at, &places, lines, memory, ended,
            )?;
            let ending = open_ending(dialect, asked, at, lines)?;
            Ok(Accounted { vouching, ending })
        }
        Heard::Gone { lines } => Ok(Accounted {
            vouching: vouched(agent, lines, 0, memory, ended),
            ending: Ending::Quit,
        }),
        Heard::Not(difference) => Ok(unlike(difference)),
    }
}

/// Judges a sound log by the bytes that the far end of one link tried to send and those that it got: whether the calls of its agent are
/// those that its lines requested, each once and in order, with the replies that arrived, and whether its session can have ended as the log
/// says. After `Memory` it found nothing.
pub fn vouch<D: KnownDialect>(
    alloc: Global,
    game: &Game,
    log: &Log,
    dialect: &D,
    asked: &[u8],
    said: &[u8],
) -> Result<Vouching, Memory>
    requires sound { IsSound game.now log.now }
    requires short { length asked.now ≤ LINK_BYTES }
    // The result is a yes exactly if the log is right about the link, as this agent's.
    ensures yes { IfOk result (λ vouching. (agent : ℕ) → IsYes agent vouching ↔ IsVouched game.now (D.form dialect.now) log.now agent asked.now said.now) }
    // The result is whole exactly if, in addition, nothing of the link is left over.
    ensures whole { IfOk result (λ vouching. (agent : ℕ) → IsWhole agent vouching ↔ IsWholeLink game.now (D.form dialect.now) log.now agent asked.now said.now) }
    // The numbers of a yes are those of its turns.
    ensures numbers { IfOk result (λ v. (n : ℕ) (w : IsVouched game.now (D.form dialect.now) log.now n asked.now said.now)
        → HasNumbers (D.form dialect.now).text v w.account.heard w.account.unheard) }
    // A difference that it reports is the first one.
    ensures difference { IfOk result (IsDifferenceOf game.now (D.form dialect.now) log.now asked.now said.now) }
{
    let found = account(alloc, game, log, dialect, asked, said)?;
    if has_cause_for(log, asked, &found.ending, &found.vouching) {
        Ok(found.vouching)
    } else {
        Ok(Vouching::Not(Difference::Cause))
    }
}
