// Audits a log, kind of flaw by kind.
ghost use Rattle.std.specs.Prelude.{◌≡◌, ◌↔◌, IfOk};
ghost use Rattle.log_audit.specs.{GameFile, settlement_of, IsLogged, IsSound, auctions_in, IsFound, IsFirstFrom, AreNets};

use crate::findings::{Finding, Flaw};
use crate::heads::is_sound_head;
use crate::places::Places;
use crate::posts::{false_post, unposted};
use crate::readings::false_reading;
use crate::replaying::{Replays, replay_all};
use crate::scheduling::off_schedule;
use crate::scores::false_score;
use game_text::Game;
use log_reader::Log;
use settlement::{Accounts, settle_auctions};
use std::alloc::Global;
use tac_base::{Memory, Nets};

/// The first flaw in the clock's calls.
fn clock_flaw(alloc: Global, game: &Game, log: &Log) -> Result<Option<Flaw>, Memory>
    ensures { IfOk result (IsFirstFrom game.now log.now 1 2) }
{
    let lowest = off_schedule(alloc, game, log)?;
    match lowest {
        Some(good) => Ok(Some(Flaw::Clock { good })),
        None => Ok(None),
    }
}

/// The first flaw in the readings.
fn cash_flaw(log: &Log) -> Option<Flaw>
    ensures { (game : GameFile) → IsFirstFrom game log.now 2 3 result }
{
    match false_reading(log.cash()) {
        Some(position) => Some(Flaw::Cash { position }),
        None => None,
    }
}

/// The first flaw in the posts, or in the entries that should have one.
fn post_flaw(alloc: Global, log: &Log, earned: &[Vec<Nets>]) -> Result<Option<Flaw>, Memory>
    requires { AreNets log.now earned.now }
    ensures { IfOk result (λ flaw. (game : GameFile) → IsFirstFrom game log.now 3 5 flaw) }
{
    let mut places = Places::new(alloc)?;
    if let Some(position) = false_post(log, earned, &mut places) {
        return Ok(Some(Flaw::Post { position }));
    }
    match unposted(log, &places) {
        Some((good, position)) => Ok(Some(Flaw::Unposted { good, position })),
        None => Ok(None),
    }
}

/// The first flaw in the scores, or in the head.
fn last_flaw(game: &Game, log: &Log, accounts: &Accounts) -> Option<Flaw>
    requires logged { IsLogged log.now }
    requires accounts { accounts.now ≡ settlement_of (auctions_in game.now log.now) }
    ensures { IsFirstFrom game.now log.now 5 7 result }
{
    if let Some(agent) = false_score(game, log, accounts) {
        return Some(Flaw::Score { agent });
    }
    if is_sound_head(log) {
        None
    } else {
        Some(Flaw::Head)
    }
}

/// Judges a log by its game: whether its histories are legal and its posts right, whether the scores are those that are due, with packages
/// and certificates for them, and whether the head agrees with all that. It plays nothing over links and searches for no best allocation.
/// A log does not hold what links sent and were sent, so this says nothing about it. After `Memory` it found nothing.
pub fn audit_log(alloc: Global, game: &Game, log: &Log) -> Result<Finding, Memory>
    ensures sound { IfOk result (λ finding. (finding ≡ Finding.Sound) ↔ IsSound game.now log.now) }
    // A flaw that it reports is one of the log, and no flaw of the log comes before it.
    ensures flaw { IfOk result (IsFound game.now log.now) }
{
    let (auctions, earned) = match replay_all(alloc, game, log)? {
        Replays::Fair { auctions, nets } => (auctions, nets),
        Replays::Unfair { good, position } => {
            return Ok(Finding::Unsound(Flaw::Entry { good, position }));
        }
    };
    if let Some(flaw) = clock_flaw(alloc, game, log)? {
        return Ok(Finding::Unsound(flaw));
    }
    if let Some(flaw) = cash_flaw(log) {
        return Ok(Finding::Unsound(flaw));
    }
    if let Some(flaw) = post_flaw(alloc, log, &earned)? {
        return Ok(Finding::Unsound(flaw));
    }
    let accounts = settle_auctions(&auctions);
    match last_flaw(game, log, &accounts) {
        Some(flaw) => Ok(Finding::Unsound(flaw)),
        None => Ok(Finding::Sound),
    }
}
