// Computes the scores of all agents concurrently.
ghost use Rattle.std.specs.Prelude.{◌≡◌, ℕ, ◌<◌, Ok, IfOk, map, vec_len, slice_index_or};
ghost use Rattle.settlement.specs.Sheets.{IsDueScore, IsSheet};

use crate::scores::score_agent;
use game_text::Game;
use settlement::{Accounts, AgentScore, Sheet};
use std::alloc::{AllocError, Global};
use std::thread::{Threads, map_indices};
use tac_base::Memory;
use tac_base::limits::AGENTS;

/// Scores the eight agents, each in its own thread if threads can be started.
fn score_all<R: Threads + Sync>(
    rt: &R,
    alloc: Global,
    game: &Game,
    accounts: &Accounts,
) -> Result<Vec<Result<AgentScore, Memory>>, AllocError>
    ensures count { IfOk result (λ found. vec_len found ≡ AGENTS) }
    ensures due { IfOk result (λ found. (agent : ℕ) (d : _) → agent < AGENTS → IfOk (slice_index_or found.items agent d) (IsDueScore game.now accounts.now agent)) }
{
    map_indices(
        rt,
        alloc,
        8,
        &|agent: usize| -> Result<AgentScore, Memory>
            requires { agent < AGENTS }
            ensures { IfOk result (IsDueScore game.entry.now accounts.entry.now agent) }
        { score_agent(alloc, game, accounts, agent) },
    )
}

/// Returns the scores in order, unless a memory allocation failed for one of them.
fn all_found(
    alloc: Global,
    found: Vec<Result<AgentScore, Memory>>,
) -> Result<Vec<AgentScore>, Memory>
    ensures { IfOk result (λ scores. map Ok scores.items ≡ found.items) }
{
    let mut scores = Vec::with_capacity(alloc, found.len())?;
    for score in found {
        scores.push_reserved(score?);
    }
    Ok(scores)
}

/// Scores all agents from their accounts, each in its own thread if threads can be started. After `Memory` it
/// returns no score.
pub fn sheet<R: Threads + Sync>(
    rt: &R,
    alloc: Global,
    game: &Game,
    accounts: &Accounts,
) -> Result<Sheet, Memory>
    ensures { IfOk result (IsSheet game.now accounts.now) }
{
    let found = score_all(rt, alloc, game, accounts)?;
    let agents = all_found(alloc, found)?;
    Ok(Sheet { agents })
}
