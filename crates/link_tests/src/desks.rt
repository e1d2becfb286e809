// Desks of the quiet game.
ghost use Rattle.std.specs.Prelude.{◌≡◌, [], IfOk, replicate};
ghost use Rattle.floor.specs.Desks.{desk_cash, desk_caller, desk_ids, desk_entries};
ghost use Rattle.floor.specs.Floors.{floor_ids};

use floor::{Desk, Floor};
use game_text::Game;
use std::alloc::Global;
use std::test::Fail;

/// A floor of a game, with the desks of agents 0, 1 and 2.
pub(crate) fn begin_three(alloc: Global, game: &Game) -> Result<(Floor, Desk, Desk, Desk), Fail>
    ensures first { IfOk result (λ r. (desk_ids r.1 ≡ floor_ids r.0) × (desk_caller r.1 ≡ 0)) }
    ensures no_calls { IfOk result (λ r. (desk_entries r.1 ≡ replicate 28 []) × (desk_cash r.1 ≡ [])) }
    ensures second { IfOk result (λ r. (desk_ids r.2 ≡ floor_ids r.0) × (desk_caller r.2 ≡ 1)) }
    ensures third { IfOk result (λ r. (desk_ids r.3 ≡ floor_ids r.0) × (desk_caller r.3 ≡ 2)) }
{
    let (floor, desks) = Floor::begin(alloc, game)?;
    let mut desks = desks.into_iter();
    let first = desks.next().unwrap();
    let second = desks.next().unwrap();
    let third = desks.next().unwrap();
    Ok((floor, first, second, third))
}
