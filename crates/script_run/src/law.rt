// The law of games that are played by scripts.
ghost use Rattle.std.specs.Prelude.{◌≡◌, ℕ, List, Ok};
ghost use Rattle.script_run.specs.declared.game.lines.GameLine.{GameLine};
ghost use Rattle.script_run.specs.{closed_game, game_script, IsLawfulGame};

use clock_events::schedule_law;
use game_text::Game;

/// The law of games that are played by scripts, as this call's contract. Whatever the lines request, each of the 28 histories is
/// legal by the rules, and the clock's calls in it are those of the schedule; the cash history is legal, and has exactly one
/// post for each entry with a trade, by that entry's caller with the nets of its trades.
pub fn script_law(game: &Game)
    ensures { (script : List ℕ) (lines : List GameLine) → game_script script ≡ Ok lines → IsLawfulGame game.now (closed_game game.now lines) }
{
    schedule_law(game);
}
