ghost use Rattle.std.specs.Prelude.{◌≤◌, ◌↔◌, ℕ, List, length};
ghost use Rattle.tac_base.specs.declared.limits.TheConstants.{GAME_BYTES, TEXT_BYTES};
ghost use Rattle.reading_laws.specs.FirstBadLine.{IsFirstBadLine};
ghost use Rattle.reading_laws.specs.Games.{IsGameText, IsRefusedGameAt, IsTextOfAccount, IsRefusedAccountAt};

/// The law of the first bad line of game files, as this call's contract: a text of at most 1,048,576 bytes is refused at a line exactly
/// if the lines before it begin a text of some game, and the lines through it begin none. Such texts may have comments and empty lines.
pub fn first_bad_line_of_games()
    ensures { (text : List ℕ) (line : ℕ) → length text ≤ GAME_BYTES → IsRefusedGameAt text line ↔ IsFirstBadLine IsGameText text line }
{}

/// The law of the first bad line of account files, as this call's contract: the same for texts of at most 67,108,864 bytes and
/// accounts.
pub fn first_bad_line_of_accounts()
    ensures { (text : List ℕ) (line : ℕ) → length text ≤ TEXT_BYTES → IsRefusedAccountAt text line ↔ IsFirstBadLine IsTextOfAccount text line }
{}
