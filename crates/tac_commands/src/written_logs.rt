// The law of the logs that commands write.
ghost use Rattle.std.specs.Prelude.{◌≡◌, ◌≤◌, ◌++◌, ℕ, List, length, Ok};
ghost use Rattle.tac_commands.specs.{TEXT_BYTES, GameFile, LoggedGame, read_as, EndsInSoundLog, IsOnlyGameIn, IsSaidSound};
ghost use Rattle.tac_commands.specs.declared.file_kinds.FileKind.TheVariants.{Log};

use game_log::one_game;

/// The law of written logs, as this call's contract, for a text that ends in the sound log of a game, as those of `serve` and `play` do.
pub fn written_log_law()
    // As a file of its own, the log is read as itself, if it has at most 67,108,864 bytes.
    ensures read { (game : GameFile) (log : LoggedGame) (before text : List ℕ) → EndsInSoundLog game log before (before ++ text) → length text ≤ TEXT_BYTES → read_as Log text ≡ Ok log }
    // An audit by the game then says that it is sound, unless a memory allocation failed.
    ensures audited { (game : GameFile) (log : LoggedGame) (before text : List ℕ) → EndsInSoundLog game log before text → IsSaidSound game log }
    // Whatever comes before them, and however long they are, logs with the same bytes have the same head, histories and cash history.
    ensures one { (game : GameFile) (log : LoggedGame) (before text : List ℕ) → EndsInSoundLog game log before (before ++ text) → IsOnlyGameIn text log }
{
    one_game();
}
