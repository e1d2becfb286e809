ghost use Rattle.std.specs.Prelude.{◌≡◌, ◌≤◌, ℕ, List, false, Ok, length};
ghost use Rattle.log_reader.specs.{TEXT_BYTES, parts_of, lines_from, Scored, Head, log_in};
ghost use Rattle.auction_core.specs.ClosedGame.{ClosedGame};
ghost use Rattle.log_text.specs.{histories_of, log_text, LoggedGame, IsLogged, logged_text};

/// The law of reading logs, as this call's contract: what is read from a text is a log in its ranges, and the text is that log's; each log
/// in its ranges is read as itself, if its text has at most 67,108,864 bytes; and the log of a game is the text of its contents.
pub fn one_reading()
    ensures found { (text : List ℕ) (log : LoggedGame) → log_in (lines_from false 1 (parts_of 10 text)) ≡ Ok log → (text ≡ logged_text log) × IsLogged log }
    ensures only { (log : LoggedGame) → IsLogged log → length (logged_text log) ≤ TEXT_BYTES → log_in (lines_from false 1 (parts_of 10 (logged_text log))) ≡ Ok log }
    ensures game { (head : Head) (game : ClosedGame) (sheet : List Scored) →
        log_text head game sheet ≡ logged_text (record { head = head; histories = histories_of game; cash = game.cash; scores = sheet }) }
{}
