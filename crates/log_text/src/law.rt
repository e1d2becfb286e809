ghost use Rattle.std.specs.Prelude.{◌≡◌, ◌++◌, ℕ, List};
ghost use Rattle.log_text.specs.{ClosedGame, Scored, Head, IsShownSheet, sheet_part, HaveOwnPlayParts, HaveOwnLogs};

/// The law of logs, as this call's contract: a text begins with at most one first part of a log. So games with different
/// heads or histories have different first parts, whatever follows.
pub fn one_game()
    ensures { (head other_head : Head) (game other : ClosedGame) (rest other_rest : List ℕ) → HaveOwnPlayParts head other_head game other rest other_rest }
{}

/// The law of sheets, as this call's contract: a text begins with at most one second part of a log.
pub fn one_sheet()
    ensures { (sheet other : List Scored) (rest other_rest : List ℕ) → IsShownSheet sheet → IsShownSheet other →
        sheet_part sheet ++ rest ≡ sheet_part other ++ other_rest → (sheet ≡ other) × (rest ≡ other_rest) }
{}

/// The law of whole logs, as this call's contract: games with different heads, histories or sheets have different logs.
pub fn one_log()
    ensures { (head other_head : Head) (game other : ClosedGame) (sheet other_sheet : List Scored) → HaveOwnLogs head other_head game other sheet other_sheet }
{}
