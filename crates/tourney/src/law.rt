ghost use Rattle.std.specs.Prelude.{◌≡◌, ℕ, List};
ghost use Rattle.tourney.specs.{GameFile, LoggedGame, AreRows, IsPrinted};
ghost use Rattle.tourney.specs.declared.rows.TeamRow.{TeamRow};

/// The law of the standings, as this call's contract: games have one list of rows, and one text.
pub fn one_standings()
    ensures rows { (played : List (GameFile × LoggedGame)) (rows others : List TeamRow) → AreRows played rows → AreRows played others → rows ≡ others }
    ensures text { (played : List (GameFile × LoggedGame)) (old text other : List ℕ) → IsPrinted played old text → IsPrinted played old other → text ≡ other }
{}
