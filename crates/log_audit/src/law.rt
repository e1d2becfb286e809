ghost use Rattle.std.specs.Prelude.{◌↔◌};
ghost use Rattle.log_audit.specs.{GameFile, LoggedGame, IsLogged, IsSound, IsFreeOf};
ghost use Rattle.log_audit.specs.declared.findings.Flaw.{Flaw};

/// The law of flaws, as this call's contract: a log in its ranges is sound exactly if it has no flaw, whatever audits it.
pub fn no_flaw()
    ensures { (game : GameFile) (log : LoggedGame) → IsLogged log → IsSound game log ↔ ((flaw : Flaw) → IsFreeOf game log flaw) }
{}
