ghost use Rattle.std.specs.Prelude.{◌≤◌, ◌↔◌, ℕ, List, length};
ghost use Rattle.tac_base.specs.declared.limits.TheConstants.{TEXT_BYTES};
ghost use Rattle.reading_laws.specs.Logs.{IsRefusedLogAt, IsBadLogLine};

/// The law of the first bad line of logs, as this call's contract: a text of at most 67,108,864 bytes is refused at a line exactly if that
/// is its bad line by the exception for certificates, or if the exception gives no other line, the lines before it begin the text of some
/// log, and the lines through it begin none.
pub fn first_bad_line_of_logs()
    ensures { (text : List ℕ) (line : ℕ) → length text ≤ TEXT_BYTES → IsRefusedLogAt text line ↔ IsBadLogLine text line }
{}
