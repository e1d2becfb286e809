ghost use Rattle.std.specs.Prelude.{◌≤◌, ◌↔◌, ℕ, List, length};
ghost use Rattle.tac_base.specs.declared.limits.TheConstants.{TEXT_BYTES};
ghost use Rattle.reading_laws.specs.FirstBadLine.{IsFirstBadLine};
ghost use Rattle.reading_laws.specs.Certificates.{IsCertificateText, IsRefusedAt};

/// The law of the first bad line of certificates, as this call's contract: a text of at most 67,108,864 bytes is refused at a line
/// exactly if the lines before it begin the text of some certificate, and the lines through it begin none.
pub fn first_bad_line_of_certificates()
    ensures { (text : List ℕ) (line : ℕ) → length text ≤ TEXT_BYTES → IsRefusedAt text line ↔ IsFirstBadLine IsCertificateText text line }
{}
