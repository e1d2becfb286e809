ghost use Rattle.std.specs.Prelude.{◌≡◌};
ghost use Rattle.bound_cert.specs.Faults.{cert_fault};

use text_forms::BadLine;

/// Why a text cannot be read as a certificate. No certificate was made.
#[derive(Clone, Copy, Debug, PartialEq, Eq)]
pub enum CertFault {
    /// The first bad line, counted from 1, with the number of the first reason that applies to it: 1 to 4, 7 or 8.
    Line { line: u32, reason: u8 },
    /// The text has more than 67,108,864 bytes.
    TooLong,
    /// A memory allocation failed.
    Memory,
}

impl From<BadLine> for CertFault {
    ghost from_gives = { λ bad fault. fault ≡ cert_fault bad };

    fn from(bad: BadLine) -> Self {
        CertFault::Line {
            line: bad.line,
            reason: bad.reason.number(),
        }
    }
}
