// Reads the certificate of an agent.
ghost use Rattle.std.specs.Prelude.{◌≡◌, ◌≤◌};
ghost use Rattle.bound_cert.specs.Reading.{cert_of};
ghost use Rattle.bound_cert.specs.Views.{tree_of};
ghost use Rattle.log_reader.specs.LogReading as reading;
ghost use Rattle.log_reader.specs.{fault_by, or_log_fault, IsLogReading, last_number, IsLowFault};

use crate::LogFault;
use crate::line_forms::count_of;
use crate::log_lines::{LogLines, well_formed};
use bound_cert::{Cert, CertFault, read_cert};
use std::alloc::Global;
use tac_base::Agent;

/// The reason of a certificate that ends too early or too late.
const TEXT_END: u8 = 7;

/// The fault of a log in which the block after the line with its length is not a certificate.
fn fault_at(number: u32, fault: CertFault) -> LogFault
    requires number { number ≤ last_number }
    requires line { IsLowFault fault }
    ensures { result ≡ fault_by number fault }
{
    match fault {
        CertFault::Memory => LogFault::Memory,
        CertFault::Line { line, reason } if reason != TEXT_END => {
            LogFault::Line {
                line: number + line,
            }
        }
        CertFault::Line { .. } | CertFault::TooLong => LogFault::Line { line: number },
    }
}

/// Reads the certificate of a block that follows the line with its length.
fn cert_at(alloc: Global, number: u32, block: &[u8]) -> Result<Cert, LogFault>
    requires { number ≤ last_number }
    ensures { IsLogReading (λ cert. tree_of cert.root) result (or_log_fault (reading.cert_by number (cert_of block.now))) }
{
    match read_cert(alloc, block) {
        Ok(cert) => Ok(cert),
        Err(fault) => Err(fault_at(number, fault)),
    }
}

/// Reads the certificate of an agent: its number of lines, and that many lines.
pub(crate) fn cert_in(
    alloc: Global,
    agent: Agent,
    lines: LogLines<'_>,
) -> Result<(Cert, LogLines<'_>), LogFault>
    ensures { IsLogReading (λ x. (tree_of x.0.root, x.1)) result (or_log_fault (reading.cert_in agent lines.entry)) }
{
    let (line, left) = lines.due()?;
    let number = line.number();
    let count = well_formed(number, count_of(agent, line.bytes()))?;
    match left.block(count) {
        None => Err(LogFault::Line { line: number }),
        Some((block, after)) => {
            let cert = cert_at(alloc, number, block)?;
            Ok((cert, after))
        }
    }
}
