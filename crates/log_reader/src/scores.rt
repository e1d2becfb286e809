ghost use Rattle.std.specs.Prelude.{◌≡◌};
ghost use Rattle.text_forms.specs.Steps as steps;
ghost use Rattle.log_reader.specs.SheetForms as forms;
ghost use Rattle.log_reader.specs.LogReading as reading;
ghost use Rattle.log_reader.specs.Faults.{or_log_fault, IsLogReading};

use crate::LogFault;
use crate::certs::cert_in;
use crate::line_forms::{package_of, score_of};
use crate::log_lines::{LogLines, well_formed};
use crate::parts::LogPart;
use bound_cert::Cert;
use packages::Package;
use std::alloc::Global;
use std::marker::Model;
use tac_base::Agent;
use text_forms::BadLine;

/// The score of an agent in a log, with an allocation and a certificate. Reading does not test what they show.
#[derive(Debug, Drop)]
pub struct ScoreLine {
    /// The best total of its clients, in dollars: 0..14000.
    pub best: u32,
    /// Its cash, in dollars: at most 18 digits.
    pub cash: i64,
    /// The number of tickets that it is short.
    pub short: u32,
    /// Its score, in dollars: at most 18 digits.
    pub score: i64,
    /// The packages of its clients in order.
    pub allocation: [Package; 8],
    /// The certificate of the best total.
    pub cert: Cert,
}

impl Model for ScoreLine {
    ghost use Rattle.std.specs.Coded.{codes};
    ghost use Rattle.bound_cert.specs.Views.{tree_of};
    ghost use Rattle.settlement.specs.Sheets.{Scored};
    ghost use Rattle.bound_cert.specs.TreeCodes.{tree_code};

    ghost Value = { Scored };

    ghost coded = { Prim.hlevel (codes, tree_code) };

    ghost view = { λ s. record {
      best = s.best;
      cash = s.cash;
      short = s.short;
      score = s.score;
      allocation = s.allocation;
      tree = tree_of s.cert.root;
    } };
}

/// The scores of the agents, in order.
#[derive(Drop)]
pub(crate) struct Scores;

impl LogPart for Scores {
    type Value = ScoreLine;

    ghost gives = { λ _ agent left. reading.score_in agent left };

    ghost most = { λ _. 8 };

    fn read<'a>(
        &self,
        alloc: Global,
        number: u32,
        lines: LogLines<'a>,
    ) -> Result<(ScoreLine, LogLines<'a>), LogFault> {
        score_in(alloc, Agent::new(number as u8).unwrap(), lines)
    }
}

/// Reads the line of an agent's best total, cash, number of tickets short, and score.
fn score_at(
    agent: Agent,
    lines: LogLines<'_>,
) -> Result<((u32, i64, u32, i64), LogLines<'_>), BadLine>
    ensures { result ≡ reading.line_by (forms.read_score agent) lines.entry }
{
    let (line, left) = lines.due()?;
    let score = well_formed(line.number(), score_of(agent, line.bytes()))?;
    Ok((score, left))
}

/// Reads the line of the package of an agent's client, 0..7.
fn package_at(
    agent: Agent,
    client: u8,
    lines: LogLines<'_>,
) -> Result<(Package, LogLines<'_>), BadLine>
    ensures { result ≡ reading.line_by (forms.package_of agent client) lines.entry }
{
    let (line, left) = lines.due()?;
    let package = well_formed(line.number(), package_of(agent, client, line.bytes()))?;
    Ok((package, left))
}

/// Reads the packages of an agent's clients, in order.
fn packages_in(agent: Agent, lines: LogLines<'_>) -> Result<([Package; 8], LogLines<'_>), BadLine>
    ensures { result ≡ steps.repeat 8 0 (λ client. reading.line_by (forms.package_of agent client)) lines.entry }
{
    let mut packages = [Package::None; 8];
    let mut left = lines;
    for client in 0..8u8 {
        let (package, after) = package_at(agent, client, left)?;
        packages[usize::from(client)] = package;
        left = after;
    }
    Ok((packages, left))
}

/// Reads the score of an agent, its packages and its certificate.
fn score_in(
    alloc: Global,
    agent: Agent,
    lines: LogLines<'_>,
) -> Result<(ScoreLine, LogLines<'_>), LogFault>
    ensures { IsLogReading (λ x. x) result (or_log_fault (reading.score_in agent lines.entry)) }
{
    let ((best, cash, short, score), left) = score_at(agent, lines)?;
    let (allocation, left) = packages_in(agent, left)?;
    let (cert, left) = cert_in(alloc, agent, left)?;
    Ok((
        ScoreLine {
            best,
            cash,
            short,
            score,
            allocation,
            cert,
        },
        left,
    ))
}
