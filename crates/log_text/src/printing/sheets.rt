// Prints a sheet.
ghost use Rattle.std.specs.Prelude.{◌≡◌, ◌++◌, ◌∷◌, [], ◌≤◌, length, OnOk, IfOk};
ghost use Rattle.log_text.specs.Prelude.{text_of, tree_lines};
ghost use Rattle.packages.specs.declared.travel_packages.Package.TheVariants as Package;
ghost use Rattle.bound_cert.specs.Views.{tree_of};
ghost use Rattle.log_text.specs.SheetText as texts;

use crate::printing::lines::push_number;
use bound_cert::{Cert, print_cert};
use packages::Package;
use settlement::{AgentScore, Sheet};
use std::alloc::{AllocError, Global};
use tac_base::{Memory, Text};
use text_forms::{PrintedPart, count_parts, print_parts, print_row};

/// The line of a client that stays at home, without its line end.
pub fn none_line(agent: u8, client: u8) -> Text
    ensures value { result ≡ texts.package_line agent client Package.None }
    ensures len { length result ≤ 60 }
{
    let mut line = Text::new();
    line.push_bytes(b"package");
    push_number(u64::from(agent), &mut line);
    push_number(u64::from(client), &mut line);
    line.push_bytes(b" none");
    line
}

/// Appends the line of a client that stays at home. After an error the text may end within it.
fn print_none(agent: u8, client: u8, out: &mut Vec<u8>) -> Result<(), AllocError>
    ensures { OnOk result (out.new.items ≡ out.old.items ++ (texts.package_line agent client Package.None ++ 10 ∷ [])) }
{
    let mut line = none_line(agent, client);
    line.push(b'\n');
    out.extend_from_slice(line.as_slice())?;
    Ok(())
}

/// The packages of an agent's clients, one per line.
#[derive(Drop)]
struct AgentPackages {
    agent: u8,
}

impl PrintedPart for AgentPackages {
    type Value = Package;

    ghost lines = { λ part client p. texts.package_line part.agent client p ∷ [] };

    fn print(&self, client: u8, package: &Package, out: &mut Vec<u8>) -> Result<(), AllocError> {
        match package {
            Package::None => print_none(self.agent, client, out),
            Package::Trip {
                hotel,
                arrive,
                depart,
                nights,
            } => {
                let numbers = [
                    i64::from(self.agent),
                    i64::from(client),
                    i64::from(*hotel),
                    i64::from(*arrive),
                    i64::from(*depart),
                    i64::from(nights[0]),
                    i64::from(nights[1]),
                    i64::from(nights[2]),
                ];
                print_row(out, b"package", &numbers)
            }
        }
    }
}

/// Appends the line of an agent's score. After an error the text may end within it. This project defines the form.
pub fn print_score(agent: u8, scored: &AgentScore, out: &mut Vec<u8>) -> Result<(), AllocError>
    ensures { OnOk result (out.new.items ≡ out.old.items ++ (texts.score_line agent scored.now ++ 10 ∷ [])) }
{
    let numbers = [
        i64::from(agent),
        i64::from(scored.best),
        scored.cash,
        i64::from(scored.short),
        scored.score,
    ];
    print_row(out, b"score", &numbers)
}

/// Appends the line of the number of a certificate's lines. After an error the text may end within it.
fn print_count(agent: u8, count: usize, out: &mut Vec<u8>) -> Result<(), AllocError>
    ensures { OnOk result (out.new.items ≡ out.old.items ++ (texts.cert_line agent count ++ 10 ∷ [])) }
{
    let mut line = Text::new();
    line.push_bytes(b"cert");
    push_number(u64::from(agent), &mut line);
    push_number(count as u64, &mut line);
    line.push(b'\n');
    out.extend_from_slice(line.as_slice())?;
    Ok(())
}

/// Appends the number of a certificate's lines, and then the lines. After an error the text may end within them.
fn print_counted(alloc: Global, agent: u8, cert: &Cert, out: &mut Vec<u8>) -> Result<(), AllocError>
    ensures { let lines = tree_lines (tree_of cert.now.root) in
        OnOk result (out.new.items ≡ out.old.items ++ ((texts.cert_line agent (length lines) ++ 10 ∷ []) ++ text_of lines)) }
{
    let Ok(text) = print_cert(alloc, cert) else {
        return Err(AllocError);
    };
    print_count(agent, count_parts(text.as_slice(), b'\n') - 1, out)?;
    out.extend_from_slice(text.as_slice())?;
    Ok(())
}

/// The agents' scores, each with its packages and its certificate.
#[derive(Drop)]
struct AgentSheets {
    alloc: Global,
}

impl PrintedPart for AgentSheets {
    type Value = AgentScore;

    ghost lines = { λ _ agent scored. texts.agent_lines agent scored };

    fn print(&self, agent: u8, scored: &AgentScore, out: &mut Vec<u8>) -> Result<(), AllocError> {
        print_score(agent, scored, out)?;
        print_parts(&AgentPackages { agent }, &scored.solved.allocation, out)?;
        print_counted(self.alloc, agent, &scored.solved.cert, out)
    }
}

/// Returns the second part of a log.
pub fn print_sheet(alloc: Global, sheet: &Sheet) -> Result<Vec<u8>, Memory>
    ensures { IfOk result (λ text. text.items ≡ texts.sheet_part sheet.now) }
{
    let mut out = Vec::new(alloc);
    out.extend_from_slice(b"sheet\n")?;
    print_parts(&AgentSheets { alloc }, sheet.agents.as_slice(), &mut out)?;
    out.extend_from_slice(b"end\n")?;
    Ok(out)
}
