// Prints a best allocation with its certificate.
ghost use Rattle.std.specs.Prelude.{◌≡◌, ◌++◌, ◌∷◌, [], OnOk, IfOk, decimal};
ghost use Rattle.allocator.specs.Prelude.{text_of, tree_lines, tree_of};
ghost use Rattle.packages.specs.declared.travel_packages.Package.TheVariants as Package;
ghost use Rattle.allocator.specs.SolvedTexts as texts;

use bound_cert::{Cert, Solved, print_cert};
use packages::Package;
use std::alloc::{AllocError, Global};
use tac_base::{Memory, Text, print_numeral};
use text_forms::{PrintedPart, count_parts, print_parts, print_row};

/// The clients' packages, one per line.
#[derive(Drop)]
struct ClientPackages;

impl PrintedPart for ClientPackages {
    type Value = Package;

    ghost lines = { λ _ client p. texts.package_text client p ∷ [] };

    fn print(&self, client: u8, package: &Package, out: &mut Vec<u8>) -> Result<(), AllocError> {
        match package {
            Package::None => print_none(client, out),
            Package::Trip {
                hotel,
                arrive,
                depart,
                nights,
            } => {
                let numbers = [
                    i64::from(client),
                    i64::from(*hotel),
                    i64::from(*arrive),
                    i64::from(*depart),
                    i64::from(nights[0]),
                    i64::from(nights[1]),
                    i64::from(nights[2]),
                ];
                print_row(out, b"package", &numbers)
            }
        }
    }
}

/// Appends a number between two pieces of text. After an error the text may end within them.
fn print_between(
    before: &[u8],
    number: u64,
    after: &[u8],
    out: &mut Vec<u8>,
) -> Result<(), AllocError>
    ensures { OnOk result (out.new.items ≡ out.old.items ++ (before.now ++ (decimal number ++ after.now))) }
{
    let mut digits = Text::new();
    print_numeral(number, &mut digits);
    out.extend_from_slice(before)?;
    out.extend_from_slice(digits.as_slice())?;
    out.extend_from_slice(after)?;
    Ok(())
}

/// Appends the line of a client that stays at home. After an error the text may end within it.
fn print_none(client: u8, out: &mut Vec<u8>) -> Result<(), AllocError>
    ensures { OnOk result (out.new.items ≡ out.old.items ++ (texts.package_text client Package.None ++ 10 ∷ [])) }
{
    print_between(b"package ", u64::from(client), b" none\n", out)
}

/// Appends the line of the total. After an error the text may end within it.
fn print_total(total: u32, out: &mut Vec<u8>) -> Result<(), AllocError>
    ensures { OnOk result (out.new.items ≡ out.old.items ++ (texts.total_text total ++ 10 ∷ [])) }
{
    print_between(b"total ", u64::from(total), b"\n", out)
}

/// Appends the number of the certificate's lines, and then the lines. After an error the text may end within them.
fn print_counted(alloc: Global, cert: &Cert, out: &mut Vec<u8>) -> Result<(), Memory>
    ensures { OnOk result (out.new.items ≡ out.old.items ++ ((texts.count_text (tree_of cert.now.root) ++ 10 ∷ []) ++ text_of (tree_lines (tree_of cert.now.root)))) }
{
    let text = print_cert(alloc, cert)?;
    let lines = count_parts(text.as_slice(), b'\n') - 1;
    print_between(b"cert ", lines as u64, b"\n", out)?;
    out.extend_from_slice(text.as_slice())?;
    Ok(())
}

/// Appends the text of a best allocation: the total, a line for each client's package, the number of the certificate's
/// lines, and those lines. This project defines the text and its form. After `Memory` the text may end within it.
pub fn append_solved(alloc: Global, solved: &Solved, out: &mut Vec<u8>) -> Result<(), Memory>
    ensures { OnOk result (out.new.items ≡ out.old.items ++ texts.solved_text solved.now.total solved.now.allocation (tree_of solved.now.cert.root)) }
{
    print_total(solved.total, out)?;
    print_parts(&ClientPackages, &solved.allocation, out)?;
    print_counted(alloc, &solved.cert, out)?;
    out.extend_from_slice(b"end\n")?;
    Ok(())
}

/// Returns the text of a best allocation alone. After `Memory` it returns no text.
pub fn print_solved(alloc: Global, solved: &Solved) -> Result<Vec<u8>, Memory>
    ensures { IfOk result (λ text. text.items ≡ texts.solved_text solved.now.total solved.now.allocation (tree_of solved.now.cert.root)) }
{
    let mut out = Vec::new(alloc);
    append_solved(alloc, solved, &mut out)?;
    Ok(out)
}
