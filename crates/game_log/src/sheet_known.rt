// States what the types of a sheet's parts imply about the numbers in its text.
ghost use Rattle.std.specs.Prelude.{◌≡◌, true, length};
ghost use Rattle.std.specs.List.{AllByRecursion};
ghost use Rattle.bound_cert.specs.Trees.{IsCertificate};
ghost use Rattle.bound_cert.specs.Views.{tree_of};
ghost use Rattle.log_text.specs.LoggedSheet.{IsShownPackage, IsKnownScore};

use bound_cert::Cert;
use packages::Package;
use score_sheet::{AgentScore, Sheet};
use tac_base::limits::AGENTS;

/// The numbers of a package fit in 64 bits.
fn package_known(chosen: &Package) -> bool
    ensures holds { result ≡ true }
    ensures shown { IsShownPackage chosen.now }
{
    match chosen {
        Package::None => {}
        Package::Trip {
            hotel,
            arrive,
            depart,
            nights,
        } => {
            let _numbers = (*hotel, *arrive, *depart);
            let _nights = (nights[0], nights[1], nights[2]);
        }
    }
    true
}

/// There are eight packages, and each is in its ranges.
fn packages_known(packages: &[Package; 8])
    ensures eight { length packages.now ≡ 8 }
    ensures each { AllByRecursion IsShownPackage packages.now }
{
    prove!(packages.iter().all(|chosen| package_known(chosen)));
}

/// The tree of a certificate has a certificate's form.
fn cert_known(cert: &Cert)
    ensures { IsCertificate (tree_of cert.now.root) }
{
    let _root = &cert.root;
}

/// The numbers of a score, its packages and its certificate are in their ranges.
fn score_known(scored: &AgentScore) -> bool
    ensures holds { result ≡ true }
    ensures known { IsKnownScore scored.now }
{
    packages_known(&scored.solved.allocation);
    cert_known(&scored.solved.cert);
    let _counts = (u64::from(scored.best), u64::from(scored.short));
    let _dollars = (scored.cash, scored.score);
    true
}

/// A sheet has eight scores, each in its ranges.
pub(crate) fn sheet_known(sheet: &Sheet)
    ensures count { length sheet.now ≡ AGENTS }
    ensures scores { AllByRecursion IsKnownScore sheet.now }
{
    prove!(sheet.agents.iter().all(|scored| score_known(scored)));
}
