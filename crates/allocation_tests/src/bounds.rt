// The worth of a trip, and bounds of whole accounts: certificates, as texts and as bounds, and prices.
ghost use Rattle.packages.specs.Packages.{IsPackage};

use crate::accounts::{ONE_SEAT, WRESTLING_FANS, account};
use bound_cert::{CertFault, check, print_cert, read_cert};
use dual_bound::{Choice, dual_prices};
use packages::{Package, leaf_bound, utility};
use relaxation::Relaxation;
use std::alloc::{AllocError, Global};
use std::test::Fail;
use tac_base::Client;

const ONE_SEAT_LEAF: &[u8] =
    b"leaf 1000 1750 1750 1750 0 1750 1750 1750 0 1750 1750 1750 1750 1750 1750 1750 150 1750 1750 1750 1750 1750 1750 1750 1750 1750 1750 1750\n";

const FREE_LEAF: &[u8] = b"leaf 0 0 0 0 0 0 0 0 0 0 0 0 0 0 0 0 0 0 0 0 0 0 0 0 0 0 0 0\n";

/// A leaf of the greatest prices.
const DEAR_LEAF: &[u8] =
    b"leaf 14001 14001 14001 14001 14001 14001 14001 14001 14001 14001 14001 14001 14001 14001 14001 14001 14001 14001 14001 14001 14001 14001 14001 14001 14001 14001 14001 14001\n";

/// A leaf that lacks the price of the last good.
const SHORT_LEAF: &[u8] = b"leaf 0 0 0 0 0 0 0 0 0 0 0 0 0 0 0 0 0 0 0 0 0 0 0 0 0 0 0\n";

const NO_GOODS: &str = "0 0 0 0 0 0 0 0 0 0 0 0 0 0 0 0 0 0 0 0 0 0 0 0 0 0 0 0";

/// Holdings, a certificate, a claim, and whether the certificate bounds it.
const CLAIMS: &[(&str, &[u8], u32, bool)] = &[
    (ONE_SEAT, ONE_SEAT_LEAF, 1150, true),
    (ONE_SEAT, ONE_SEAT_LEAF, 1149, false),
    (NO_GOODS, DEAR_LEAF, 0, true),
    (NO_GOODS, FREE_LEAF, 0, false),
    (NO_GOODS, FREE_LEAF, 14000, true),
];

/// How many splits stand one below the other, what follows them, and the bad line with its reason.
const REFUSED: &[(u8, &[u8], u32, u8)] = &[
    (33, b"", 33, 8),
    (32, b"", 33, 7),
    (0, SHORT_LEAF, 1, 2),
];

/// Splits, each the first child of the one before it, and then so many times another text.
fn tree(alloc: Global, splits: u8, text: &[u8], times: u8) -> Result<Vec<u8>, AllocError> {
    let mut tree = Vec::new(alloc);
    for _ in 0..splits {
        tree.extend_from_slice(b"split 0 1\n")?;
    }
    for _ in 0..times {
        tree.extend_from_slice(text)?;
    }
    Ok(tree)
}

/// Whether the certificate of a text bounds a claim, and is printed as it was read.
fn is_bound(alloc: Global, hold: &str, claim: u32, text: &[u8]) -> Result<bool, Fail> {
    let account = account(alloc, hold, WRESTLING_FANS)?;
    let cert = read_cert(alloc, text)?;
    let printed = print_cert(alloc, &cert)?;
    Ok(check(&account, claim, &cert) && printed.as_slice() == text)
}

/// From day 2 to day 3 in Tampa Towers, with the museum on night 2.
fn museum_trip() -> Package
    ensures { IsPackage result }
{
    Package::Trip {
        hotel: 1,
        arrive: 2,
        depart: 3,
        nights: [0, 0, 2],
    }
}

#[test]
fn certificates_and_prices_bound_accounts_and_a_trip_is_worth_1200(
    rt: HostRuntime,
) -> Result<(), Fail> {
    let alloc = rt.alloc();
    for (hold, text, claim, holds) in CLAIMS {
        assert!(rt; is_bound(alloc, hold, *claim, text)? == *holds);
    }
    // The deepest tree.
    assert!(rt; is_bound(alloc, ONE_SEAT, 14000, &tree(alloc, 32, FREE_LEAF, 129)?)?);
    for (splits, text, line, reason) in REFUSED {
        let fault = CertFault::Line {
            line: *line,
            reason: *reason,
        };
        assert!(rt; read_cert(alloc, &tree(alloc, *splits, text, 1)?).err() == Some(fault));
    }
    let client = Client {
        arrive: 1,
        depart: 3,
        premium: 100,
        values: [0, 0, 200],
    };
    assert!(rt; utility(&client, &museum_trip()) == 1200);
    let account = account(alloc, ONE_SEAT, WRESTLING_FANS)?;
    let all = Choice::none();
    // Client 1 stays at home, so that client 0 takes the seat and the ticket.
    let home = all.with(1, 0, 0);
    assert!(rt; home.fixed[1][0] == Some(0) && home.fixed[0][0].is_none());
    let prices = dual_prices(&account, &all);
    assert!(rt; leaf_bound(&account, &all, &prices) == Some(1150));
    let prices = dual_prices(&account, &home);
    assert!(rt; leaf_bound(&account, &home, &prices) == Some(1100));
    let mut relaxation = Relaxation::new(&account);
    relaxation.repair(0);
    let mut due = [Package::None; 8];
    due[1] = Package::Trip {
        hotel: 0,
        arrive: 1,
        depart: 2,
        nights: [1, 0, 0],
    };
    assert!(rt; relaxation.packages() == due);
    assert!(rt; relaxation.packages_if_worth_more(1149) == Some(due));
    assert!(rt; relaxation.packages_if_worth_more(1150).is_none());
    assert!(rt; relaxation.prices_if_worth_no_more(1149).is_none());
    assert!(rt; relaxation.prices_if_worth_no_more(1150).is_some());
    assert!(rt; !relaxation.decide(0));
    Ok(())
}
