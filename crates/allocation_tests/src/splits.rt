// Splits that the rules choose in a relaxation.
use crate::accounts::{WRESTLING_FANS, account};
use relaxation::{Relaxation, Split, SplitRule};
use std::test::Fail;

/// Clients whose relaxation has a single best solution, which has halves of packages.
const HALVES: &str =
    "client 0 3 4 144 200 0 200\nclient 1 3 5 103 0 0 200\nclient 2 2 3 103 0 0 0\n\
    client 3 1 4 102 200 0 200\nclient 4 1 3 85 200 200 200\nclient 5 1 5 62 137 74 172\n\
    client 6 4 5 141 177 46 0\nclient 7 2 5 105 200 200 200\n";

#[test]
fn split_is_the_one_that_the_rule_says(rt: HostRuntime) -> Result<(), Fail> {
    let account = account(
        rt.alloc(),
        "2 5 4 2 0 4 3 -1 3 3 -1 2 4 2 1 2 -1 1 -1 5 5 4 3 3 4 1 0 2",
        HALVES,
    )?;
    let relaxation = Relaxation::new(&account);
    let prices = relaxation.prices_for(6052);
    // The three free features have two values each with half a share. By an LP solver a part is worth at most 6150 if client 2's trip is
    // fixed, 6085 if client 0's night in the museum is, and 6052 if client 7's night in the amusement park is.
    let mut fixed = [[Some(0); 4]; 8];
    fixed[0] = [Some(0), Some(0), Some(0), None];
    fixed[2] = [None, Some(0), Some(0), Some(0)];
    fixed[7] = [Some(0), Some(0), None, Some(0)];
    let least = SplitRule::LeastLeft;
    let park = Split {
        client: 7,
        feature: 2,
    };
    assert!(rt; relaxation.next_split(least, &fixed, &prices, 6052) == Some(park));
    // A trip has a greater priority than a night.
    let trip = Split {
        client: 2,
        feature: 0,
    };
    let greatest = SplitRule::GreatestPriority;
    assert!(rt; relaxation.next_split(greatest, &fixed, &prices, 6052) == Some(trip));
    fixed[7] = [Some(0); 4];
    let museum = Split {
        client: 0,
        feature: 3,
    };
    assert!(rt; relaxation.next_split(least, &fixed, &prices, 6052) == Some(museum));
    Ok(())
}

#[test]
fn split_has_the_fewest_open_parts_where_packages_are_whole(rt: HostRuntime) -> Result<(), Fail> {
    // Some of each good is left over, so each client gets a package that is worth most to it, 8650 dollars together, and all prices are 0.
    let account = account(
        rt.alloc(),
        "9 9 9 9 9 9 9 9 9 9 9 9 9 9 9 9 9 9 9 9 9 9 9 9 9 9 9 9",
        WRESTLING_FANS,
    )?;
    let relaxation = Relaxation::new(&account);
    let rule = SplitRule::LeastLeft;
    let prices = relaxation.prices_for(8649);
    // To clients 2 to 7 a ticket for night 1 is worth as much as none: only their ticket features have two best values, which leave room.
    let mut fixed = [[None; 4]; 8];
    let ticket = Split {
        client: 2,
        feature: 1,
    };
    assert!(rt; relaxation.next_split(rule, &fixed, &prices, 8649) == Some(ticket));
    // Of the rest, each trip leaves two values open, since the worse hotel takes only 50 dollars, and a ticket's night one.
    for client in 2..8 {
        fixed[client] = [None, Some(0), Some(0), Some(0)];
    }
    let night = Split {
        client: 0,
        feature: 1,
    };
    assert!(rt; relaxation.next_split(rule, &fixed, &prices, 8550) == Some(night));
    fixed = [[Some(0); 4]; 8];
    assert!(rt; relaxation.next_split(rule, &fixed, &prices, 8550).is_none());
    Ok(())
}
