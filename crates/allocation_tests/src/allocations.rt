// Whole searches, and their text.
use crate::accounts::{ONE_SEAT, WRESTLING_FANS, account};
use allocator::{print_solved, solve};
use std::test::Fail;

/// Clients for whom many packages gain the same, so that the relaxation has many steps that gain nothing.
const EQUAL_GAINS: &str = "client 0 1 5 55 112 155 170\nclient 1 3 5 140 104 90 79\n\
    client 2 1 5 55 145 80 83\nclient 3 3 4 112 35 161 161\nclient 4 2 4 147 26 150 180\n\
    client 5 4 5 108 101 186 72\nclient 6 4 5 122 61 65 163\nclient 7 1 4 95 83 135 7\n";

/// Clients whose dual prices are halves of dollars.
const HALF_DOLLARS: &str = "client 0 4 5 67 200 100 200\nclient 1 4 5 67 200 100 200\n\
    client 2 4 5 67 200 100 200\nclient 3 4 5 148 200 100 200\nclient 4 4 5 56 200 100 200\n\
    client 5 4 5 83 200 100 200\nclient 6 4 5 133 100 100 100\nclient 7 4 5 143 100 100 100\n";

/// Clients several of whom want the same. By the first rule the search leaves more parts than its limit, so it begins anew.
const SAME_WISHES: &str = "client 0 3 5 100 200 200 200\nclient 1 3 5 100 200 200 200\n\
    client 2 3 5 100 200 200 200\nclient 3 3 4 100 49 99 0\n\
    client 4 3 4 100 49 99 0\nclient 5 3 4 100 49 99 0\n\
    client 6 3 5 100 200 200 200\nclient 7 3 5 100 200 200 200\n";

/// Holdings and clients, and the worth of the best allocation. An integer-program solver gives the totals of the last three.
const ACCOUNTS: &[(&str, &str, u32)] = &[
    (ONE_SEAT, WRESTLING_FANS, 1150),
    (
        "5 4 1 1 3 4 2 5 1 5 5 3 4 4 5 3 2 1 1 2 2 2 1 0 2 1 0 2",
        EQUAL_GAINS,
        10177,
    ),
    (
        "3 5 5 3 5 4 5 2 2 3 4 5 5 3 4 4 5 4 5 4 4 2 4 3 3 2 5 4",
        HALF_DOLLARS,
        9241,
    ),
    (
        "8 3 5 7 7 4 4 8 6 7 1 3 8 3 1 4 6 1 6 2 8 0 5 1 8 8 8 0",
        SAME_WISHES,
        9149,
    ),
];

#[test]
fn accounts_have_their_best_totals_and_print_them_first(rt: HostRuntime) -> Result<(), Fail> {
    let alloc = rt.alloc();
    for (hold, clients, total) in ACCOUNTS {
        let solved = solve(alloc, &account(alloc, hold, clients)?)?;
        let text = print_solved(alloc, &solved)?;
        let first = format!(in alloc; "total {total}\npackage 0 ")?;
        assert!(rt; solved.total == *total && text.starts_with(first.as_bytes()));
    }
    Ok(())
}
