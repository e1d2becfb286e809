// Calls of the outside that fail, one in each run, from the first to the last.
use crate::serve_tests::{counter, with_links};
use crate::tests::{
    Faults, NO_FAULT, ONE_SEAT, Ran, SERVED, TRADES, changed, log_of, plain_game, run, said_to,
    text_of,
};
use std::process::Abort;
use std::rt::Clock;
use std::sync::Wait;
use std::thread::Threads;

// A line; which of its calls fail, of the files, of the output and of the links, 1 for that kind; how many bytes a file gives, and the output
// takes, at once; how many calls fail, at least; the code; and how the text ends. Before that end a part of the text that is due may stand
// for failed writes, and for a game that is played line by line.
const FAILING: &[(&str, (u64, u64, u64), usize, u64, u8, &str)] = &[
    ("hotel hotel", (1, 0, 0), 7, 4, 3, "fault read\n"),
    ("show game", (1, 0, 0), 500, 9, 3, "fault read\n"),
    ("solve account", (1, 0, 0), 50, 4, 3, "fault read\n"),
    ("play game script", (1, 0, 0), 500, 9, 3, "fault read\n"),
    ("step game script", (1, 0, 0), 500, 9, 3, "fault read\n"),
    ("audit game log", (1, 0, 0), 900, 9, 3, "fault read\n"),
    (
        "vouch game log asked said",
        (1, 0, 0),
        900,
        9,
        3,
        "fault read\n",
    ),
    ("serve game 7411 5", (1, 0, 0), 500, 9, 3, "fault read\n"),
    ("hotel hotel", (0, 1, 0), 7, 4, 4, ""),
    ("show game", (0, 1, 0), 500, 4, 4, ""),
    ("solve account", (0, 1, 0), 50, 4, 4, ""),
    ("play game script", (0, 1, 0), 2_000, 4, 4, ""),
    ("serve game 7411 5", (0, 1, 0), 2_000, 4, 4, ""),
    ("serve game 7411 5", (0, 0, 1), 500, 5, 5, "fault links\n"),
];

// Agent 0 buys 15 rooms.
const HOTEL: &str = "0 bid ((15 100))\nclose\n";

// What three links send that take seats.
const SEATED: &[&[u8]] = &[b"hello seat0\n", b"hello seat1\n", b"hello seat2\n"];

// Runs a line over the files and three links, with faults.
fn run_failing<R: Threads + Sync + Wait + Clock + Abort + AllocGlobal>(
    rt: &R,
    line: &str,
    files: &[(&str, &[u8])],
    faults: Faults,
) -> Ran {
    let links = with_links(rt, Vec::new(rt.alloc()), &counter(rt), SEATED);
    run(rt, line, files, links, faults)
}

// The number of a line's calls that fail, one in each run, until none fails. Checks each run.
fn count_failed<R: Threads + Sync + Wait + Clock + Abort + AllocGlobal>(
    rt: &R,
    line: &str,
    files: &[(&str, &[u8])],
    kinds: (u64, u64, u64),
    most: usize,
    code: u8,
    end: &str,
) -> u64 {
    let (_, due) = run_failing(rt, line, files, NO_FAULT);
    for count in 0..10_000u64 {
        let place = count.saturating_add(1);
        let faults = Faults {
            read: kinds.0.saturating_mul(place),
            write: kinds.1.saturating_mul(place),
            link: kinds.2.saturating_mul(place),
            given: most,
            taken: most,
        };
        let (answer, out) = run_failing(rt, line, files, faults);
        if answer.code == 0 {
            assert!(rt; out.bytes() == due.bytes());
            return count;
        }
        assert!(rt; answer.code == code, "{line}");
        let (text, due) = (text_of(rt, out.bytes()), text_of(rt, due.bytes()));
        let begun = text.strip_suffix(end).expect(rt, line);
        assert!(rt; due.starts_with(begun) && begun.len() < due.len(), "{line}");
        assert!(rt;
            begun.is_empty() || end.is_empty() || line.starts_with("step"),
            "{line}"
        );
        // The first call of the links listens, and each later one gives a link, which is sent nothing if one of them fails.
        if code == 5 {
            assert!(rt;
                answer.played.is_none() && answer.ended.len() as u64 == count.saturating_sub(1)
            );
            for link in &answer.ended {
                assert!(rt; link.sent().is_empty());
            }
        }
    }
    10_000
}

// Checks the code and the text of a line if files give, and the output takes, at most so many bytes at once.
fn check_parts<R: Threads + Sync + Wait + Clock + Abort + AllocGlobal>(
    rt: &R,
    line: &str,
    files: &[(&str, &[u8])],
    given: usize,
    taken: usize,
    code: u8,
) {
    let (_, due) = run_failing(rt, line, files, NO_FAULT);
    let faults = Faults {
        given,
        taken,
        ..NO_FAULT
    };
    let (answer, out) = run_failing(rt, line, files, faults);
    let is_due = if taken == 0 {
        out.bytes().is_empty()
    } else {
        out.bytes() == due.bytes()
    };
    assert!(rt; answer.code == code && is_due, "{line}");
}

// A line, how many bytes a file gives and the output takes at once, and the code. The text is then the same, and none if no byte is taken.
const PARTS: &[(&str, usize, usize, u8)] = &[
    ("hotel hotel", 1, 1, 0),
    ("play game script", 1, 1, 0),
    ("hotel hotel", 7, 0, 4),
    ("show game", 7, 0, 4),
    ("solve account", 7, 0, 4),
    ("play game script", 7, 0, 4),
    ("serve game 7411 5", 7, 0, 4),
];

#[test]
fn each_call_fails_in_its_place(rt: HostRuntime) {
    let game = plain_game(&rt);
    let traded = log_of(&rt, TRADES);
    let log = changed(&rt, traded.as_str(), "\nplay\n", SERVED);
    let said = said_to(&rt, 2, "@2 taken 1 0\nbye\n");
    let files = [
        ("game", game.as_slice()),
        ("hotel", HOTEL.as_bytes()),
        ("account", ONE_SEAT),
        ("script", TRADES.as_bytes()),
        ("log", log.as_bytes()),
        ("asked", b"hello seat2\nbid 24 ((1 70))\nquit\n".as_slice()),
        ("said", said.as_bytes()),
    ];
    for (line, kinds, most, least, code, end) in FAILING {
        let count = count_failed(&rt, line, &files, *kinds, *most, *code, end);
        assert!(rt; count >= *least, "{line}");
    }
    for (line, given, taken, code) in PARTS {
        check_parts(&rt, line, &files, *given, *taken, *code);
    }
}
