// Request lines, and sessions of agent 0 in the quiet game that answer them.
use crate::desks::begin_three;
use agent_gate::{LineDialect, SessionEnd, run_session};
use game_text::Game;
use line_protocol::{Cause, Request, RequestFault, read_request};
use std::alloc::Global;
use std::sync::Wait;
use std::test::Fail;
use std::time::Clock;
use tac_base::{BidFault, Point, Points};
use tac_io::{Lines, MemLink};

/// Lines that are no requests, with their faults.
const REFUSED: &[(&[u8], RequestFault)] = &[
    (b"bid 28 ((1 1))", RequestFault::NoSuchAuction),
    (b"own 99999", RequestFault::NoSuchAuction),
    (b"bid 5", RequestFault::Syntax),
    (b"own 05", RequestFault::Syntax),
    (b"quit ", RequestFault::Syntax),
    (b"buy 0", RequestFault::Syntax),
    (b"bid 5 ", RequestFault::Bid(BidFault::Syntax)),
];

/// Whether these points are one point.
fn is_one(points: &Points, point: Point) -> bool {
    points.as_slice() == [point].as_slice()
}

/// Whether the line is a bid of one point for good 24.
fn is_one_bid(line: &[u8], point: Point) -> bool {
    let asked = read_request(line);
    match &asked {
        Ok(Request::Bid { good, points }) => good.get() == 24 && is_one(points, point),
        _ => false,
    }
}

const WELCOME: &[u8] = b"welcome 0\nendow 0 0 0 0 0 0 0 0 0 0 0 0 0\n\
    client 0 0 1 2 100 0 0 100\nclient 0 1 1 2 100 0 0 100\nclient 0 2 1 2 100 0 0 100\n\
    client 0 3 1 2 100 0 0 100\nclient 0 4 1 2 100 0 0 100\nclient 0 5 1 2 100 0 0 100\n\
    client 0 6 1 2 100 0 0 100\nclient 0 7 1 2 100 0 0 100\n";

/// How many letters `a` a link gives, and what then; what it is sent after the welcome; why the session ends, and how many lines it answers.
const ROWS: &[(usize, &[u8], &[u8], Cause, u32)] = &[
    (
        0,
        b"bid 0 ((1 300))\nown 0\n",
        b"@0 taken 1 0\n@1 own 1 ()\n",
        Cause::End,
        2,
    ),
    // An overlong line is answered, and a rest without a line end is not.
    (513, b"\nquit\n", b"no toolong\nbye\n", Cause::Quit, 2),
    (0, b"own 2", b"", Cause::End, 0),
    (512, b"\n", b"no syntax\n", Cause::End, 1),
    (513, b"", b"", Cause::End, 0),
];

/// The session of a link that gives so many letters and then a text.
fn served<R: Wait + Clock>(
    rt: &R,
    alloc: Global,
    letters: usize,
    text: &[u8],
) -> Result<SessionEnd<MemLink>, Fail> {
    let game = Game::default();
    let mut bytes = vec![in alloc; b'a'; letters]?;
    bytes.extend_from_slice(text)?;
    let link = MemLink::new(alloc, bytes, 1000, 1000, Vec::new(alloc), Vec::new(alloc))?;
    let (floor, desk, _second, _third) = begin_three(alloc, &game)?;
    Ok(run_session(rt, &floor, &game, &LineDialect, desk, Lines::new(link)))
}

/// Whether a link was sent the welcome and then this text, and nothing else.
fn was_sent(sent: &[u8], text: &[u8]) -> bool {
    sent.strip_prefix(WELCOME) == Some(text)
}

#[test]
fn requests_are_read_and_sessions_answer_each_line(rt: HostRuntime) -> Result<(), Fail> {
    let point = Point {
        units: 2,
        price: 70,
    };
    assert!(rt; is_one_bid(b"bid 24 ((2 70))", point));
    for (line, fault) in REFUSED {
        assert!(rt; read_request(line).err() == Some(*fault));
    }
    for (letters, given, told, cause, lines) in ROWS {
        let end = served(&rt, rt.alloc(), *letters, given)?;
        assert!(rt; was_sent(end.link.sent(), told));
        assert!(rt; end.cause == *cause && end.lines == *lines);
    }
    Ok(())
}
