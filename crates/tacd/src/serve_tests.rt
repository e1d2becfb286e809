// A game over links in memory.
use crate::answer::Answer;
use crate::tests::{NO_FAULT, Ran, has_parts, one, plain_game, run_over, said_to};
use std::fmt::Write as _;
use std::io::{Print, Write};
use std::process::Abort;
use std::rt::{Clock, Env};
use std::sync::atomic::{AtomicU64, Ordering};
use std::sync::{Arc, Wait};
use std::thread::Threads;
use tac_base::Tick;
use tac_io::{HeldLink, Hold, LinesSent, Look, LookingTicker, MOST_TURNS, MemLink, was_sent};

// The words that serve the plain game.
const SERVE: &str = "serve game 7411 5";

// At a pace of 5 milliseconds, each tick is due once a link was sent a number of lines, except those from `first` up to `end`. Each tick
// that is waited for before that pace was set lapses.
#[derive(Drop)]
struct PacedLook {
    sent: LinesSent,
    lines: u64,
    first: u8,
    end: u8,
}

impl Look for PacedLook {
    fn is_due(&mut self, pace: Option<u16>, tick: Tick) -> bool {
        let lapses = self.first <= tick.get() && tick.get() < self.end;
        pace == Some(5) && !lapses && was_sent(&mut self.sent, self.lines, MOST_TURNS)
    }
}

// Ticks that are due at once, except those from `first` up to `end`.
fn at_once<R: Abort + AllocGlobal>(rt: &R, first: u8, end: u8) -> PacedLook {
    PacedLook {
        sent: counter(rt),
        lines: 0,
        first,
        end,
    }
}

// A count of the lines that a link was sent.
pub(crate) fn counter<R: Abort + AllocGlobal>(rt: &R) -> LinesSent {
    Arc::new(rt.alloc(), AtomicU64::new(0)).expect(rt, "memory")
}

fn shared<R: Abort>(rt: &R, sent: &LinesSent) -> LinesSent {
    Arc::try_clone(sent).expect(rt, "memory")
}

// How many bytes a link gives at once and has room for, and the read and the write that fail, each counted from 1, 0 for none.
#[derive(Clone, Copy)]
struct Given {
    most: usize,
    room: usize,
    read: u64,
    write: u64,
}

const PLAIN: Given = Given {
    most: 10_000,
    room: 10_000,
    read: 0,
    write: 0,
};

// A link of an agent, which counts the lines that it was sent and may wait for those of another.
fn held<R: Abort + AllocGlobal>(
    rt: &R,
    bytes: &[u8],
    given: &Given,
    sent: &LinesSent,
    hold: Option<Hold>,
) -> HeldLink {
    let alloc = rt.alloc();
    let bytes = bytes.to_vec(alloc).expect(rt, "memory");
    let (reads, writes) = (one(rt, given.read), one(rt, given.write));
    let link = MemLink::new(alloc, bytes, given.most, given.room, reads, writes);
    HeldLink::new(link.expect(rt, "memory"), shared(rt, sent), hold)
}

// The links, and behind them links that send these bytes.
pub(crate) fn with_links<R: Abort + AllocGlobal>(
    rt: &R,
    mut links: Vec<HeldLink>,
    sent: &LinesSent,
    all: &[&[u8]],
) -> Vec<HeldLink> {
    for bytes in all {
        let link = held(rt, bytes, &PLAIN, sent, None);
        links.push(link).expect(rt, "memory");
    }
    links
}

// Serves the plain game over the links.
fn serve<R: Threads + Sync + Wait + Clock + Abort + AllocGlobal>(
    rt: &R,
    line: &str,
    links: Vec<HeldLink>,
    look: PacedLook,
) -> Ran {
    let game = plain_game(rt);
    let files = [("game", game.as_slice())];
    run_over(
        rt,
        line,
        &files,
        links,
        &mut LookingTicker::new(look),
        NO_FAULT,
    )
}

// What four links send: one takes a seat and leaves, one has a word of no seat, one wants the same seat, and one does not greet.
const FOUR: &[&[u8]] = &[
    b"hello seat0\nquit\n",
    b"hello nobody\n",
    b"hello seat0\n",
    b"hi\n",
];

// Serves the plain game to the four links, by a ticker that lapses from one tick up to another.
fn serve_four<R: Threads + Sync + Wait + Clock + Abort + AllocGlobal>(
    rt: &R,
    sent: &LinesSent,
    first: u8,
    end: u8,
) -> Ran {
    let links = with_links(rt, Vec::new(rt.alloc()), sent, FOUR);
    serve(rt, SERVE, links, at_once(rt, first, end))
}

// What they are sent: the agent whose ten lines come first, 8 for none, and what follows them.
const FOUR_SENT: &[(u8, &str)] = &[
    (0, "bye\n"),
    (8, "refused wrongword\n"),
    (8, "refused taken\n"),
    (8, "refused syntax\n"),
];

// Checks that the links were sent what is due.
fn check_sent<R: Abort + AllocGlobal>(rt: &R, answer: &Answer<HeldLink>, due: &[(u8, &str)]) {
    assert!(rt; answer.ended.len() == due.len());
    for (link, (agent, rest)) in answer.ended.iter().zip(due) {
        assert!(rt;
            link.sent() == sent_to(rt, *agent, rest).as_bytes(),
            "{rest}"
        );
    }
}

// The ten lines of an agent, none for 8, and what follows them.
fn sent_to<R: Abort + AllocGlobal>(rt: &R, agent: u8, rest: &str) -> String {
    if agent < 8 {
        return said_to(rt, agent, rest);
    }
    String::from_str(rt.alloc(), rest).expect(rt, "memory")
}

const FOUR_HEADS: &str =
    "taclog 1\nserve\nlink 0 seated 0\nlink 1 wrongword\nlink 2 taken\nlink 3 syntax\nend 0 quit\nmissed ";

#[test]
fn the_pace_is_set_before_the_first_wait(rt: HostRuntime) {
    let sent = counter(&rt);
    let (answer, out) = serve_four(&rt, &sent, 0, 0);
    tell(&rt, &answer, out.bytes(), &[&sent]);
    assert!(rt;
        answer.code == 0 && has_parts(out.bytes(), &[FOUR_HEADS, "\nmissed 0\nauction 0 54\n"])
    );
    check_sent(&rt, &answer, FOUR_SENT);
}

// The first tick that lapses, the first after it that does not, and what the log says about them.
const LAPSES: &[(u8, u8, &str)] = &[
    (20, 21, "\nmissed 1\nauction 0 54\n"),
    (1, 55, "\nmissed 54\nauction 0 54\n"),
];

// The number of the clock's entries in the log.
fn count_clock(text: &[u8]) -> usize {
    str::from_utf8(text).map_or(0, |text| text.matches("\n8 ").count())
}

// How many bytes of one line a link sends after its greeting, what it sends after them, and how many bytes at once; what it is then sent
// after its welcome, and the cause of its end.
const SESSIONS: &[(usize, &str, usize, &str, &str)] = &[
    (512, "\n", 10_000, "no syntax\n", "end"),
    (513, "\nquit\n", 10_000, "no toolong\nbye\n", "quit"),
    (513, "", 10_000, "", "end"),
    (0, "own 2", 10_000, "", "end"),
    (
        0,
        "cash\nown 28\n",
        10_000,
        "@0 cash 0\nno auction\n",
        "end",
    ),
    (0, "cash\nown 28\n", 1, "@0 cash 0\nno auction\n", "end"),
];

// Serves the plain game to one link.
fn serve_one<R: Threads + Sync + Wait + Clock + Abort + AllocGlobal>(
    rt: &R,
    bytes: &[u8],
    given: &Given,
) -> Ran {
    let sent = counter(rt);
    let link = held(rt, bytes, given, &sent, None);
    let links = Vec::from_array(rt.alloc(), [link]).expect(rt, "memory");
    serve(rt, SERVE, links, at_once(rt, 0, 0))
}

// Serves the plain game to a link that sends a long line and more.
fn serve_long<R: Threads + Sync + Wait + Clock + Abort + AllocGlobal>(
    rt: &R,
    count: usize,
    rest: &str,
    most: usize,
) -> Ran {
    let line = "a".repeat(rt.alloc(), count).expect(rt, "memory");
    let bytes = format!(in rt.alloc(); "hello seat0\n{line}{rest}").expect(rt, "memory");
    serve_one(rt, bytes.as_bytes(), &Given { most, ..PLAIN })
}

// What a link sends that does not greet.
const HI: &[u8] = b"hi\n";

// How the log of a game begins that 64 links without a greeting were refused.
fn many_heads<R: Abort + AllocGlobal>(rt: &R) -> String {
    let mut heads = String::from_str(rt.alloc(), "taclog 1\nserve\n").expect(rt, "memory");
    for number in 0..64 {
        write!(heads, "link {number} syntax\n").expect(rt, "memory");
    }
    heads
        .push_str("missed 0\nauction 0 54\n")
        .expect(rt, "memory");
    heads
}

// Checks what a link is sent that sends a long line and more, and how its session ends.
fn check_long<R: Threads + Sync + Wait + Clock + Abort + AllocGlobal>(
    rt: &R,
    count: usize,
    rest: &str,
    most: usize,
    told: &str,
    cause: &str,
) {
    let (answer, out) = serve_long(rt, count, rest, most);
    assert!(rt; answer.code == 0, "{rest}");
    check_sent(rt, &answer, &[(0, told)]);
    let heads = format!(in rt.alloc();
        "taclog 1\nserve\nlink 0 seated 0\nend 0 {cause}\nmissed 0\n"
    );
    assert!(rt;
        out.bytes()
            .starts_with(heads.expect(rt, "memory").as_bytes()),
        "{rest}"
    );
}

// Checks that of 65 links without a greeting 64 are refused, before a game of the clock alone.
fn check_many<R: Threads + Sync + Wait + Clock + Abort + AllocGlobal>(rt: &R) {
    let links = with_links(rt, Vec::new(rt.alloc()), &counter(rt), &[HI; 65]);
    let (answer, out) = serve(rt, SERVE, links, at_once(rt, 0, 0));
    assert!(rt; answer.code == 0 && out.bytes().starts_with(many_heads(rt).as_bytes()));
    assert!(rt; count_clock(out.bytes()) == 480);
    check_sent(rt, &answer, &[(8, "refused syntax\n"); 64]);
}

// What a link sends whose calls fail, one after another, and what it is sent if none does.
const ASKED: &[u8] = b"hello seat0\ncash\nquit\n";

const TOLD: &str = "@0 cash 0\nbye\n";

// Which calls of the link fail, 1 for that kind; how many, at least; and the cause of the end of its session.
const FAILING: &[(u64, u64, u64, &str)] = &[
    (1, 0, 3, "\nend 0 readfault\nmissed 0\n"),
    (0, 1, 3, "\nend 0 writefault\nmissed 0\n"),
];

// The number of the link's calls that fail, one in each game.
fn count_failed<R: Threads + Sync + Wait + Clock + Abort + AllocGlobal>(
    rt: &R,
    read: u64,
    write: u64,
    cause: &str,
) -> u64 {
    let welcome = said_to(rt, 0, "");
    let due = said_to(rt, 0, TOLD);
    for count in 0..100u64 {
        let place = count.saturating_add(1);
        let given = Given {
            read: read.saturating_mul(place),
            write: write.saturating_mul(place),
            ..PLAIN
        };
        let (answer, out) = serve_one(rt, ASKED, &given);
        let sent = answer.ended.first().expect(rt, "a link").sent();
        assert!(rt; answer.code == 0 && due.as_bytes().starts_with(sent));
        if sent.len() == due.len() {
            return count;
        }
        // A link whose first read fails has no seat. What fails before the welcome was sent whole leaves no entry.
        let end = if read == place {
            "\nlink 0 lost\nmissed 0\n"
        } else {
            cause
        };
        let cash = if sent.len() < welcome.len() {
            "\ncash 0\n"
        } else {
            "\ncash "
        };
        assert!(rt;
            has_parts(out.bytes(), &["taclog 1\nserve\n", end, cash]),
            "{cause}"
        );
    }
    100
}

// What links send of which four fail: in the middle of a line, at the first line of the welcome, before the greeting, and within the
// welcome.
const FAULTY: &[(&[u8], Given)] = &[
    (b"hello seat0\ncash\nown ", Given { read: 4, ..PLAIN }),
    (b"hello seat1\ncash\n", Given { write: 1, ..PLAIN }),
    (b"hello seat2\n", Given { read: 1, ..PLAIN }),
    (b"hello seat3\ncash\n", Given { room: 60, ..PLAIN }),
    (b"hello seat4\nown 28\nquit\n", PLAIN),
];

// What they are sent, the agent whose ten lines come first, 8 for none, and what follows them; and how the log begins.
const FAULTY_SENT: &[(u8, &str)] = &[
    (0, "@0 cash 0\n"),
    (8, ""),
    (8, ""),
    (
        8,
        "welcome 3\nendow 3 0 0 0 0 0 0 0 0 0 0 0 0\nclient 3 0 1 2 100",
    ),
    (4, "no auction\nbye\n"),
];

const FAULTY_HEADS: &str =
    "taclog 1\nserve\nlink 0 seated 0\nlink 1 seated 1\nlink 2 lost\nlink 3 seated 3\nlink 4 seated 4\nend 0 readfault\nend 1 writefault\nend 3 writefault\nend 4 quit\nmissed 0\nauction 0 54\n";

// Checks the game of those links.
fn check_faulty<R: Threads + Sync + Wait + Clock + Abort + AllocGlobal>(rt: &R) {
    let mut links = Vec::new(rt.alloc());
    for (bytes, given) in FAULTY {
        let link = held(rt, bytes, given, &counter(rt), None);
        links.push(link).expect(rt, "memory");
    }
    let (answer, out) = serve(rt, SERVE, links, at_once(rt, 0, 0));
    let parts = &[FAULTY_HEADS, "\ncash 1\n0 read = 0\nsheet\n"];
    assert!(rt; answer.code == 0 && has_parts(out.bytes(), parts));
    check_sent(rt, &answer, FAULTY_SENT);
}

#[test]
fn links_are_answered_until_they_fail_and_calls_of_lapsed_ticks_are_made(rt: HostRuntime) {
    for (count, rest, most, told, cause) in SESSIONS {
        check_long(&rt, *count, rest, *most, told, cause);
    }
    check_many(&rt);
    for (read, write, least, cause) in FAILING {
        assert!(rt;
            count_failed(&rt, *read, *write, cause) >= *least,
            "{cause}"
        );
    }
    check_faulty(&rt);
    let sent = counter(&rt);
    for (first, end, told) in LAPSES {
        let (answer, out) = serve_four(&rt, &sent, *first, *end);
        assert!(rt;
            answer.code == 6 && has_parts(out.bytes(), &[FOUR_HEADS, told]),
            "{told}"
        );
        assert!(rt; count_clock(out.bytes()) == 480 && out.bytes().ends_with(b"\nend\n"));
    }
}

// Prints how a run ended if a word of one byte follows the test's name, as in tests/program/refused_memory.py: its code, and how many lines
// its links were sent; its text; and what each link that it gave back was sent. A form feed follows each part.
fn tell<R: Env + Print + Abort>(
    rt: &R,
    answer: &Answer<HeldLink>,
    text: &[u8],
    sent: &[&LinesSent],
) {
    if rt.arg(2, &mut [0]).is_err() {
        return;
    }
    rt.println(answer.code).expect(rt, "output");
    for lines in sent {
        rt.println(lines.load(Ordering::SeqCst))
            .expect(rt, "output");
    }
    print(rt, text);
    for link in &answer.ended {
        print(rt, link.sent());
    }
    rt.print("\x0c").expect(rt, "output");
}

// Prints a form feed and a part.
fn print<R: Print + Abort>(rt: &R, part: &[u8]) {
    rt.print("\x0c").expect(rt, "output");
    rt.write_all(part).expect(rt, "output");
}

// What an agent requests in JSON, and what it is sent after its welcome.
const JSON_ASKED: &[u8] =
    b"hello seat0\n{\"do\":\"bid\",\"auction\":0,\"points\":[[1,300]]}\n{\"auction\":0,\"do\":\"quote\"}\n{\"do\":\"bid\",\"auction\":0,\"points\":[]}\n{\"do\":\"own\",\"auction\":28}\n{\"do\":\"cash\",\"x\":1}\n{\"do\":\"quit\"}\n";

const JSON_TOLD: &str =
    "{\"at\":0,\"taken\":[1,0]}\n{\"at\":1,\"quote\":[0,300],\"open\":true}\n{\"no\":\"bid\",\"fault\":1}\n{\"no\":\"auction\"}\n{\"no\":\"syntax\"}\n{\"bye\":true}\n";

// How its log begins.
const JSON_HEADS: &[u8] =
    b"taclog 1\nserve\nlink 0 seated 0\nend 0 quit\nmissed 0\nauction 0 55\n0 bid ((1 300)) = taken 1 0\n";

#[test]
fn agents_may_speak_json(rt: HostRuntime) {
    let sent = counter(&rt);
    let links = with_links(&rt, Vec::new(rt.alloc()), &sent, &[JSON_ASKED]);
    // The clock's first tick comes after the ten lines of the welcome and the six answers.
    let look = PacedLook {
        sent,
        lines: 16,
        first: 0,
        end: 0,
    };
    let (answer, out) = serve(&rt, "serve game 7411 5 json", links, look);
    assert!(rt; answer.code == 0 && out.bytes().starts_with(JSON_HEADS));
    let link = answer.ended.first().expect(&rt, "a link");
    assert!(rt; link.sent() == said_to(&rt, 0, JSON_TOLD).as_bytes());
}

// What the agents of the other seats send.
const OTHERS: &[&[u8]] = &[
    b"hello seat2\nquit\n",
    b"hello seat3\nquit\n",
    b"hello seat4\nquit\n",
    b"hello seat5\nquit\n",
    b"hello seat6\nquit\n",
    b"hello seat7\nquit\n",
];

const ALL_QUIT: &str =
    "\nend 0 quit\nend 1 quit\nend 2 quit\nend 3 quit\nend 4 quit\nend 5 quit\nend 6 quit\nend 7 quit\nmissed 0\n";

// The links of the first two agents: the second read of one waits for the first reply to the other, and the third read of the other for
// the first reply to the one. The welcome has ten lines, so the first reply is line 11.
fn two_links<R: Abort + AllocGlobal>(
    rt: &R,
    first: &LinesSent,
    second: &LinesSent,
) -> Vec<HeldLink> {
    let hold = Hold {
        read: 2,
        other: shared(rt, second),
        lines: 11,
    };
    let one = held(rt, b"hello seat0\nown 0\nquit\n", &PLAIN, first, Some(hold));
    let hold = Hold {
        read: 3,
        other: shared(rt, first),
        lines: 11,
    };
    let two = held(
        rt,
        b"hello seat1\nown 0\nquit\n",
        &PLAIN,
        second,
        Some(hold),
    );
    Vec::from_array(rt.alloc(), [one, two]).expect(rt, "memory")
}

#[test]
fn sessions_run_beside_one_another(rt: HostRuntime) {
    let (first, second, others) = (counter(&rt), counter(&rt), counter(&rt));
    let links = two_links(&rt, &first, &second);
    let links = with_links(&rt, links, &others, OTHERS);
    let (answer, out) = serve(&rt, SERVE, links, at_once(&rt, 0, 0));
    tell(&rt, &answer, out.bytes(), &[&first, &second, &others]);
    assert!(rt; answer.code == 0 && has_parts(out.bytes(), &["taclog 1\n", ALL_QUIT]));
}
