// What the tests share: runs of `tac` over files that are given and over links in memory, and a plain game. Memory that the tests
// themselves lack ends them.
ghost use Rattle.std.specs.Prelude.{◌≡◌, [], IfSome};

use crate::answer::Answer;
use crate::top::tac;
use game_text::{Game, print_game};
use std::fmt::Write;
use std::process::Abort;
use std::rt::Clock;
use std::sync::Wait;
use std::thread::Threads;
use tac_io::{Failed, Files, HeldLink, MemLinks, MemSink, MemTicker, Ticker};

// The calls of the files, of the output and of the links that are to fail, each counted from 1, 0 for none; and how many bytes a file
// gives, and the output takes, at once.
#[derive(Clone, Copy)]
pub(crate) struct Faults {
    pub(crate) read: u64,
    pub(crate) write: u64,
    pub(crate) link: u64,
    pub(crate) given: usize,
    pub(crate) taken: usize,
}

pub(crate) const NO_FAULT: Faults = Faults {
    read: 0,
    write: 0,
    link: 0,
    given: 7,
    taken: 1_000_000,
};

// Files with their names. No clause says what they hold.
#[derive(Drop)]
struct GivenFiles<'f, 'n, 'b> {
    files: &'f [(&'n str, &'b [u8])],
    left: Option<&'b [u8]>,
    // The calls so far, the one that is to fail, and the most bytes of a read.
    calls: u64,
    failing: u64,
    most: usize,
    faults: u64,
}

// The bytes of the file with a name.
fn bytes_of<'b>(files: &[(&str, &'b [u8])], name: &str) -> Option<&'b [u8]> {
    for (other, bytes) in files {
        if *other == name {
            return Some(bytes);
        }
    }
    None
}

impl Files for GivenFiles<'_, '_, '_> {
    ghost use Rattle.std.specs.Prelude.{None, is_some};

    ghost state = { λ s. record { content = None; names = None; selected = is_some s.left; left = None; faults = s.faults } };

    fn select(&mut self, name: &str) -> Result<(), Failed> {
        self.calls = self.calls.saturating_add(1);
        match bytes_of(self.files, name) {
            Some(bytes) if self.calls != self.failing => {
                self.left = Some(bytes);
                Ok(())
            }
            _ => {
                self.faults = self.faults.saturating_add(1);
                Err(Failed)
            }
        }
    }

    fn read(&mut self, into: &mut [u8]) -> Result<usize, Failed> {
        self.calls = self.calls.saturating_add(1);
        if self.calls == self.failing {
            self.faults = self.faults.saturating_add(1);
            return Err(Failed);
        }
        let left = self.left.unwrap();
        let count = left.len().min(into.len()).min(self.most);
        let (given, left) = left.split_at(count);
        into[..count].copy_from_slice(given);
        self.left = Some(left);
        Ok(count)
    }

    fn faults(&self) -> u64 {
        self.faults
    }
}

// A size that no other growth has. A run lies between two growths of it, so that tests/program/refuse.c refuses none outside.
const MARK: usize = 76_543;

fn mark<R: Abort + AllocGlobal>(rt: &R) {
    let _marked: Vec<u8> = Vec::with_capacity(rt.alloc(), MARK).expect(rt, "memory");
}

// A list of one call.
pub(crate) fn one<R: Abort + AllocGlobal>(rt: &R, call: u64) -> Vec<u64> {
    Vec::from_array(rt.alloc(), [call]).expect(rt, "memory")
}

// The words of a line.
fn words_of<R: Abort + AllocGlobal>(rt: &R, line: &str) -> Vec<String> {
    let mut words = Vec::new(rt.alloc());
    for word in line.split_whitespace() {
        let word = String::from_str(rt.alloc(), word).expect(rt, "memory");
        words.push(word).expect(rt, "memory");
    }
    words
}

// The answer of a run, and what it wrote.
pub(crate) type Ran = (Answer<HeldLink>, MemSink);

// Runs the words of a line, separated by spaces, over files, links and a ticker, with faults. Every run of the tests is made here.
pub(crate) fn run_over<R: Threads + Sync + Wait + Clock + Abort + AllocGlobal, T: Ticker + Send>(
    rt: &R,
    line: &str,
    files: &[(&str, &[u8])],
    given: Vec<HeldLink>,
    ticker: &mut T,
    faults: Faults,
) -> Ran
    requires { IfSome (T.state ticker.old).waited (λ ticks. ticks ≡ []) }
{
    let alloc = rt.alloc();
    let words = words_of(rt, line);
    let mut files = GivenFiles {
        files,
        left: None,
        calls: 0,
        failing: faults.read,
        most: faults.given,
        faults: 0,
    };
    let failing = one(rt, faults.write);
    let mut out = MemSink::new(alloc, 1_000_000, faults.taken, failing).expect(rt, "memory");
    let mut links = MemLinks::new(given, one(rt, faults.link));
    mark(rt);
    let answer = tac(rt, alloc, &words, &mut files, &mut out, &mut links, ticker);
    mark(rt);
    (answer, out)
}

// Runs a line over files and links, with faults, by a ticker that does not wait.
pub(crate) fn run<R: Threads + Sync + Wait + Clock + Abort + AllocGlobal>(
    rt: &R,
    line: &str,
    files: &[(&str, &[u8])],
    links: Vec<HeldLink>,
    faults: Faults,
) -> Ran {
    let mut ticker = MemTicker::new(rt.alloc(), Vec::new(rt.alloc())).expect(rt, "memory");
    run_over(rt, line, files, links, &mut ticker, faults)
}

// Runs a line over files alone, without faults.
pub(crate) fn run_plain<R: Threads + Sync + Wait + Clock + Abort + AllocGlobal>(
    rt: &R,
    line: &str,
    files: &[(&str, &[u8])],
) -> Ran {
    run(rt, line, files, Vec::new(rt.alloc()), NO_FAULT)
}

// Whether a text begins with the first of the parts, or is that part if there are no others, and has the others.
pub(crate) fn has_parts(text: &[u8], parts: &[&str]) -> bool {
    let (Ok(text), [first, others @ ..]) = (str::from_utf8(text), parts) else {
        return false;
    };
    for part in others {
        if text.find(part).is_none() {
            return false;
        }
    }
    text.starts_with(first) && (!others.is_empty() || text.len() == first.len())
}

// Checks the code of a line over files, and the parts of what it writes.
pub(crate) fn check<R: Threads + Sync + Wait + Clock + Abort + AllocGlobal>(
    rt: &R,
    line: &str,
    files: &[(&str, &[u8])],
    code: u8,
    parts: &[&str],
) {
    let (answer, out) = run_plain(rt, line, files);
    assert!(rt;
        answer.code == code && has_parts(out.bytes(), parts),
        "{line}"
    );
}

// A line, the script beside it, and what is due: the code, and the parts of the text.
pub(crate) type Case<'a> = (&'a str, &'a str, u8, &'a [&'a str]);

// Checks a line over the plain game, one with a scarce night and live quotes, one with a bad line, an account and a script.
pub(crate) fn check_script<R: Threads + Sync + Wait + Clock + Abort + AllocGlobal>(
    rt: &R,
    line: &str,
    script: &str,
    code: u8,
    parts: &[&str],
) {
    let game = plain_game(rt);
    let live = live_game(rt);
    let script = String::from_str(rt.alloc(), script).expect(rt, "memory");
    let files = [
        ("game", game.as_slice()),
        ("live", live.as_bytes()),
        ("bad", BAD_GAME),
        ("account", ONE_SEAT),
        ("script", script.as_bytes()),
    ];
    check(rt, line, &files, code, parts);
}

// Checks each case.
pub(crate) fn check_all<R: Threads + Sync + Wait + Clock + Abort + AllocGlobal>(
    rt: &R,
    cases: &[Case<'_>],
) {
    for (line, script, code, parts) in cases {
        check_script(rt, line, script, *code, parts);
    }
}

// The log of the plain game, played by a script.
pub(crate) fn log_of<R: Threads + Sync + Wait + Clock + Abort + AllocGlobal>(
    rt: &R,
    script: &str,
) -> String {
    let game = plain_game(rt);
    let script = String::from_str(rt.alloc(), script).expect(rt, "memory");
    let files = [("game", game.as_slice()), ("script", script.as_bytes())];
    let (_, out) = run_plain(rt, "play game script", &files);
    let (_, log) = text_of(rt, out.bytes())
        .split_once("taclog 1\n")
        .expect(rt, "a log");
    format!(in rt.alloc(); "taclog 1\n{log}").expect(rt, "memory")
}

// The text, with the first occurrence of a part replaced by another.
pub(crate) fn changed<R: Abort + AllocGlobal>(
    rt: &R,
    text: &str,
    part: &str,
    other: &str,
) -> String {
    let (before, behind) = text.split_once(part).expect(rt, part);
    format!(in rt.alloc(); "{before}{other}{behind}").expect(rt, "memory")
}

// The text of the game in which all flights stay at 300, nobody has a ticket, and all clients are alike.
pub(crate) fn plain_game<R: Abort + AllocGlobal>(rt: &R) -> Vec<u8> {
    print_game(rt.alloc(), &Game::default()).expect(rt, "memory")
}

// The same game with one room on the first night, and with quotes that move with each bid.
pub(crate) fn live_game<R: Abort + AllocGlobal>(rt: &R) -> String {
    let game = plain_game(rt);
    let game = changed(rt, text_of(rt, &game), "tac 1\n", "tac 2\n");
    changed(rt, game.as_str(), "\nendow 0 ", LIVE)
}

// What stands before the first agent's tickets in that game.
const LIVE: &str = "\nrooms 1 16 16 16 16 16 16 16\nquotes live\nendow 0 ";

// The bytes as a text.
pub(crate) fn text_of<'b, R: Abort>(rt: &R, bytes: &'b [u8]) -> &'b str {
    str::from_utf8(bytes).expect(rt, "a text")
}

// What the link of an agent is sent in that game: ten lines, and replies.
pub(crate) fn said_to<R: Abort + AllocGlobal>(rt: &R, agent: u8, replies: &str) -> String {
    let mut said = String::new(rt.alloc());
    write!(
        said,
        "welcome {agent}\nendow {agent} 0 0 0 0 0 0 0 0 0 0 0 0\n"
    )
    .expect(rt, "memory");
    for client in 0..8 {
        write!(said, "client {agent} {client} 1 2 100 0 0 100\n").expect(rt, "memory");
    }
    said.push_str(replies).expect(rt, "memory");
    said
}

// A game whose first line is bad.
const BAD_GAME: &[u8] = b"tac 3\n";

// An account with one seat and one ticket, which two clients want.
pub(crate) const ONE_SEAT: &[u8] =
    b"account\nhold 1 0 0 0 2 0 0 0 2 0 0 0 0 0 0 0 1 0 0 0 0 0 0 0 0 0 0 0\nclient 0 1 2 50 100 0 0\nclient 1 1 2 50 150 0 0\nclient 2 1 2 50 0 0 0\nclient 3 1 2 50 0 0 0\nclient 4 1 2 50 0 0 0\nclient 5 1 2 50 0 0 0\nclient 6 1 2 50 0 0 0\nclient 7 1 2 50 0 0 0\nend\n";

// The trades of a game in which agent 1 sells two tickets that it does not have, agent 0 travels and agent 2 keeps a ticket.
pub(crate) const TRADES: &str =
    "0 bid 0 ((1 300))\n0 bid 4 ((1 300))\n0 bid 8 ((1 50))\n1 bid 24 ((-2 60))\n0 bid 24 ((1 70))\n2 bid 24 ((1 70))\n1 own 24\n0 cash\n0 quote 8\n";

// The head of a log of those trades over links, where the other agents have no seats.
pub(crate) const SERVED: &str =
    "\nserve\nlink 0 seated 2\nlink 1 seated 0\nlink 2 lost\nlink 3 seated 1\nend 0 quit\nend 1 end\nend 2 quit\nmissed 54\n";
