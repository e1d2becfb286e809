// The judgement of logs by their games, and the standings over several games.
use crate::tests::{SERVED, TRADES, changed, check, log_of, plain_game};

const AUDIT: &str = "audit game log";

// The standings after three games, one of them with trades. An agent without a seat does not count, so in the second five teams play once.
const ONCE: &str =
    "table 3\nteam seat0 3 440 440/3 1\nteam seat1 3 -280 -280/3 8\nteam seat2 3 -60 -20/1 7\nteam seat3 3 0 0/1 2\nteam seat4 3 0 0/1 2\nteam seat5 3 0 0/1 2\nteam seat6 3 0 0/1 2\nteam seat7 3 0 0/1 2\nend\n";

const SEATED: &str =
    "table 2\nteam seat0 2 440 220/1 1\nteam seat1 2 -280 -140/1 8\nteam seat2 2 -60 -30/1 7\nteam seat3 1 0 0/1 2\nteam seat4 1 0 0/1 2\nteam seat5 1 0 0/1 2\nteam seat6 1 0 0/1 2\nteam seat7 1 0 0/1 2\nend\n";

const TWICE: &str =
    "table 2\nteam seat0 2 880 440/1 1\nteam seat1 2 -560 -280/1 8\nteam seat2 2 -120 -60/1 7\nteam seat3 2 0 0/1 2\nteam seat4 2 0 0/1 2\nteam seat5 2 0 0/1 2\nteam seat6 2 0 0/1 2\nteam seat7 2 0 0/1 2\nend\n";

// A line, a part of the log of the trades and what replaces it, and the code and the text that are then due.
const JUDGED: &[(&str, &str, &str, u8, &str)] = &[
    (AUDIT, "\nend\n", "\nend\n", 0, "sound\n"),
    (AUDIT, "\nplay\n", SERVED, 0, "sound\n"),
    (
        AUDIT,
        "trade 0 1 1 60\n",
        "trade 0 1 1 61\n",
        9,
        "unsound entry 24 1\n",
    ),
    (
        AUDIT,
        "auction 27 1\n8 close = done\n",
        "auction 27 0\n",
        9,
        "unsound clock 27\n",
    ),
    (
        AUDIT,
        "0 read = -660\n",
        "0 read = -661\n",
        9,
        "unsound cash 4\n",
    ),
    (
        AUDIT,
        "8 post 8 1 0 ",
        "8 post 8 0 0 ",
        9,
        "unsound post 5\n",
    ),
    (
        AUDIT,
        "cash 6\n0 post 0 0 -300 0 0 0 0 0 0 0 300\n0 post 4 0 -300 0 0 0 0 0 0 0 300\n0 post 24 1 -60 60 0 0 0 0 0 0 0\n2 post 24 2 0 60 -60 0 0 0 0 0 0\n0 read = -660\n8 post 8 1 0 0 0 0 0 0 0 0 0\n",
        "cash 5\n0 post 0 0 -300 0 0 0 0 0 0 0 300\n0 post 4 0 -300 0 0 0 0 0 0 0 300\n0 post 24 1 -60 60 0 0 0 0 0 0 0\n2 post 24 2 0 60 -60 0 0 0 0 0 0\n0 read = -660\n",
        9,
        "unsound unposted 8 1\n",
    ),
    (
        AUDIT,
        "0 1100 -660 0 440\n",
        "0 1100 -660 0 441\n",
        9,
        "unsound score 0\n",
    ),
    (
        AUDIT,
        "\nplay\n",
        "\nserve\nmissed 0\n",
        9,
        "unsound head\n",
    ),
    (AUDIT, "taclog 1\n", "taclog 2\n", 8, "text 1 1\n"),
    (AUDIT, "auction 0 55\n", "auction 0 8257\n", 8, "text 3 1\n"),
    ("audit game empty", "\nend\n", "\nend\n", 8, "text 1 1\n"),
    ("audit log log", "\nend\n", "\nend\n", 2, "game 1 1\n"),
    ("table log log", "\nend\n", "\nend\n", 2, "game 1 1\n"),
    (
        "table game log",
        "taclog 1\n",
        "taclog 2\n",
        8,
        "text 1 1\n",
    ),
    ("table game log game log", "\nend\n", "\nend\n", 0, TWICE),
    (
        "table game log game idle game idle",
        "\nend\n",
        "\nend\n",
        0,
        ONCE,
    ),
    ("table game log game idle", "\nplay\n", SERVED, 0, SEATED),
    (
        "table game idle game log",
        "0 1100 -660 0 440\n",
        "0 1100 -660 0 441\n",
        9,
        "unsound 1\n",
    ),
    (
        "table game log game missing",
        "\nend\n",
        "\nend\n",
        3,
        "fault read\n",
    ),
];

// How many pairs of files that are not there a table has, and the code and the text that are due.
const PAIRS: &[(usize, u8, &str)] = &[(64, 3, "fault read\n"), (65, 1, "usage\n")];

#[test]
fn logs_are_judged_by_their_games(rt: HostRuntime) {
    let game = plain_game(&rt);
    let idle = log_of(&rt, "");
    let traded = log_of(&rt, TRADES);
    for (line, part, other, code, told) in JUDGED {
        let log = changed(&rt, traded.as_str(), part, other);
        let files = [
            ("game", game.as_slice()),
            ("idle", idle.as_bytes()),
            ("log", log.as_bytes()),
            ("empty", b"".as_slice()),
        ];
        check(&rt, line, &files, *code, &[told]);
    }
    for (count, code, told) in PAIRS {
        let pairs = " game log".repeat(rt.alloc(), *count).expect(&rt, "memory");
        let line = format!(in rt.alloc(); "table{pairs}").expect(&rt, "memory");
        check(&rt, line.as_str(), &[], *code, &[told]);
    }
}
