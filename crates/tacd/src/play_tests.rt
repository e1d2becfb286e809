// A whole game by a script.
use crate::tests::{Case, TRADES, check_all, check_script};

const GAMES: &[Case<'static>] = &[
    // Bids of every fault.
    (
        "play game script",
        "0 bid 0 ((16 10000))\n0 bid 0 ((17 1))\n0 bid 0 ((1 0))\n0 bid 0 ((1 10001))\n0 bid 0 ((0 100))\n0 bid 0 ((1 1)\n0 bid 0 ((1 1) (1 1) (1 1) (1 1) (1 1) (1 1) (1 1) (1 1) (1 1) (1 1) (1 1) (1 1) (1 1) (1 1) (1 1) (1 1) (1 1))\n0 bid 28 ((1 1))\n0 buy 0\n",
        0,
        &[
            "0 @0 taken 16 0\n0 no bid 3\n0 no bid 4\n0 no bid 4\n0 no bid 5\n0 no bid 1\n0 no bid 2\n0 no auction\n0 no syntax\ntaclog 1\nplay\nauction 0 55\n",
            "\n0 bid ((16 10000)) = taken 16 0\ntrade 0 8 16 300\n",
            "\ncash 1\n0 post 0 0 -4800 0 0 0 0 0 0 0 4800\nsheet\nscore 0 0 -4800 0 -4800\npackage 0 0 none\n",
            "\nscore 7 0 0 0 0\npackage 7 0 none\n",
        ],
    ),
    (
        "play game script",
        "0 bid 24 ((-1 60))\n1 bid 24 ((2 70))\n1 quote 24\n",
        0,
        &[
            "0 @0 taken 0 0\n1 @1 taken 1 0\n1 @2 quote 70 0 open\ntaclog 1\nplay\n",
            "\n1 bid ((2 70)) = taken 1 0\ntrade 1 0 1 60\n",
        ],
    ),
    (
        "play game script",
        "0 bid 24 ((-1 60))\n0 bid 24 ((1 70))\n0 quote 24\n0 own 24\n",
        0,
        &[
            "0 @0 taken 0 0\n0 @1 taken 0 0\n0 @2 quote 70 0 open\n0 @2 own 0 ((1 70))\ntaclog 1\n",
            "\nend\n",
        ],
    ),
    // Without calls nobody scores.
    (
        "play game script",
        "",
        0,
        &[
            "taclog 1\nplay\nauction 0 54\n",
            "\ncash 0\nsheet\n",
            "\nscore 0 0 0 0 0\npackage 0 0 none\npackage 0 1 none\npackage 0 2 none\npackage 0 3 none\npackage 0 4 none\npackage 0 5 none\npackage 0 6 none\npackage 0 7 none\ncert 0 ",
            "\nscore 1 0 0 0 0\npackage 1 0 none\npackage 1 1 none\npackage 1 2 none\npackage 1 3 none\npackage 1 4 none\npackage 1 5 none\npackage 1 6 none\npackage 1 7 none\ncert 1 ",
            "\nscore 2 0 0 0 0\npackage 2 0 none\npackage 2 1 none\npackage 2 2 none\npackage 2 3 none\npackage 2 4 none\npackage 2 5 none\npackage 2 6 none\npackage 2 7 none\ncert 2 ",
            "\nscore 3 0 0 0 0\npackage 3 0 none\npackage 3 1 none\npackage 3 2 none\npackage 3 3 none\npackage 3 4 none\npackage 3 5 none\npackage 3 6 none\npackage 3 7 none\ncert 3 ",
            "\nscore 4 0 0 0 0\npackage 4 0 none\npackage 4 1 none\npackage 4 2 none\npackage 4 3 none\npackage 4 4 none\npackage 4 5 none\npackage 4 6 none\npackage 4 7 none\ncert 4 ",
            "\nscore 5 0 0 0 0\npackage 5 0 none\npackage 5 1 none\npackage 5 2 none\npackage 5 3 none\npackage 5 4 none\npackage 5 5 none\npackage 5 6 none\npackage 5 7 none\ncert 5 ",
            "\nscore 6 0 0 0 0\npackage 6 0 none\npackage 6 1 none\npackage 6 2 none\npackage 6 3 none\npackage 6 4 none\npackage 6 5 none\npackage 6 6 none\npackage 6 7 none\ncert 6 ",
            "\nscore 7 0 0 0 0\npackage 7 0 none\npackage 7 1 none\npackage 7 2 none\npackage 7 3 none\npackage 7 4 none\npackage 7 5 none\npackage 7 6 none\npackage 7 7 none\ncert 7 ",
        ],
    ),
    (
        "play game script",
        "0 quit\n",
        0,
        &["0 bye\ntaclog 1\nplay\nauction 0 54\n", "\ncash 0\nsheet\n"],
    ),
    // A scarce night with quotes that move with each bid.
    (
        "play live script",
        "0 bid 8 ((1 50))\n0 quote 8\n1 bid 8 ((1 50))\n1 bid 8 ((1 51))\n1 quote 8\n",
        0,
        &[
            "0 @0 taken 0 0\n0 @1 quote 0 50 open\n1 @1 no belowquote 1 51 0\n1 @2 taken 0 0\n1 @3 quote 0 51 open\ntaclog 1\n",
            "\nauction 8 4\n",
            "\n8 close = sold 1 51\ntrade 1 8 1 51\n",
        ],
    ),
    // Bids and withdrawals that the auctions refuse, and a hotel after its closing.
    (
        "play game script",
        "0 bid 24 ((1 80) (-1 70))\n0 bid 0 ((-1 300))\n0 withdraw 8\n0 withdraw 24\ntick\ntick\ntick\ntick\ntick\ntick\n0 quote 8\n7 own 8\n7 bid 8 ((1 5))\n7 quote 0\n",
        0,
        &[
            "0 @0 no selfcross\n0 @0 no sell\n0 @0 no wrongcall\n0 @1 no nobid\n0 @2 quote 0 0 closed\n7 @2 own 0 ()\n7 @3 no closed\n7 @7 quote 0 300 open\ntaclog 1\nplay\nauction 0 55\n",
            "\nend\n",
        ],
    ),
    ("play game script", TRADES, 0, TRADES_TOLD),
    ("step game script", TRADES, 0, TRADES_TOLD),
    ("play bad script", "0 cash\n", 2, &["game 1 1\n"]),
    ("step bad script", "0 cash\n", 2, &["game 1 1\n"]),
    (
        "step game script",
        "",
        0,
        &["taclog 1\nplay\nauction 0 54\n", "\nscore 7 0 0 0 0\n"],
    ),
    ("play game script", "0 quit\n0 cash\n", 8, &["text 2 2\n"]),
    (
        "step game script",
        "0 quit\n0 cash\n",
        8,
        &["0 bye\ntext 2 2\n"],
    ),
    (
        "step game script",
        "0 cash\n1 cash\n0 quit",
        8,
        &["0 @0 cash 0\n1 @1 cash 0\ntext 3 3\n"],
    ),
];

// The replies to those trades, and parts of the log.
const TRADES_TOLD: &[&str] = &[
    "0 @0 taken 1 0\n0 @0 taken 1 0\n0 @0 taken 0 0\n1 @0 taken 0 0\n0 @1 taken 1 0\n2 @2 taken 1 0\n1 @3 own -2 ()\n0 @4 cash -660\n0 @1 quote 0 0 open\ntaclog 1\nplay\nauction 0 55\n",
    "\nauction 8 2\n",
    "\nauction 15 8\n",
    "\nauction 16 1\n",
    "\nauction 24 5\n1 bid ((-2 60)) = taken 0 0\n0 bid ((1 70)) = taken 1 0\ntrade 0 1 1 60\n2 bid ((1 70)) = taken 1 0\ntrade 2 1 1 60\n1 own = own -2 ()\n8 close = done\n",
    "\ncash 6\n0 post 0 0 -300 0 0 0 0 0 0 0 300\n0 post 4 0 -300 0 0 0 0 0 0 0 300\n0 post 24 1 -60 60 0 0 0 0 0 0 0\n2 post 24 2 0 60 -60 0 0 0 0 0 0\n0 read = -660\n8 post 8 1 0 0 0 0 0 0 0 0 0\nsheet\n",
    "\nscore 0 1100 -660 0 440\n",
    "\nscore 1 0 120 2 -280\n",
    "\nscore 2 0 -60 0 -60\n",
    "\nscore 3 0 0 0 0\n",
    "\nscore 4 0 0 0 0\n",
    "\nscore 5 0 0 0 0\n",
    "\nscore 6 0 0 0 0\n",
    "\nscore 7 0 0 0 0\n",
];

// A line, lines of its script and how often they occur, the last line, and the code and the text that are due.
const LONG: &[(&str, &str, usize, &str, u8, &[&str])] = &[
    // An agent has 1024 calls at an auction, and the clock 64.
    (
        "hotel script",
        "0 bid ((1 1))\n",
        1_025,
        "",
        8,
        &["text 1025 5\n"],
    ),
    ("hotel script", "0 own\n", 1_025, "", 8, &["text 1025 5\n"]),
    ("hotel script", "publish\n", 65, "", 8, &["text 65 5\n"]),
    (
        "play game script",
        "0 own 24\n",
        1_025,
        "",
        0,
        &[
            "0 @0 own 0 ()\n",
            "\n0 @1023 own 0 ()\n0 no spent\ntaclog 1\n",
            "\nauction 24 1025\n",
            "\n0 own = own 0 ()\n8 close = done\nauction 25 1\n",
        ],
    ),
    // A game file has at most 1048576 bytes.
    ("show script", "#\n", 524_289, "", 2, &["game too long\n"]),
    // Agent 1 sells 16 tickets for a dollar each 512 times: it has 8192 dollars, and 8192 tickets short cost it 1638400.
    (
        "play game script",
        "1 bid 24 ((-16 1))\n0 bid 24 ((16 1))\n",
        512,
        "1 own 24\n",
        0,
        &[
            "1 @0 taken 0 0\n0 @1 taken 16 0\n1 @2 taken 0 0\n",
            "\n0 @1023 taken 16 0\n1 @1024 own -8192 ()\ntaclog 1\n",
            "\nscore 0 0 -8192 0 -8192\n",
            "\nscore 1 0 8192 8192 -1630208\n",
        ],
    ),
    // The script has 66000 bytes.
    (
        "play game script",
        "0 cash\n1 own 27\n2 bid 0 ((17 1))\n",
        2_000,
        "",
        0,
        &[
            "0 @0 cash 0\n1 @0 own 0 ()\n2 no bid 3\n0 @1 cash 0\n",
            "\n0 @1023 cash 0\n1 @1023 own 0 ()\n2 no bid 3\n0 no spent\n1 no spent\n2 no bid 3\n",
            "\n1 no spent\n2 no bid 3\ntaclog 1\n",
            "\nauction 27 1025\n",
            "\ncash 1024\n",
        ],
    ),
];

#[test]
fn scripts_are_played_and_scored(rt: HostRuntime) {
    check_all(&rt, GAMES);
    for (line, lines, count, last, code, parts) in LONG {
        let mut script = lines.repeat(rt.alloc(), *count).expect(&rt, "memory");
        script.push_str(last).expect(&rt, "memory");
        check_script(&rt, line, script.as_str(), *code, parts);
    }
}
