// The commands of one file, and words and files that are refused.
use crate::tests::{
    Case, changed, check, check_all, check_script, live_game, plain_game, run_plain, text_of,
};
use std::process::Abort;
use std::rt::Clock;
use std::sync::Wait;
use std::thread::Threads;

// Lines that are no commands.
const NO_COMMANDS: &str = ";hotel;Hotel script;hotel script script;play script;step script;\
    step game script script;audit;audit game;audit game script script;table;table game;\
    table game script game;vouch game script script;vouch game script script script words;\
    vouch game script script script json json;solve;worth;upgrade;make;make 042;make -1;\
    make 18446744073709551616;trial 7 50001;trial 7 01;trial -7 0;serve game 0 5;\
    serve script 7411 5 JSON";

const COMMANDS: &[Case<'static>] = &[
    ("hotel script", "close\n", 0, &["@0 sold 0 0\n"]),
    (
        "hotel script",
        "0 bid ((15 100))\nclose\n",
        0,
        &["@0 taken 0 0\n@1 sold 15 0\ntrade 0 8 15 0\n"],
    ),
    (
        "hotel script",
        "0 bid ((1 100) (1 101) (1 102) (1 103) (1 104) (1 105) (1 106) (1 107) (1 108) (1 109) (1 110) (1 111) (1 112) (1 113) (1 114) (1 115))\nclose\n",
        0,
        &["@0 taken 0 0\n@1 sold 16 100\ntrade 0 8 16 100\n"],
    ),
    (
        "hotel script",
        "0 bid ((15 200))\n1 bid ((1 150))\n2 bid ((1 150))\nclose\n",
        0,
        &[
            "@0 taken 0 0\n@1 taken 0 0\n@2 taken 0 0\n@3 sold 16 150\ntrade 0 8 15 150\ntrade 1 8 1 150\n",
        ],
    ),
    (
        "hotel script",
        "0 bid ((13 100))\n1 bid ((3 120))\npublish\n1 bid ((2 150) (1 100))\n",
        0,
        &["@0 taken 0 0\n@1 taken 0 0\n@2 done\n@3 no belowquote 3 101 2\n"],
    ),
    (
        "hotel script",
        "0 bid ((13 100))\n1 bid ((3 120))\npublish\n2 bid ((14 101))\n1 bid ((3 101))\nclose\n",
        0,
        &[
            "@0 taken 0 0\n@1 taken 0 0\n@2 done\n@3 taken 0 0\n@4 taken 0 0\n@5 sold 16 101\ntrade 1 8 2 101\ntrade 2 8 14 101\n",
        ],
    ),
    (
        "hotel script",
        "close\n0 bid ((1 5))\nclose\n",
        0,
        &["@0 sold 0 0\n@1 no closed\n@2 no closed\n"],
    ),
    (
        "hotel script",
        "0 bid ((15 10))\npublish\n0 bid ((1 1))\n",
        0,
        &["@0 taken 0 0\n@1 done\n@2 no belowquote 15 1 1\n"],
    ),
    ("hotel script", "0 bid ((-1 5))\n", 0, &["@0 no sell\n"]),
    (
        "hotel script",
        "0 bid ((15 100))\nclose\n0 own\n",
        0,
        &["@0 taken 0 0\n@1 sold 15 0\ntrade 0 8 15 0\n@2 own 15 ()\n"],
    ),
    ("hotel script", "", 0, &[""]),
    ("hotel script", "8 bid ((1 5))\n", 8, &["text 1 1\n"]),
    (
        "hotel script",
        "close\n0 bid ((01 5))\n",
        8,
        &["text 2 2\n"],
    ),
    ("hotel script", "close\n0 bid\n", 8, &["text 2 1\n"]),
    ("hotel script", "close\nclose", 8, &["text 2 3\n"]),
    ("hotel other", "", 3, &["fault read\n"]),
    ("show script", "", 2, &["game 1 7\n"]),
    ("upgrade bad", "", 2, &["game 1 1\n"]),
    ("serve bad 65535 60000", "", 2, &["game 1 1\n"]),
    (
        "trial 7 0",
        "",
        0,
        &[
            "trial 7 0\nentries 480\ntrades 0\nscore 0 0 0 0 0\nscore 1 0 0 0 0\nscore 2 0 0 0 0\nscore 3 0 0 0 0\nscore 4 0 0 0 0\nscore 5 0 0 0 0\nscore 6 0 0 0 0\nscore 7 0 0 0 0\nend\n",
        ],
    ),
    (
        "trial 7 2000",
        "",
        0,
        &[
            "trial 7 2000\nentries 2480\n",
            "\nscore 0 9263 -22234 7 -14371\n",
            "\nscore 7 9223 -28844 6 -20821\nend\n",
        ],
    ),
    // No agent has 1024 requests at one good here, so each is an entry, in addition to the 480 of the clock.
    (
        "trial 7 50000",
        "",
        0,
        &[
            "trial 7 50000\nentries 50480\ntrades ",
            "\nscore 0 ",
            "\nscore 7 ",
            "\nend\n",
        ],
    ),
    (
        "solve account",
        "",
        0,
        &[
            "total 1150\npackage 0 none\npackage 1 0 1 2 1 0 0\npackage 2 none\npackage 3 none\npackage 4 none\npackage 5 none\npackage 6 none\npackage 7 none\ncert ",
            "\nend\n",
        ],
    ),
    (
        "worth account",
        "",
        0,
        &[
            "worth 1150\ngood 0 1000 1150\ngood 1 0 0\ngood 2 0 0\ngood 3 0 0\ngood 4 0 0\ngood 5 0 0\ngood 6 0 0\ngood 7 0 0\ngood 8 0 0\ngood 9 0 0\ngood 10 0 0\ngood 11 0 0\ngood 12 50 0\ngood 13 0 0\ngood 14 0 0\ngood 15 0 0\ngood 16 0 150\ngood 17 0 0\ngood 18 0 0\ngood 19 0 0\ngood 20 0 0\ngood 21 0 0\ngood 22 0 0\ngood 23 0 0\ngood 24 0 0\ngood 25 0 0\ngood 26 0 0\ngood 27 0 0\nbase\ntotal 1150\n",
            "\nmore 0\ntotal 2150\n",
            "\nless 0\ntotal 0\n",
            "\nend\nend\n",
        ],
    ),
    (
        "worth script",
        NOTHING_HELD,
        0,
        &[
            "worth 0\ngood 0 0 0\ngood 1 0 0\ngood 2 0 0\ngood 3 0 0\ngood 4 0 0\ngood 5 0 0\ngood 6 0 0\ngood 7 0 0\ngood 8 0 0\ngood 9 0 0\ngood 10 0 0\ngood 11 0 0\ngood 12 0 0\ngood 13 0 0\ngood 14 0 0\ngood 15 0 0\ngood 16 0 0\ngood 17 0 0\ngood 18 0 0\ngood 19 0 0\ngood 20 0 0\ngood 21 0 0\ngood 22 0 0\ngood 23 0 0\ngood 24 0 0\ngood 25 0 0\ngood 26 0 0\ngood 27 0 0\nbase\ntotal 0\n",
            "\nless 27\ntotal 0\n",
            "\nend\nend\n",
        ],
    ),
    ("solve script", "", 8, &["text 1 7\n"]),
    (
        "solve script",
        "# two words\naccount 1\n",
        8,
        &["text 2 2\n"],
    ),
    ("worth script", "acount\n", 8, &["text 1 1\n"]),
];

// The account with one seat and one ticket, without any good.
const NOTHING_HELD: &str =
    "account\nhold 0 0 0 0 0 0 0 0 0 0 0 0 0 0 0 0 0 0 0 0 0 0 0 0 0 0 0 0\nclient 0 1 2 50 100 0 0\nclient 1 1 2 50 150 0 0\nclient 2 1 2 50 0 0 0\nclient 3 1 2 50 0 0 0\nclient 4 1 2 50 0 0 0\nclient 5 1 2 50 0 0 0\nclient 6 1 2 50 0 0 0\nclient 7 1 2 50 0 0 0\nend\n";

// A line that writes a game, the number of its lines, and how a line begins, counted from 0.
const GAME_LINES: &[(&str, usize, usize, &str)] = &[
    ("make 42", 84, 0, "tac 1"),
    ("make 42", 84, 2, "flight 0 360 27 3122475824 2211639955 "),
    ("show game", 84, 3, "flight 1 300 10 10 10 "),
    ("show live", 86, 0, "tac 2"),
    ("upgrade game", 86, 11, "rooms 16 16 16 16 16 16 16 16"),
    ("upgrade game", 86, 12, "quotes minute"),
];

// Whether the game has a scarce night and live quotes, a part of its text and what replaces it, and the code and the text that are due.
const CHANGED: &[(bool, &str, &str, u8, &str)] = &[
    (
        false,
        "client 0 0 1 2 ",
        "client 0 0 2 2 ",
        2,
        "game 20 4\n",
    ),
    (true, "rooms 1 ", "rooms 0 ", 2, "game 12 4\n"),
    (true, "quotes live", "quotes often", 2, "game 13 3\n"),
    (true, "tac 2\n", "tac 3\n", 2, "game 1 1\n"),
];

// Checks what a line writes: the number of its lines, how one of them begins, and that `show` writes the same.
fn check_game<R: Threads + Sync + Wait + Clock + Abort + AllocGlobal>(
    rt: &R,
    line: &str,
    files: &[(&str, &[u8])],
    count: usize,
    number: usize,
    start: &str,
) {
    let (_, out) = run_plain(rt, line, files);
    let text = text_of(rt, out.bytes());
    let found = text.split('\n').nth(number).expect(rt, "a line");
    assert!(rt;
        text.matches("\n").count() == count && found.starts_with(start),
        "{start}"
    );
    check(rt, "show made", &[("made", out.bytes())], 0, &[text]);
}

// Checks each game that is written.
fn check_written<R: Threads + Sync + Wait + Clock + Abort + AllocGlobal>(
    rt: &R,
    files: &[(&str, &[u8])],
) {
    for (line, count, number, start) in GAME_LINES {
        check_game(rt, line, files, *count, *number, start);
    }
}

// Checks each change of a game, and a comment before one.
fn check_changed<R: Threads + Sync + Wait + Clock + Abort + AllocGlobal>(
    rt: &R,
    game: &str,
    live: &str,
) {
    for (is_live, part, other, code, told) in CHANGED {
        let base = if *is_live { live } else { game };
        let text = changed(rt, base, part, other);
        check(
            rt,
            "show changed",
            &[("changed", text.as_bytes())],
            *code,
            &[told],
        );
    }
    let text = changed(rt, game, "tac 1\n", "# game\ntac 1\n");
    check(
        rt,
        "show changed",
        &[("changed", text.as_bytes())],
        0,
        &[game],
    );
}

#[test]
fn commands_write_what_is_due(rt: HostRuntime) {
    for line in NO_COMMANDS.split(';') {
        check_script(&rt, line, "", 1, &["usage\n"]);
    }
    check_all(&rt, COMMANDS);
    let (game, live) = (plain_game(&rt), live_game(&rt));
    check_written(&rt, &[("game", game.as_slice()), ("live", live.as_bytes())]);
    check_changed(&rt, text_of(&rt, &game), live.as_str());
}
