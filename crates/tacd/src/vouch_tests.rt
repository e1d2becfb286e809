// The audit of a log by one link.
use crate::tests::{SERVED, TRADES, changed, check, log_of, plain_game, said_to};

const WORDS: &str = "vouch game log asked said";

const JSON: &str = "vouch game log asked said json";

// What agent 2 asks and is answered in JSON.
const OBJECTS: &str =
    "hello seat2\n{\"do\":\"bid\",\"auction\":24,\"points\":[[1,70]]}\n{\"do\":\"quit\"}\n";

const ANSWERS: &str = "{\"at\":2,\"taken\":[1,0]}\n{\"bye\":true}\n";

// What it asks and is answered if there was no memory to read the first line.
const UNREAD: &str =
    "hello seat2\n{\"do\":\"quote\",\"auction\":0}\n{\"do\":\"bid\",\"auction\":24,\"points\":[[1,70]]}\n{\"do\":\"quit\"}\n";

const UNREAD_ANSWERS: &str = "{\"no\":\"memory\"}\n{\"at\":2,\"taken\":[1,0]}\n{\"bye\":true}\n";

// What agent 0 asks, and four of its replies.
const SIX: &str =
    "hello seat0\nbid 0 ((1 300))\nbid 4 ((1 300))\nbid 8 ((1 50))\nbid 24 ((1 70))\ncash\nquote 8\nquit\n";

const FOUR: &str =
    "hello seat0\nbid 0 ((1 300))\nbid 4 ((1 300))\nbid 8 ((1 50))\nbid 24 ((1 70))\n";

const FOUR_SAID: &str = "@0 taken 1 0\n@0 taken 1 0\n@0 taken 0 0\n@1 taken 1 0\n";

// A line, what a link asked, the agent whose ten lines it was sent and what it was sent after them, and the code and the text that are due.
const LINKS: &[(&str, &str, u8, &str, u8, &str)] = &[
    (
        WORDS,
        "hello seat2\nbid 24 ((1 70))\nquit\n",
        2,
        "@2 taken 1 0\nbye\n",
        0,
        "vouched 2 whole 2\n",
    ),
    (JSON, OBJECTS, 2, ANSWERS, 0, "vouched 2 whole 2\n"),
    // A reply that did not arrive, or not whole.
    (
        WORDS,
        "hello seat2\nbid 24 ((1 70))\nquit\n",
        2,
        "",
        0,
        "vouched 2 cut 0 1\n",
    ),
    (
        WORDS,
        "hello seat2\nbid 24 ((1 70))\nquit\n",
        2,
        "@2 take",
        0,
        "vouched 2 cut 0 1\n",
    ),
    (WORDS, SIX, 0, FOUR_SAID, 0, "vouched 0 cut 4 1\n"),
    // Another reply, another line, a line twice, and another form.
    (
        WORDS,
        "hello seat2\nbid 24 ((1 70))\nquit\n",
        2,
        "@2 taken 0 0\nbye\n",
        9,
        "unvouched line 1\n",
    ),
    (
        WORDS,
        "hello seat2\nbid 24 ((1 71))\nquit\n",
        2,
        "@2 taken 1 0\nbye\n",
        9,
        "unvouched line 1\n",
    ),
    (
        WORDS,
        "hello seat2\nbid 24 ((1 70))\nbid 24 ((1 70))\n",
        2,
        "@2 taken 1 0\n@2 taken 1 0\n",
        9,
        "unvouched line 2\n",
    ),
    (WORDS, OBJECTS, 2, ANSWERS, 9, "unvouched line 1\n"),
    // An entry that no line requested, and a reading of cash.
    (
        WORDS,
        "hello seat2\nquit\n",
        2,
        "bye\n",
        9,
        "unvouched entry 24 2\n",
    ),
    (WORDS, FOUR, 0, FOUR_SAID, 9, "unvouched cash 4\n"),
    // The log has no link of this seat, or the link asked for none, or for another.
    (
        WORDS,
        "hello seat7\nquit\n",
        7,
        "bye\n",
        9,
        "unvouched seat\n",
    ),
    (JSON, "", 2, ANSWERS, 9, "unvouched seat\n"),
    (JSON, "hello seat0\n", 2, ANSWERS, 9, "unvouched welcome\n"),
    // A line for which there was no memory.
    (
        JSON,
        UNREAD,
        2,
        UNREAD_ANSWERS,
        0,
        "vouched 2 whole 3 memory 1\n",
    ),
    (
        JSON,
        UNREAD,
        2,
        "{\"no\":\"memory\"}\n",
        0,
        "vouched 2 cut 1 1 memory 1\n",
    ),
    // Causes that the record does not allow, and some that it does.
    (
        WORDS,
        "hello seat2\nbid 24 ((1 70))\n",
        2,
        "@2 taken 1 0\n",
        9,
        "unvouched cause\n",
    ),
    (
        "vouch game ended asked said",
        "hello seat2\nbid 24 ((1 70))\nquit\n",
        2,
        "@2 taken 1 0\nbye\n",
        9,
        "unvouched cause\n",
    ),
    (
        "vouch game ended asked said",
        "hello seat2\nbid 24 ((1 70))\nquit\n",
        2,
        "@2 taken 1 0\nby",
        0,
        "vouched 2 cut 1 0\n",
    ),
    (
        "vouch game cut asked said",
        "hello seat2\nbid 24 ((1 70))\n",
        2,
        "@2 taken 1 0\n",
        9,
        "unvouched cause\n",
    ),
    (
        "vouch game cut asked said",
        "hello seat2\nbid 24 ((1 70))\n",
        2,
        "@2 taken 1",
        0,
        "vouched 2 cut 0 1\n",
    ),
    (
        "vouch game spent asked said",
        "hello seat2\nbid 24 ((1 70))\n",
        2,
        "@2 taken 1 0\n",
        9,
        "unvouched cause\n",
    ),
    // A game or a log that is refused.
    (
        "vouch log log asked said",
        "hello seat2\n",
        2,
        "",
        2,
        "game 1 1\n",
    ),
    (
        "vouch game asked asked said",
        "hello seat2\n",
        2,
        "",
        8,
        "text 1 1\n",
    ),
];

#[test]
fn logs_are_judged_by_links(rt: HostRuntime) {
    let game = plain_game(&rt);
    let traded = log_of(&rt, TRADES);
    let log = changed(&rt, traded.as_str(), "\nplay\n", SERVED);
    // The same with another cause for agent 2.
    let ended = changed(&rt, log.as_str(), "end 2 quit", "end 2 end");
    let cut = changed(&rt, log.as_str(), "end 2 quit", "end 2 writefault");
    let spent = changed(&rt, log.as_str(), "end 2 quit", "end 2 budget");
    for (line, asked, agent, replies, code, told) in LINKS {
        let said = said_to(&rt, *agent, replies);
        let files = [
            ("game", game.as_slice()),
            ("log", log.as_bytes()),
            ("ended", ended.as_bytes()),
            ("cut", cut.as_bytes()),
            ("spent", spent.as_bytes()),
            ("asked", asked.as_bytes()),
            ("said", said.as_bytes()),
        ];
        check(&rt, line, &files, *code, &[told]);
    }
}
