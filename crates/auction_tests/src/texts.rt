// Texts of bids, and of made games and scripts.
use bid_strings::{print_points, read_points};
use draw_maker::{make_game, make_script};
use game_text::print_game;
use std::alloc::{AllocError, Global};
use std::test::Fail;
use tac_base::{BidFault, Point, Text};

/// Texts that are read, with their points.
const READ: &[(&[u8], &[Point])] = &[
    (
        b"((2 150) (1 100))",
        &[
            Point {
                units: 2,
                price: 150,
            },
            Point {
                units: 1,
                price: 100,
            },
        ],
    ),
    (
        b"((-1 60))",
        &[Point {
            units: -1,
            price: 60,
        }],
    ),
    (
        b"((16 10000))",
        &[Point {
            units: 16,
            price: 10000,
        }],
    ),
];

/// Texts that are refused, with their faults.
const REFUSED: &[(&[u8], BidFault)] = &[
    (b"((01 5))", BidFault::Syntax),
    (b"((1  5))", BidFault::Syntax),
    (b"()", BidFault::Syntax),
    (b"((-0 5))", BidFault::Syntax),
    (b"((1 100000))", BidFault::Syntax),
    (b"((1 1)", BidFault::Syntax),
    (
        b"((1 1) (1 1) (1 1) (1 1) (1 1) (1 1) (1 1) (1 1) (1 1) (1 1) (1 1) (1 1) (1 1) (1 1) (1 1) (1 1) (0 0))",
        BidFault::TooManyPoints,
    ),
    (
        b"((1 1) (1 1) (1 1) (1 1) (1 1) (1 1) (1 1) (1 1) (1 1) (1 1) (1 1) (1 1) (1 1) (1 1) (1 1) (1 1) (1 1))",
        BidFault::TooManyPoints,
    ),
    (b"((9 1) (-8 2))", BidFault::TooManyUnits),
    (b"((17 1))", BidFault::TooManyUnits),
    (b"((1 0))", BidFault::Price),
    (b"((1 10001))", BidFault::Price),
    (b"((0 10001))", BidFault::ZeroUnits),
    (b"((0 100))", BidFault::ZeroUnits),
];

/// Whether the text is read as these points, and printed of them.
fn is_read_as(text: &[u8], points: &[Point]) -> bool {
    let Ok(read) = read_points(text) else {
        return false;
    };
    let mut printed = Text::new();
    print_points(read.as_slice(), &mut printed);
    read.as_slice() == points && printed.as_slice() == text
}

/// The bids of the script of seed 3, each after this many more ticks. They come from a separate program that uses the generator's words.
const BIDS: &[(u8, &[u8])] = &[
    (0, b"1 bid 27 ((1 129))\n"),
    (13, b"4 bid 13 ((3 386))\n"),
    (14, b"3 bid 26 ((-1 90))\n"),
    (13, b"7 bid 20 ((-1 24))\n"),
];

/// That script.
fn script(alloc: Global) -> Result<Vec<u8>, AllocError> {
    let mut script = Vec::new(alloc);
    for (ticks, bid) in BIDS {
        for _ in 0..*ticks {
            script.extend_from_slice(b"tick\n")?;
        }
        script.extend_from_slice(bid)?;
    }
    Ok(script)
}

#[test]
fn bid_strings_are_read_or_refused_and_games_are_made(rt: HostRuntime) -> Result<(), Fail> {
    for (text, points) in READ {
        assert!(rt; is_read_as(text, points));
    }
    for (text, fault) in REFUSED {
        assert!(rt; read_points(text).err() == Some(*fault));
    }
    let alloc = rt.alloc();
    let game = print_game(alloc, &make_game(42))?;
    assert!(rt; game.starts_with(b"tac 1\nwords seat0 "));
    assert!(rt; game.iter().filter(|byte| **byte == b'\n').count() == 84);
    assert!(rt; make_script(alloc, 3, 4)? == script(alloc)?);
    Ok(())
}
