ghost use Rattle.std.specs.Prelude.{◌≡◌, ◌+◌, ◌-◌, ◌%◌, ◌<◌, ◌≤◌, [], ◌∷◌, ◌++◌, codes, replicate, IfOk, OnOk};
ghost use Rattle.draw_maker.specs.Prelude.{text_of, MADE_REQUESTS};
ghost use Rattle.draw_maker.specs.BidScripts.{IsBidScript};
ghost use Rattle.draw_maker.specs.Scripts as scripts;

use crate::drawing::draw_words;
use bid_strings::print_points;
use rand_pcg::Lcg64Xsh32;
use std::alloc::{AllocError, Global};
use tac_base::limits::{AGENTS, GOODS, TICKS};
use tac_base::{Good, Kind, Memory, Point, Text, print_numeral};

/// The stream of the generator for scripts.
const SCRIPT_STREAM: u64 = 55;

/// Returns the good that a word selects.
fn good_of(word: u32) -> Good
    ensures { result ≡ word % GOODS }
{
    Good::new((word % u32::from(GOODS)) as u8).unwrap()
}

/// Returns the units of a bid for a ticket: it buys or sells one.
fn ticket_units(side: u32) -> i8
    ensures { result ≡ scripts.ticket_units side }
{
    if side % 2 == 0 { 1 } else { -1 }
}

/// Returns the point of a bid for a good of the kind.
fn made_point(kind: Kind, side: u32, units: u32, price: u32) -> Point
    ensures { result ≡ scripts.made_point kind side units price }
{
    match kind {
        Kind::Flight => Point {
            units: 1 + (units % 2) as i8,
            price: 150 + (price % 651) as u16,
        },
        Kind::Hotel => Point {
            units: 1 + (units % 4) as i8,
            price: 1 + (price % 400) as u16,
        },
        Kind::Ticket => Point {
            units: ticket_units(side),
            price: 1 + (price % 200) as u16,
        },
    }
}

/// Returns the request that five words make.
fn made_request(words: &[u32; 5]) -> Text
    ensures { result ≡ scripts.made_request words.now }
{
    let good = good_of(words[1]);
    let point = made_point(good.kind(), words[2], words[3], words[4]);
    let mut line = Text::new();
    print_numeral(u64::from(words[0] % u32::from(AGENTS)), &mut line);
    line.push_bytes(b" bid ");
    print_numeral(u64::from(good.get()), &mut line);
    line.push(b' ');
    print_points(&[point], &mut line);
    line
}

/// Appends a line. After an error the text may end within it.
fn push_line(line: &[u8], out: &mut Vec<u8>) -> Result<(), AllocError>
    ensures { OnOk result (out.new.items ≡ out.old.items ++ text_of (line.now ∷ [])) }
{
    out.extend_from_slice(line)?;
    out.push(b'\n')?;
    Ok(())
}

/// Appends this many ticks. After an error the text may end within them.
fn push_ticks(count: u32, out: &mut Vec<u8>) -> Result<(), AllocError>
    ensures { OnOk result (out.new.items ≡ out.old.items ++ text_of (replicate count (codes "tick"))) }
{
    for _i in 0..count {
        push_line(b"tick", out)?;
    }
    Ok(())
}

/// Returns how many ticks precede the request with this number.
fn ticks_before(count: u32, i: u32) -> u32
    requires many { count ≤ MADE_REQUESTS }
    requires inside { i < count }
    ensures { result ≡ scripts.ticks_before count i }
{
    u32::from(TICKS) * i / count
}

/// Returns how many ticks come between the request with this number and the one before it.
fn new_ticks(count: u32, i: u32) -> u32
    requires many { count ≤ MADE_REQUESTS }
    requires inside { i < count }
    ensures { result ≡ scripts.ticks_before count i - scripts.ticks_before count (i - 1) }
{
    ticks_before(count, i) - ticks_before(count, i.saturating_sub(1))
}

/// Appends the ticks before a request, and the request of the words. After an error the text may end within them.
fn push_request(count: u32, i: u32, words: &[u32; 5], out: &mut Vec<u8>) -> Result<(), AllocError>
    requires many { count ≤ MADE_REQUESTS }
    requires inside { i < count }
    ensures { OnOk result (out.new.items ≡ out.old.items ++ text_of (scripts.made_lines count i words.now)) }
{
    push_ticks(new_ticks(count, i), out)?;
    push_line(made_request(words).as_slice(), out)?;
    Ok(())
}

/// Makes the game script of a seed: `count` requests, at most 50000, each a bid of one point, with evenly spaced ticks
/// between them. All of it comes from the words of a PCG generator, and is the same at each call. This project defines
/// the rule. Without requests the script is empty. `Memory` leaves nothing.
pub fn make_script(alloc: Global, seed: u64, count: u32) -> Result<Vec<u8>, Memory>
    requires { count ≤ MADE_REQUESTS }
    ensures exact { IfOk result (λ text. text.items ≡ scripts.made_script seed count) }
    ensures bids { IfOk result (λ text. IsBidScript count text.items) }
{
    let mut generator = Lcg64Xsh32::new(seed, SCRIPT_STREAM);
    let mut out = Vec::new(alloc);
    for i in 0..count {
        push_request(count, i, &draw_words(&mut generator), &mut out)?;
    }
    Ok(out)
}
