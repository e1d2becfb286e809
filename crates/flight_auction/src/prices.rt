ghost use Rattle.std.specs.Prelude.{◌≡◌, ◌≤◌, ◌+◌, pos, negsuc, ◌≤ℤ◌, unsigned_abs};
ghost use Rattle.auction_rules.specs.FlightRule as rule;

use tac_base::Tick;
use tac_base::limits::{TICKS, UPDATE_TICKS};

/// The ticks of a game; the drift is a fraction of them.
const ALL_TICKS: i32 = TICKS as i32;

/// The lowest price of a flight, in dollars.
const LOWEST: i32 = 150;

/// The highest price of a flight, in dollars.
const HIGHEST: i32 = 800;

/// Returns the drift of a flight at a tick, in dollars: an end of the interval of changes unless it is 0.
fn drift(bound: i8, tick: Tick) -> i32
    requires bound_from { negsuc 9 ≤ℤ bound }
    requires bound_to { bound ≤ℤ pos 30 }
    ensures value { result ≡ rule.drift bound tick }
    ensures from { negsuc 9 ≤ℤ result }
    ensures to { result ≤ℤ pos 30 }
{
    10 + (i32::from(tick.get()) * (i32::from(bound) - 10)).div_euclid(ALL_TICKS)
}

/// Returns the lowest change if the drift is `x`.
fn low_end(x: i32) -> i32
    requires { negsuc 9 ≤ℤ x }
    ensures value { result ≡ rule.low_end x }
    ensures from { negsuc 9 ≤ℤ result }
    ensures to { result ≤ℤ pos 0 }
{
    if x < 0 { x } else { -10 }
}

/// Returns the highest change if the drift is `x`.
fn high_end(x: i32) -> i32
    requires { x ≤ℤ pos 30 }
    ensures value { result ≡ rule.high_end x }
    ensures from { pos 0 ≤ℤ result }
    ensures to { result ≤ℤ pos 30 }
{
    if 0 < x { x } else { 10 }
}

/// Returns the number in the interval that the draw selects.
fn change(low: i32, high: i32, draw: u32) -> i32
    requires low_from { negsuc 9 ≤ℤ low }
    requires low_to { low ≤ℤ pos 0 }
    requires high_from { pos 0 ≤ℤ high }
    requires high_to { high ≤ℤ pos 30 }
    ensures value { result ≡ rule.change low high draw }
    ensures from { negsuc 9 ≤ℤ result }
    ensures to { result ≤ℤ pos 30 }
{
    low + (draw % ((high - low).unsigned_abs() + 1)) as i32
}

/// Returns the price in dollars after an update at a tick. It must be in 150 to 800 before.
///
/// A flight's bound, -10 to 30, determines how its price tends to move: at first an update changes it by
/// -10 to 10, and the later the tick, the nearer one end of the interval is to the bound. The draw selects
/// a whole number in the interval. The range of the price is the game description's; this project defines
/// how the draw changes it.
pub fn next_price(price: u16, bound: i8, tick: Tick, draw: u32) -> u16
    requires price_from { 150 ≤ price }
    requires price_to { price ≤ 800 }
    requires bound_from { negsuc 9 ≤ℤ bound }
    requires bound_to { bound ≤ℤ pos 30 }
    requires before_closing { tick ≤ UPDATE_TICKS }
    ensures value { result ≡ rule.next_price price bound tick draw }
    ensures from { 150 ≤ result }
    ensures to { result ≤ 800 }
{
    let x = drift(bound, tick);
    let sum = i32::from(price) + change(low_end(x), high_end(x), draw);
    sum.clamp(LOWEST, HIGHEST) as u16
}
