ghost use Rattle.std.specs.Prelude.{◌≡◌, ℕ, ◌+◌, ◌*◌, ◌≤◌, length, sum_by, pos, slice_index_or};
ghost use Rattle.auction_core.specs.Prelude.{house, traded, held_after, IsWithin};
ghost use Rattle.auction_rules.specs.Effects as effects;

use tac_base::limits::ENTRY_TRADES;
use tac_base::{Nets, Trade};
use trade_ledger::GoodBook;

/// Returns the price of all units of a trade, in dollars.
fn cost(trade: &Trade) -> u32
    ensures value { result ≡ trade.now.units * trade.now.price }
    ensures bound { result ≤ 16711425 }
{
    u32::from(trade.units) * u32::from(trade.price)
}

/// Returns what the party with the number is paid in the trades.
fn earned(trades: &[Trade], number: u8) -> u32
    requires { length trades.now ≤ ENTRY_TRADES }
    ensures value { result ≡ sum_by (λ t. t.units * t.price) (effects.sales_by trades.now number) }
    ensures bound { result ≤ 2139062400 }
{
    let mut dollars = 0;
    for trade in trades {
        if trade.seller.get() == number {
            dollars += cost(trade);
        }
    }
    dollars
}

/// Returns what the party with the number pays in the trades.
fn paid(trades: &[Trade], number: u8) -> u32
    requires { length trades.now ≤ ENTRY_TRADES }
    ensures value { result ≡ sum_by (λ t. t.units * t.price) (effects.buys_by trades.now number) }
    ensures bound { result ≤ 2139062400 }
{
    let mut dollars = 0;
    for trade in trades {
        if trade.buyer.get() == number {
            dollars += cost(trade);
        }
    }
    dollars
}

/// Returns what the party with the number gains in the trades.
fn net(trades: &[Trade], number: u8) -> i32
    requires { length trades.now ≤ ENTRY_TRADES }
    ensures { result ≡ effects.dollars trades.now number }
{
    earned(trades, number) as i32 - paid(trades, number) as i32
}

/// Returns what each party gains in an entry's trades. The gains of 128 trades of 255 units at 65,535 dollars fit 32 bits.
pub(crate) fn nets(trades: &[Trade]) -> Nets
    requires { length trades.now ≤ ENTRY_TRADES }
    ensures { result.dollars ≡ effects.nets trades.now }
{
    let mut dollars = [0; 9];
    for number in 0..9u8 {
        dollars[usize::from(number)] = net(trades, number);
    }
    Nets { dollars }
}

/// Moves the units of all trades.
pub(crate) fn apply_all(held: &mut GoodBook, trades: &[Trade])
    requires nine { length held.old ≡ 9 }
    requires small { (party : ℕ) → party ≤ house → IsWithin 400000 (slice_index_or held.old party (pos 0)) }
    requires few { traded trades.now ≤ 400000 }
    ensures { held.new ≡ held_after held.old trades.now }
{
    for trade in trades {
        held.apply(trade);
    }
}
