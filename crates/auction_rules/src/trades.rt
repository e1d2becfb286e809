ghost use Rattle.std.specs.Prelude.{◌≡◌, ◌*◌, ◌≤◌, length};
ghost use Rattle.tac_base.specs.declared.limits.TheConstants.{ENTRY_TRADES};
ghost use Rattle.auction_rules.specs.Effects as effects;

use tac_base::Trade;

/// Returns how many units the agent with this number, 0..7, buys in at most 128 trades.
pub fn bought(trades: &[Trade], number: u8) -> u32
    requires { length trades.now ≤ ENTRY_TRADES }
    ensures { result ≡ effects.bought trades.now number }
{
    trades
        .iter()
        .filter(|trade| trade.buyer.get() == number)
        .map(|trade| u32::from(trade.units))
        .sum()
}

/// Returns how many units the agent with this number, 0..7, sells in at most 128 trades.
pub fn sold(trades: &[Trade], number: u8) -> u32
    requires { length trades.now ≤ ENTRY_TRADES }
    ensures { result ≡ effects.sold trades.now number }
{
    trades
        .iter()
        .filter(|trade| trade.seller.get() == number)
        .map(|trade| u32::from(trade.units))
        .sum()
}
