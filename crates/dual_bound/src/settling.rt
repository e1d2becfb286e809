// Prices that no move of a single price by 50 improves.
ghost use Rattle.std.specs.Prelude.{◌≡◌, ℕ, ◌/◌, ◌%◌, ◌<◌, ◌≤◌, true, false, set, length, IfSome, IfNone, All};
ghost use Rattle.dual_bound.specs.{IsLeft, IsPackage, leaf_bound, stock_value, fixed_at, chosen, IsCeiling, IsNarrowedBy, IsRestricted};
ghost use Rattle.packages.specs.Prices.{ArePrices};
ghost use Rattle.dual_bound.specs.Settled as settled;

use crate::choices::Choice;
use crate::quotes::Quote;
use game_text::Account;
use packages::{Narrowing, Package, Prices, allocation_worth, is_enough, leaf_bound};
use relaxation::{Relaxation, WorthTable};
use tac_base::limits::{DUAL_PRICE, GOODS};

/// Returns whether a bound is lower than another, if there are both.
fn is_lower(bound: Option<i64>, other: Option<i64>) -> bool
    ensures { result ≡ settled.is_lower bound other }
{
    match (bound, other) {
        (Some(one), Some(two)) => one < two,
        _ => false,
    }
}

/// Returns the prices with another price for a good, 0..27.
fn with_price(prices: &Prices, good: usize, price: u16) -> Prices
    requires good { good < GOODS }
    requires price { price ≤ DUAL_PRICE }
    ensures value { result ≡ set prices.now good price }
    ensures range { ArePrices result }
{
    let mut other = *prices;
    other.dollars[good] = price;
    other
}

/// Returns the prices with another price for a good, 0..27, if their leaf bound is lower than `bound`.
fn lower_with(
    account: &Account,
    choice: &Choice,
    prices: &Prices,
    bound: Option<i64>,
    good: usize,
    price: u16,
) -> Option<Prices>
    requires good { good < GOODS }
    requires price { price ≤ DUAL_PRICE }
    ensures lower { IfSome result (λ other. settled.is_lower (leaf_bound account.now (chosen choice.now) other) bound ≡ true) }
    ensures none { IfNone result (settled.is_lower (leaf_bound account.now (chosen choice.now) (set prices.now good price)) bound ≡ false) }
{
    let other = with_price(prices, good, price);
    if is_lower(leaf_bound(account, choice, &other), bound) {
        Some(other)
    } else {
        None
    }
}

/// Returns prices with a lower leaf bound, in which this good's price is 50 higher or lower, if there are any.
fn lower_at(
    account: &Account,
    choice: &Choice,
    prices: &Prices,
    bound: Option<i64>,
    good: usize,
) -> Option<Prices>
    requires { good < GOODS }
    ensures lower { IfSome result (λ other. settled.is_lower (leaf_bound account.now (chosen choice.now) other) bound ≡ true) }
    ensures none { IfNone result (settled.IsSettledAt account.now (chosen choice.now) prices.now bound good) }
{
    let price = prices.dollars[good];
    if price <= DUAL_PRICE - 50 {
        if let Some(other) = lower_with(account, choice, prices, bound, good, price + 50) {
            return Some(other);
        }
    }
    if price >= 50 {
        return lower_with(account, choice, prices, bound, good, price - 50);
    }
    None
}

/// Returns prices with a lower leaf bound, in which one good's price is 50 higher or lower, if there are any.
fn lower_prices(
    account: &Account,
    choice: &Choice,
    prices: &Prices,
    bound: Option<i64>,
) -> Option<Prices>
    ensures lower { IfSome result (λ other. settled.is_lower (leaf_bound account.now (chosen choice.now) other) bound ≡ true) }
    ensures none { IfNone result ((good : ℕ) → good < GOODS → settled.IsSettledAt account.now (chosen choice.now) prices.now bound good) }
{
    for good in 0..28 {
        if let Some(other) = lower_at(account, choice, prices, bound, good) {
            return Some(other);
        }
    }
    None
}

/// Moves single prices by 50 as long as this gives a lower leaf bound.
fn settle(account: &Account, choice: &Choice, start: Prices) -> Prices
    ensures range { ArePrices result }
    ensures settled { settled.IsSettled account.now (chosen choice.now) result }
{
    let mut prices = start;
    let mut bound = leaf_bound(account, choice, &prices);
    while let Some(other) = lower_prices(account, choice, &prices, bound) {
        prices = other;
        bound = leaf_bound(account, choice, &prices);
    }
    // The range of the prices is known once they are read.
    let _dollars = &prices.dollars;
    prices
}

/// Returns whether each client's package is left to it.
fn are_left(choice: &Choice, allocation: &[Package; 8]) -> bool
    requires lawful { All IsPackage allocation.now }
    requires eight { length allocation.now ≡ 8 }
    ensures { result ≡ true → IsLeft (chosen choice.now) allocation.now }
{
    for client in 0..8 {
        if !choice.keeps(client, &allocation[client]) {
            return false;
        }
    }
    true
}

/// Returns whether packages that are left reach the bound of a quote's prices, given a table of upper bounds of what is left. If they
/// do, no prices give a lower bound.
fn is_reached(
    account: &Account,
    choice: &Choice,
    left: &WorthTable,
    quote: &Quote,
    allocation: &[Package; 8],
) -> bool
    requires ceiling { IsCeiling account.now (chosen choice.now) left.now.dollars }
    requires stock { quote.now.stock_value ≡ stock_value account.now.holdings quote.now.prices }
    requires lawful { All IsPackage allocation.now }
    requires eight { length allocation.now ≡ 8 }
    ensures { result ≡ true → settled.IsSettled account.now (chosen choice.now) quote.now.prices }
{
    // The law of prices needs the account's ranges, which are known once the account is read.
    let _holdings = &account.holdings;
    are_left(choice, allocation)
        && is_enough(account, allocation)
        && quote.holds(left, allocation_worth(account, allocation))
}

/// Narrows the packages to what a choice leaves, without solving the relaxation.
fn choose(relaxation: &mut Relaxation, choice: &Choice)
    ensures { IsRestricted (chosen choice.now) relaxation.old.worths.dollars relaxation.new.worths.dollars }
{
    for place in 0..32 {
        narrow_at(relaxation, choice, place);
    }
}

/// Narrows the packages to what a choice fixes at a place 0..31; there are four features for each client.
fn narrow_at(relaxation: &mut Relaxation, choice: &Choice, place: u8)
    requires { place < 32 }
    ensures { IsNarrowedBy (fixed_at choice.now (place / 4) (place % 4)) (place / 4) (place % 4) relaxation.old.worths.dollars relaxation.new.worths.dollars }
{
    let (client, feature) = (place / 4, place % 4);
    if let Some(value) = choice.at(client, feature) {
        relaxation.narrow(client, feature, value);
    }
}

/// Finds whole prices with a low leaf bound for what a choice leaves of an account's packages. No move of a single price by
/// 50 lowers the bound. This project defines how it finds them; any prices bound what is left.
pub fn dual_prices(account: &Account, choice: &Choice) -> Prices
    ensures range { ArePrices result }
    ensures settled { settled.IsSettled account.now (chosen choice.now) result }
{
    // The proof needs the account's ranges, which are known once the account is read.
    let _holdings = &account.holdings;
    let mut left = Relaxation::new(account);
    choose(&mut left, choice);
    left.repair(0);
    let quote = settled_from(account, choice, &left, &left.prices());
    // The range of the prices is known once they are read.
    let _dollars = &quote.prices.dollars;
    quote.prices
}

/// Returns a quote of whole prices for what a choice leaves, whose leaf bound no move of a single price by 50 lowers; `None` if the relaxation,
/// which must be that of the choice, is worth more than a total in dollars.
pub fn settled_quote(
    account: &Account,
    choice: &Choice,
    left: &Relaxation,
    total: u32,
) -> Option<Quote>
    requires { IsCeiling account.now (chosen choice.now) left.now.worths.dollars }
    ensures settled { IfSome result (λ quote. settled.IsSettled account.now (chosen choice.now) quote.prices) }
    ensures stock { IfSome result (λ quote. quote.stock_value ≡ stock_value account.now.holdings quote.prices) }
{
    let prices = left.prices_if_worth_no_more(total)?;
    Some(settled_from(account, choice, left, &prices))
}

/// Returns a quote of the prices to start from, if packages that are left reach their bound. Otherwise it moves single prices by 50 until
/// no move lowers the bound. The relaxation must be that of the choice.
fn settled_from(account: &Account, choice: &Choice, left: &Relaxation, start: &Prices) -> Quote
    requires { IsCeiling account.now (chosen choice.now) left.now.worths.dollars }
    ensures settled { settled.IsSettled account.now (chosen choice.now) result.prices }
    ensures stock { result.stock_value ≡ stock_value account.now.holdings result.prices }
{
    let quote = Quote::new(account, start);
    if is_reached(account, choice, &left.worths, &quote, &left.packages()) {
        return quote;
    }
    Quote::new(account, &settle(account, choice, quote.prices))
}
