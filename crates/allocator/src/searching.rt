// Searches for the best allocation, and builds a certificate on the way.
ghost use Rattle.std.specs.Prelude.{◌≡◌, ℕ, ◌+◌, ◌-◌, ◌<◌, ◌≤◌, ◌⊎◌, true, length, IfOk, IfSome, IfNone, None, All};
ghost use Rattle.allocator.specs.{CERTIFICATE_DEPTH, BEST_TOTAL, IsPackage, leaf_bound, stock_value, total_of, used_by, ArePrices, stock_of, is_tree, tree_of, fixed_at, IsFull, chosen, fixed_count, IsCeiling, holds, is_within, IsReached};
ghost use Rattle.bound_cert.specs.Trees as trees;

use crate::candidates::{better_choice, first_choice};
use crate::scarcity::scarcity_prices;
use crate::symmetry::{Hint, copied_prices, copied_split, hint_of_part, like_split};
use bound_cert::CertNode;
use dual_bound::{Choice, Quote};
use game_text::Account;
use packages::{Package, Prices, allocation_worth, is_enough, value_count};
use relaxation::{Relaxation, Split, SplitRule};
use std::alloc::{AllocFailed, Global};
use tac_base::limits::GOODS;

/// The most features that one dive decides.
const MOST_DECIDED: u32 = 12;

/// The number of levels on which dives begin.
const DIVE_LEVELS: u8 = 4;

/// The most parts that the first attempt may visit.
const FIRST_PARTS: u64 = 2000;

/// The factor by which the limit of parts grows once both rules have reached it.
const MORE_PARTS: u64 = 4;

/// The state that a search carries along: the best allocation found so far, its worth in dollars, and the parts that the attempt has visited.
#[derive(Clone, Copy)]
pub(crate) struct Found {
    pub(crate) allocation: [Package; 8],
    pub(crate) total: u32,
    pub(crate) parts: u64,
}

/// How a search splits, and the most parts that it may visit.
#[derive(Clone, Copy)]
pub(crate) struct Attempt {
    rule: SplitRule,
    parts: u64,
}

impl Attempt {
    pub(crate) fn first() -> Attempt {
        Attempt {
            rule: SplitRule::LeastLeft,
            parts: FIRST_PARTS,
        }
    }

    /// Returns the attempt after one that reached its limit: the other rule with the same limit, or after both the first rule with a greater limit.
    pub(crate) fn next(self) -> Attempt {
        match self.rule {
            SplitRule::LeastLeft => Attempt {
                rule: SplitRule::GreatestPriority,
                parts: self.parts,
            },
            SplitRule::GreatestPriority => Attempt {
                rule: SplitRule::LeastLeft,
                parts: self.parts.saturating_mul(MORE_PARTS),
            },
        }
    }

    /// Returns the attempt after one that ended with this many parts: the plain rule with three quarters of them, unless this was the plain rule and
    /// the total has not risen since it began. No split has fewer than five parts.
    pub(crate) fn shorter(self, parts: u64, has_risen: bool) -> Option<Attempt> {
        match self.rule {
            SplitRule::GreatestPriority if !has_risen => None,
            _ if parts > 5 => Some(Attempt {
                rule: SplitRule::GreatestPriority,
                parts: parts - parts / 4,
            }),
            _ => None,
        }
    }
}

/// What all parts of a search share: where it allocates memory, whose goods it allocates, and how it splits.
#[derive(Clone, Copy)]
pub(crate) struct Search<'a> {
    pub(crate) alloc: Global,
    pub(crate) account: &'a Account,
    pub(crate) attempt: Attempt,
}

/// Why a search ends without a certificate.
#[derive(Drop)]
pub(crate) enum Stop {
    Memory,
    /// The attempt reached its limit of parts.
    Parts,
}

impl From<AllocFailed<CertNode>> for Stop {
    fn from(_: AllocFailed<CertNode>) -> Self {
        Stop::Memory
    }
}

/// Keeps the allocation if it is feasible and the best so far.
fn offer(account: &Account, chosen: &[Package; 8], best: &mut Found)
    requires eight { length chosen.now ≡ 8 }
    requires lawful { All IsPackage chosen.now }
    requires reached { IsReached account.now best.old.allocation best.old.total }
    ensures reached { IsReached account.now best.new.allocation best.new.total }
    ensures grows { best.old.total ≤ best.new.total }

    // The allocation is worth no more than the best, or it uses too much of some good.
    ensures settled { (total_of account.now.clients chosen.now ≤ best.new.total) ⊎ ((good : ℕ) × (good < GOODS) × (stock_of account.now.holdings good < used_by chosen.now good)) }
    ensures few { total_of account.now.clients chosen.now ≤ BEST_TOTAL }
{
    let total = allocation_worth(account, chosen);
    if total > best.total && is_enough(account, chosen) {
        best.allocation = *chosen;
        best.total = total;
    }
}

/// Offers the packages that the relaxation gives whole. If it leaves some out and is worth more than the best, this also offers a greedy
/// improvement of them.
fn offer_packages(account: &Account, relaxation: &Relaxation, best: &mut Found)
    requires reached { IsReached account.now best.old.allocation best.old.total }
    ensures reached { IsReached account.now best.new.allocation best.new.total }
    ensures grows { best.old.total ≤ best.new.total }
{
    offer(account, &relaxation.packages(), best);
    if let Some(whole) = relaxation.packages_if_worth_more(best.total) {
        offer(account, &better_choice(account, relaxation, &whole), best);
    }
}

/// Decides a relaxation feature by feature, while it is worth more than the best and a limited number of times, and offers what it gives.
#[inline(never)]
fn dive(account: &Account, relaxation: &Relaxation, best: &mut Found)
    requires reached { IsReached account.now best.old.allocation best.old.total }
    ensures reached { IsReached account.now best.new.allocation best.new.total }
    ensures grows { best.old.total ≤ best.new.total }
{
    let mut left = *relaxation;
    for _ in 0..MOST_DECIDED {
        if !left.decide(best.total) {
            return;
        }
        offer_packages(account, &left, best);
    }
}

/// Offers the packages of the relaxation, and on the first levels those of a dive.
pub(crate) fn offer_near(level: u8, account: &Account, relaxation: &Relaxation, best: &mut Found)
    requires reached { IsReached account.now best.old.allocation best.old.total }
    ensures reached { IsReached account.now best.new.allocation best.new.total }
    ensures grows { best.old.total ≤ best.new.total }
{
    offer_packages(account, relaxation, best);
    if level < DIVE_LEVELS && relaxation.is_worth_more(best.total) {
        dive(account, relaxation, best);
    }
}

/// Offers the packages that are left when every feature is fixed, and returns prices that then hold for the best total.
fn full_prices(account: &Account, choice: &Choice, best: &mut Found) -> Prices
    requires reached { IsReached account.now best.old.allocation best.old.total }
    requires full { IsFull choice.now }
    ensures reached { IsReached account.now best.new.allocation best.new.total }
    ensures grows { best.old.total ≤ best.new.total }
    ensures range { ArePrices result }
    ensures holds { is_within (leaf_bound account.now (chosen choice.now) result) best.new.total ≡ true }
{
    // The proof uses the account's ranges, which are known once it is read.
    let _holdings = &account.holdings;
    let Some(first) = first_choice(choice) else {
        return Prices { dollars: [0; 28] };
    };
    offer(account, &first, best);
    scarcity_prices(account, &first)
}

/// Returns the certificate that consists of prices alone.
pub(crate) fn leaf(prices: &Prices) -> CertNode
    ensures view { tree_of result ≡ trees.leaf prices.now }
    ensures fits { (depth : ℕ) → is_tree depth (trees.leaf prices.now) ≡ true }
{
    // The ranges of the prices are known once they are read.
    let _dollars = &prices.dollars;
    CertNode::Leaf(*prices)
}

/// Returns the next split: by the feature of a client that is like the one split last, or else by the rule.
fn next_split(
    rule: SplitRule,
    choice: &Choice,
    left: &Relaxation,
    prices: &Prices,
    total: u32,
    hint: Hint<'_>,
) -> Option<Split>
    ensures client { IfSome result (λ split. split.client < 8) }
    ensures feature { IfSome result (λ split. split.feature < 4) }
    ensures free { IfSome result (λ split. fixed_at choice.now split.client split.feature ≡ None) }
    ensures full { IfNone result (IsFull choice.now) }
{
    let like = like_split(choice, hint);
    if like.is_some() {
        return like;
    }
    left.next_split(rule, &choice.fixed, prices, total)
}

/// Searches what a choice leaves, with `level` features fixed. After an error the best is still a feasible allocation.
#[cycle(search)]
#[inline(never)]
pub(crate) fn explore(
    search: &Search<'_>,
    level: u8,
    choice: &Choice,
    left: &Relaxation,
    hint: Hint<'_>,
    best: &mut Found,
) -> Result<CertNode, Stop>
    requires level { level ≡ fixed_count choice.now }
    requires ceiling { IsCeiling search.now.account.now (chosen choice.now) left.now.worths.dollars }
    requires reached { IsReached search.now.account.now best.old.allocation best.old.total }
    ensures reached { IsReached search.now.account.now best.new.allocation best.new.total }
    ensures grows { best.old.total ≤ best.new.total }
    ensures holds { IfOk result (λ node. holds search.now.account.now best.new.total (chosen choice.now) (tree_of node) ≡ true) }
    ensures fits { IfOk result (λ node. is_tree (CERTIFICATE_DEPTH - level) (tree_of node) ≡ true) }
{
    // The proof uses the account's ranges, which are known once it is read.
    let account = search.account;
    let _holdings = &account.holdings;
    let quote = Quote::new(account, &left.prices_for(best.total));
    if quote.holds(&left.worths, best.total) {
        return Ok(leaf(&quote.prices));
    }
    let Some(split) = next_split(
        search.attempt.rule,
        choice,
        left,
        &quote.prices,
        best.total,
        hint,
    ) else {
        return Ok(leaf(&full_prices(account, choice, best)));
    };
    explore_parts(search, level, choice, left, split, &quote, hint, best)
}

/// Sets the quote by which a part is tested first: a hint's prices for the part that this one is like, or else the quote of the split. Parts
/// that are alike mostly have the same prices, and then the last quote serves again.
fn renew(quote: &mut Quote, account: &Account, hint: Hint<'_>, known: &Quote)
    requires last { quote.old.stock_value ≡ stock_value account.now.holdings quote.old.prices }
    requires known { known.now.stock_value ≡ stock_value account.now.holdings known.now.prices }
    ensures { quote.new.stock_value ≡ stock_value account.now.holdings quote.new.prices }
{
    match copied_prices(hint) {
        Some(prices) if *prices == quote.prices => (),
        Some(prices) => *quote = Quote::new(account, prices),
        None => *quote = *known,
    }
}

/// Searches the parts of a split. After an error the best is still a feasible allocation.
#[cycle(search)]
fn explore_parts(
    search: &Search<'_>,
    level: u8,
    choice: &Choice,
    left: &Relaxation,
    split: Split,
    known: &Quote,
    hint: Hint<'_>,
    best: &mut Found,
) -> Result<CertNode, Stop>
    requires level { level ≡ fixed_count choice.now }
    requires ceiling { IsCeiling search.now.account.now (chosen choice.now) left.now.worths.dollars }
    requires stock { known.now.stock_value ≡ stock_value search.now.account.now.holdings known.now.prices }
    requires client { split.client < 8 }
    requires feature { split.feature < 4 }
    requires free { fixed_at choice.now split.client split.feature ≡ None }
    requires reached { IsReached search.now.account.now best.old.allocation best.old.total }
    ensures reached { IsReached search.now.account.now best.new.allocation best.new.total }
    ensures grows { best.old.total ≤ best.new.total }
    ensures holds { IfOk result (λ node. holds search.now.account.now best.new.total (chosen choice.now) (tree_of node) ≡ true) }
    ensures fits { IfOk result (λ node. is_tree (CERTIFICATE_DEPTH - level) (tree_of node) ≡ true) }
{
    // The proof uses the ranges of the account and of the choice, which are known once they are read.
    let account = search.account;
    let _holdings = &account.holdings;
    let _fixed = &choice.fixed;
    let Split { client, feature } = split;
    let mut children = Vec::new(search.alloc);
    let mut quote = *known;
    for value in 0..value_count(feature) {
        let next = choice.with(client, feature, value);
        let mut part = *left;
        part.narrow(client, feature, value);
        let hint = hint_of_part(hint, split, value, &children, &left.worths);
        renew(&mut quote, account, hint, known);
        let child = explore_part(search, level + 1, &next, &mut part, &quote, hint, best)?;
        children.push(child)?;
    }
    Ok(CertNode::Split {
        client,
        feature,
        children,
    })
}

/// Searches a part that is not solved yet: by the split of the part that it is like, if a hint has one, or else if the known prices do not
/// bound it. It stops if the attempt has reached its limit of parts. After an error the best is still a feasible allocation.
#[cycle(search)]
fn explore_part(
    search: &Search<'_>,
    level: u8,
    choice: &Choice,
    part: &mut Relaxation,
    known: &Quote,
    hint: Hint<'_>,
    best: &mut Found,
) -> Result<CertNode, Stop>
    requires level { level ≡ fixed_count choice.now }
    requires ceiling { IsCeiling search.now.account.now (chosen choice.now) part.old.worths.dollars }
    requires stock { known.now.stock_value ≡ stock_value search.now.account.now.holdings known.now.prices }
    requires reached { IsReached search.now.account.now best.old.allocation best.old.total }
    ensures reached { IsReached search.now.account.now best.new.allocation best.new.total }
    ensures grows { best.old.total ≤ best.new.total }
    ensures holds { IfOk result (λ node. holds search.now.account.now best.new.total (chosen choice.now) (tree_of node) ≡ true) }
    ensures fits { IfOk result (λ node. is_tree (CERTIFICATE_DEPTH - level) (tree_of node) ≡ true) }
{
    // The proof uses the account's ranges, which are known once it is read.
    let account = search.account;
    let _holdings = &account.holdings;
    if best.parts >= search.attempt.parts {
        return Err(Stop::Parts);
    }
    best.parts += 1;
    if let Some(split) = copied_split(choice, hint) {
        return explore_parts(search, level, choice, part, split, known, hint, best);
    }
    if known.holds(&part.worths, best.total) {
        return Ok(leaf(&known.prices));
    }
    part.repair(best.total);
    offer_near(level, account, part, best);
    explore(search, level, choice, part, hint, best)
}
