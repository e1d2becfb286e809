ghost use Rattle.std.specs.Prelude.{◌≡◌, ◌≤◌, IsTrue, vec_len};
ghost use Rattle.bound_cert.specs.{tree_of, forest_of, left_by, holds, all_hold, is_within, all_left, BoundsAll};
ghost use Rattle.packages.specs.Bounds.{leaf_bound};

use crate::trees::{Cert, CertNode};
use crate::ways::Way;
use game_text::Account;
use packages::{Narrowing, Prices, leaf_bound, value_count};

/// Returns whether the prices bound what a narrowing leaves by a claim in dollars, or some client has no package left.
fn leaf_holds<N: Narrowing>(account: &Account, claim: u32, narrowing: &N, prices: &Prices) -> bool
    ensures { result ≡ is_within (leaf_bound account.now (N.left narrowing.now) prices.now) claim }
{
    match leaf_bound(account, narrowing, prices) {
        None => true,
        Some(bound) => bound <= i64::from(claim),
    }
}

/// Returns whether the part of a certificate after these splits holds.
#[cycle(holding)]
#[tactic(auto, using(crate::proofs::Views::views))]
fn node_holds(account: &Account, claim: u32, way: &Way<'_>, node: &CertNode) -> bool
    ensures { result ≡ holds account.now claim (left_by way.now) (tree_of node.now) }
{
    match node {
        CertNode::Leaf(prices) => leaf_holds(account, claim, way, prices),
        CertNode::Split {
            client,
            feature,
            children,
        } => {
            children.len() == usize::from(value_count(*feature))
                && children_hold(account, claim, way, *client, *feature, children)
        }
    }
}

/// Returns whether the children of a split hold; the first child is for value 0.
#[cycle(holding)]
#[tactic(auto, using(crate::proofs::Views::views))]
fn children_hold(
    account: &Account,
    claim: u32,
    way: &Way<'_>,
    client: u8,
    feature: u8,
    children: &Vec<CertNode>,
) -> bool
    requires { vec_len children.now ≤ 21 }
    ensures { result ≡ all_hold account.now claim (left_by way.now) client feature 0 (forest_of children.now.items) }
{
    for (value, child) in children.iter().enumerate() {
        let turn = Way::Turn {
            client,
            feature,
            value: value as u8,
            before: &*way,
        };
        if !node_holds(account, claim, &turn, child) {
            return false;
        }
    }
    true
}

/// Returns whether the certificate holds for a claim in dollars: each leaf bounds what the splits above it leave.
pub fn check(account: &Account, claim: u32, cert: &Cert) -> bool
    ensures value { result ≡ holds account.now claim all_left (tree_of cert.now.root) }
    // If it holds, no feasible allocation is worth more than the claim.
    ensures bounds { IsTrue result → BoundsAll account.now claim }
{
    // The law needs the account's ranges, which are known once the account is read.
    let _holdings = &account.holdings;
    node_holds(account, claim, &Way::Start, &cert.root)
}
