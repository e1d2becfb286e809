// Accounts that differ from a given one in the holding of one good.
ghost use Rattle.std.specs.Prelude.{◌≡◌, ◌<◌};
ghost use Rattle.game_text.specs.Accounts.{IsHolding};
ghost use Rattle.good_worth.specs.Worth as worth;

use game_text::Account;
use tac_base::limits::{GOODS, HOLDING};

/// The account with a different holding of a good, 0..27.
#[tactic(auto, using(crate::proofs::Ranges::changed_is))]
fn with_holding(account: &Account, good: usize, held: i32) -> Account
    requires good { good < GOODS }
    requires held { IsHolding held }
    ensures { result ≡ worth.with_holding account.now good held }
{
    let mut other = *account;
    other.holdings[good] = held;
    other
}

/// The number of units of a good, 0..27, that an account holds.
fn held(account: &Account, good: usize) -> i32
    requires { good < GOODS }
    ensures value { result ≡ worth.held account.now good }
    ensures range { IsHolding result }
{
    account.holdings[good]
}

/// Adds one unit, unless the account then would hold more than it may.
fn one_more(held: i32) -> i32
    requires { IsHolding held }
    ensures value { result ≡ worth.one_more held }
    ensures range { IsHolding result }
{
    (held + 1).min(HOLDING)
}

/// Takes one unit away, unless the account then would be short of more than it may.
fn one_less(held: i32) -> i32
    requires { IsHolding held }
    ensures value { result ≡ worth.one_less held }
    ensures range { IsHolding result }
{
    (held - 1).max(-HOLDING)
}

/// The account with one unit more of a good, 0..27.
pub(crate) fn more(account: &Account, good: usize) -> Account
    requires { good < GOODS }
    ensures { result ≡ worth.more account.now good }
{
    with_holding(account, good, one_more(held(account, good)))
}

/// The account with one unit less of a good, 0..27.
pub(crate) fn less(account: &Account, good: usize) -> Account
    requires { good < GOODS }
    ensures { result ≡ worth.less account.now good }
{
    with_holding(account, good, one_less(held(account, good)))
}
