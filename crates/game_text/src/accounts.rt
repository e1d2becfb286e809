ghost use Rattle.std.specs.Prelude.{◌≡◌, ◌≤◌, ◌<◌, ◌↔◌, length, IfOk, Ok, IsTrue, replicate};
ghost use Rattle.std.specs.List.{list_all};
ghost use Rattle.game_text.specs.Accounts as accounts;
ghost use Rattle.text_forms.specs.Rows as rows;
ghost use Rattle.text_forms.specs.Steps as steps;

use crate::GameFault;
use crate::client_lines::owned_of;
use crate::headers::{end_at, title_of};
use std::marker::Model;
use tac_base::Client;
use tac_base::limits::{GOODS, HOLDING, TEXT_BYTES};
use text_forms::{BadLine, Column, Digits, Part, Reason, TextLines, at_line, read_row, repeat};

/// An agent's clients and its holdings of the goods. This project defines the ranges.
#[derive(Clone, Copy, Debug, PartialEq, Eq)]
pub struct Account {
    /// The clients 0..7.
    pub clients: [Client; 8],
    /// How many units of each good 0..27 the agent holds, -200000..200000; below 0 it is short of the good.
    pub holdings: [i32; 28],
}

impl Model for Account {
    ghost use Rattle.game_text.specs.Accounts.{AccountFile, IsAccount};

    ghost Value = { AccountFile };

    ghost view = { λ a. record { clients = a.clients; holdings = a.holdings } };

    ghost invariant = { λ a. IsAccount (record { clients = a.clients; holdings = a.holdings }) };

    ghost inverse = { λ a. record { clients = a.clients; holdings = a.holdings } };
}

/// Returns the columns of the line of the holdings.
fn hold_columns() -> [Column; 28]
    ensures { result ≡ replicate GOODS accounts.hold_column }
{
    [Column {
        signed: true,
        digits: Digits::Ten,
        low: -i64::from(HOLDING),
        high: i64::from(HOLDING),
    }; 28]
}

/// Returns the holdings, each as a number of 32 bits.
fn holdings_of(numbers: &[i64; 28]) -> [i32; 28]
    requires { IsTrue (list_all (λ n. rows.is_in accounts.hold_column n) numbers.now) }
    ensures { result ≡ numbers.now }
{
    let mut holdings = [0; 28];
    for (good, number) in numbers.iter().enumerate() {
        holdings[good] = *number as i32;
    }
    holdings
}

/// Returns the holdings of a line, or the first reason that applies.
#[tactic(auto, unfolding(crate::specs::Accounts::hold_of))]
fn hold_of(line: &[u8]) -> Result<[i32; 28], Reason>
    ensures { result ≡ accounts.hold_of line.now }
{
    let numbers = read_row(line, b"hold", &hold_columns())?;
    Ok(holdings_of(&numbers))
}

/// Reads the first line.
fn title_at(lines: TextLines<'_>) -> Result<((), TextLines<'_>), BadLine>
    ensures { result ≡ steps.read_by accounts.title_of lines.entry }
{
    let (line, left) = lines.due()?;
    at_line(&line, title_of(line.bytes()), left)
}

/// Reads the line of the holdings.
fn holdings_at(lines: TextLines<'_>) -> Result<([i32; 28], TextLines<'_>), BadLine>
    ensures { result ≡ steps.read_by accounts.hold_of lines.entry }
{
    let (line, left) = lines.due()?;
    at_line(&line, hold_of(line.bytes()), left)
}

/// The clients, each in a line of its own.
#[derive(Drop)]
struct Owned;

impl Part for Owned {
    type Value = Client;

    ghost gives = { λ _ client left. accounts.owned_part client left };

    fn read<'a>(
        &self,
        client: u8,
        lines: TextLines<'a>,
    ) -> Result<(Client, TextLines<'a>), BadLine> {
        let (line, left) = lines.due()?;
        at_line(&line, owned_of(client, line.bytes()), left)
    }
}

/// Reads the account from the lines that are left.
#[tactic(auto, unfolding(crate::specs::Accounts::account_in))]
fn account_in(lines: TextLines<'_>) -> Result<Account, BadLine>
    ensures { result ≡ accounts.account_in lines.entry }
{
    let (_, left) = title_at(lines)?;
    let (holdings, left) = holdings_at(left)?;
    let mut clients = [Client::default(); 8];
    let left = repeat(&Owned, &mut clients, left)?;
    let (_, left) = end_at(left)?;
    left.finish()?;
    Ok(Account { clients, holdings })
}

#[tactic(auto, unfolding(crate::specs::Accounts::account_of))]
fn account_of(text: &[u8]) -> Result<Account, GameFault>
    ensures { result ≡ accounts.account_of text.now }
{
    if text.len() > TEXT_BYTES as usize {
        return Err(GameFault::TooLong);
    }
    Ok(account_in(TextLines::without_comments(text))?)
}

/// Reads an account file. It allocates no memory.
pub fn read_account(text: &[u8]) -> Result<Account, GameFault>
    // The result is the account, or the first bad line with its first reason.
    ensures exact { result ≡ accounts.account_of text.now }
    ensures too_long { (result ≡ Err GameFault.TooLong) ↔ (TEXT_BYTES < length text.now) }
    // The lines that are neither empty nor comments are those of the account, and the account is in its ranges.
    ensures found { IfOk result (λ account. accounts.IsAccountText account text.now × accounts.IsAccount account) }
    // Each text of an account is read as that account.
    ensures only { (account : accounts.AccountFile) → length text.now ≤ TEXT_BYTES → accounts.IsAccountText account text.now → accounts.IsAccount account → result ≡ Ok account }
{
    account_of(text)
}
