// Accounts of worked rows.
use game_text::{Account, read_account};
use std::alloc::Global;
use std::test::Fail;

/// Clients that want days 1 to 2, and two of them the ticket for alligator wrestling.
pub(crate) const WRESTLING_FANS: &str = "client 0 1 2 50 100 0 0\nclient 1 1 2 50 150 0 0\n\
    client 2 1 2 50 0 0 0\nclient 3 1 2 50 0 0 0\nclient 4 1 2 50 0 0 0\n\
    client 5 1 2 50 0 0 0\nclient 6 1 2 50 0 0 0\nclient 7 1 2 50 0 0 0\n";

/// One seat in and one ticket, two seats out and two rooms.
pub(crate) const ONE_SEAT: &str = "1 0 0 0 2 0 0 0 2 0 0 0 0 0 0 0 1 0 0 0 0 0 0 0 0 0 0 0";

/// The account of holdings and the lines of its clients.
pub(crate) fn account(alloc: Global, hold: &str, clients: &str) -> Result<Account, Fail> {
    let text = format!(in alloc; "account\nhold {hold}\n{clients}end\n")?;
    Ok(read_account(text.as_bytes())?)
}
