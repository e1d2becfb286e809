//! What trades result in: holdings of one good, and the cash of all parties. A turn lock keeps the cash book as its state.
#![tactic(auto)]

mod cash_book;
mod cash_calls;
mod good_book;

pub use cash_book::{CashBook, add_nets};
pub use cash_calls::{CashCall, CashEntry, CashReply};
pub use good_book::GoodBook;
