//! What each agent has at the end of a game, the goods that it holds and the dollars that it has gained; and its score.
#![tactic(auto)]

mod gains;
mod scores;
mod settling;

pub use scores::{AgentScore, Sheet, short};
pub use settling::{Accounts, settle, settle_auctions};
