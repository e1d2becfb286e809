//! The lines of agents in JSON, one object per line: it reads requests from objects, and prints replies
//! as objects. This project defines the objects and their texts.
#![tactic(auto)]

mod dialect;
mod printing;
mod reading;

pub use dialect::JsonDialect;
pub use printing::one_json_text;
pub use reading::one_json_request;
