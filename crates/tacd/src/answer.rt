// The result of a command.
ghost use Rattle.std.specs.Prelude.{◌≡◌, [], None};
ghost use Rattle.tac_commands.specs.Codes.{code_number};

use auction_core::Closed;
use game_log::LogHead;
use std::alloc::Global;
use tac_commands::Code;

/// A game that was played over links: the head of its log, and its histories.
#[derive(Drop)]
pub struct Played {
    pub head: LogHead,
    pub closed: Closed,
}

/// The result of a command: the exit code of the process, the links that it took, in the order in which they came, and the game that
/// was played over them.
#[derive(Drop)]
pub struct Answer<L> {
    pub code: u8,
    pub ended: Vec<L>,
    pub played: Option<Played>,
}

/// An answer that has only a code.
pub(crate) fn coded<L>(alloc: Global, code: Code) -> Answer<L>
    ensures code { result.code ≡ code_number code }
    ensures ended { result.ended.items ≡ [] }
    ensures played { result.played ≡ None }
{
    Answer {
        code: code.number(),
        ended: Vec::new(alloc),
        played: None,
    }
}
