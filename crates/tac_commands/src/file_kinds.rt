// The kinds of files that commands read.
ghost use Rattle.std.specs.Prelude.{◌≡◌};
ghost use Rattle.tac_commands.specs.FileKinds as kinds;

use crate::refusals::Refusal;
use game_text::GameFault;
use tac_base::limits::{GAME_BYTES, LINK_BYTES, TEXT_BYTES};

/// The contents of a file that a command reads.
#[derive(Clone, Copy, Debug, PartialEq, Eq)]
pub enum FileKind {
    /// A game.
    Game,
    /// A script for one hotel.
    HotelScript,
    /// A script for a whole game.
    GameScript,
    /// An account.
    Account,
    /// The log of a game.
    Log,
    /// The bytes that a link asked, or those that it was sent: any bytes.
    Bytes,
}

impl FileKind {
    /// The most bytes that such a file may have.
    pub(crate) fn most_bytes(&self) -> usize
        ensures { result ≡ kinds.most_bytes self.now }
    {
        match self {
            FileKind::Game => GAME_BYTES as usize,
            FileKind::HotelScript | FileKind::GameScript | FileKind::Account | FileKind::Log =>
                TEXT_BYTES as usize,
            FileKind::Bytes => LINK_BYTES as usize,
        }
    }

    /// The refusal that is written if such a file has this fault.
    pub(crate) fn refusal(&self, fault: GameFault) -> Refusal
        ensures { result ≡ kinds.refusal_of self.now fault }
    {
        match (self, fault) {
            (FileKind::Game, GameFault::Line { line, reason }) => Refusal::GameLine {
                line,
                reason,
            },
            (FileKind::Game, GameFault::TooLong) => Refusal::GameTooLong,
            (_, GameFault::Line { line, reason }) => Refusal::TextLine { line, reason },
            (_, GameFault::TooLong) => Refusal::TextTooLong,
        }
    }
}
