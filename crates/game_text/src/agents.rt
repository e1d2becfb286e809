ghost use Rattle.std.specs.Prelude.{◌≡◌};
ghost use Rattle.game_text.specs.AgentLines as agents;

use crate::client_lines::AllClients;
use crate::endowments::Endowments;
use tac_base::Client;
use text_forms::{BadLine, TextLines, repeat};

/// What a game file defines for the agents.
#[derive(Drop)]
pub(crate) struct Agents {
    pub(crate) endow: [[u8; 12]; 8],
    pub(crate) clients: [[Client; 8]; 8],
}

/// Reads the lines of the endowments and of the clients.
#[tactic(auto, unfolding(crate::specs::AgentLines::agents_in))]
pub(crate) fn agents_in(lines: TextLines<'_>) -> Result<(Agents, TextLines<'_>), BadLine>
    ensures { result ≡ agents.agents_in lines.entry }
{
    let mut endow = [[0; 12]; 8];
    let left = repeat(&Endowments, &mut endow, lines)?;
    let mut clients = [[Client::default(); 8]; 8];
    let left = repeat(&AllClients, &mut clients, left)?;
    Ok((Agents { endow, clients }, left))
}
