ghost use Rattle.std.specs.Prelude.{◌≡◌, ◌∷◌, [], length, map, pos, IsTrue};
ghost use Rattle.game_text.specs.AgentLines as agents;
ghost use Rattle.game_text.specs.Endowments as endowments;
ghost use Rattle.text_forms.specs.Rows as rows;

use crate::numbers::{bytes_of, is_due};
use std::alloc::AllocError;
use text_forms::{
    BadLine, Column, Part, PrintedPart, Reason, TextLines, at_line, print_row, read_row,
};

/// Returns the columns of an endowment's line: the agent, and how many of each ticket it has.
fn endow_columns() -> [Column; 13]
    ensures { result ≡ endowments.endow_columns }
{
    let mut columns = [Column::within(0, 16); 13];
    columns[0] = Column::within(0, u32::MAX);
    columns
}

fn endow_from(agent: u8, numbers: &[i64]) -> Result<[u8; 12], Reason>
    requires count { length numbers.now ≡ 13 }
    requires range { IsTrue (rows.all_in endowments.endow_columns numbers.now) }
    ensures { result ≡ endowments.endow_from agent numbers.now }
{
    if is_due(numbers, 0, agent) {
        Ok(bytes_of(&numbers[1..]))
    } else {
        Err(Reason::NotDue)
    }
}

/// Returns the endowment of a line with this agent, or the first reason that applies.
#[tactic(auto, unfolding(crate::specs::Endowments::endow_of))]
fn endow_of(agent: u8, line: &[u8]) -> Result<[u8; 12], Reason>
    ensures { result ≡ endowments.endow_of agent line.now }
{
    let numbers = read_row(line, b"endow", &endow_columns())?;
    endow_from(agent, &numbers)
}

/// The endowments, each in its own line.
#[derive(Drop)]
pub(crate) struct Endowments;

impl Part for Endowments {
    type Value = [u8; 12];

    ghost gives = { λ _ agent left. agents.endow_part agent left };

    fn read<'a>(
        &self,
        agent: u8,
        lines: TextLines<'a>,
    ) -> Result<([u8; 12], TextLines<'a>), BadLine> {
        let (line, left) = lines.due()?;
        at_line(&line, endow_of(agent, line.bytes()), left)
    }
}

/// Returns the numbers of an endowment's line.
pub(crate) fn endow_numbers(agent: u8, endow: &[u8; 12]) -> [i64; 13]
    ensures { result ≡ pos agent ∷ map pos endow.now }
{
    let mut numbers = [0; 13];
    numbers[0] = i64::from(agent);
    for (i, tickets) in endow.iter().enumerate() {
        numbers[1 + i] = i64::from(*tickets);
    }
    numbers
}

impl PrintedPart for Endowments {
    type Value = [u8; 12];

    ghost lines = { λ _ agent endow. endowments.endow_text agent endow ∷ [] };

    fn print(&self, agent: u8, endow: &[u8; 12], out: &mut Vec<u8>) -> Result<(), AllocError> {
        print_row(out, b"endow", &endow_numbers(agent, endow))
    }
}
