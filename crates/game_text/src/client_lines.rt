ghost use Rattle.std.specs.Prelude.{◌≡◌, ◌∷◌, [], length, IsTrue};
ghost use Rattle.game_text.specs.Accounts as accounts;
ghost use Rattle.game_text.specs.AgentLines as agents;
ghost use Rattle.game_text.specs.ClientLines as clients;
ghost use Rattle.text_forms.specs.Rows as rows;

use crate::numbers::{byte_at, bytes_of, is_due};
use std::alloc::AllocError;
use tac_base::Client;
use text_forms::{
    BadLine, Column, Part, PrintedPart, Reason, TextLines, at_line, print_parts, print_row,
    read_row, repeat,
};

/// Returns the columns of a client's line: agent, client, days, premium and values.
fn client_columns() -> [Column; 8]
    ensures { result ≡ clients.client_columns }
{
    [
        Column::within(0, u32::MAX),
        Column::within(0, u32::MAX),
        Column::within(1, 4),
        Column::within(2, 5),
        Column::within(50, 150),
        Column::within(0, 200),
        Column::within(0, 200),
        Column::within(0, 200),
    ]
}

fn client_from(agent: u8, client: u8, numbers: &[i64]) -> Result<Client, Reason>
    requires count { length numbers.now ≡ 8 }
    requires range { IsTrue (rows.all_in clients.client_columns numbers.now) }
    ensures { result ≡ clients.client_from agent client numbers.now }
{
    let arrive = byte_at(numbers, 2);
    let depart = byte_at(numbers, 3);
    if arrive >= depart {
        return Err(Reason::OutOfRange);
    }
    if !(is_due(numbers, 0, agent) && is_due(numbers, 1, client)) {
        return Err(Reason::NotDue);
    }
    Ok(Client {
        arrive,
        depart,
        premium: byte_at(numbers, 4),
        values: bytes_of(&numbers[5..]),
    })
}

/// Returns the columns of a client's line in an account file, which names no agent.
fn owned_columns() -> [Column; 7]
    ensures { result ≡ accounts.owned_columns }
{
    let mut columns = [Column::within(0, u32::MAX); 7];
    columns.copy_from_slice(&client_columns()[1..]);
    columns
}

/// Returns the client of an account's row: as for agent 0 in a game file.
fn owned_from(client: u8, numbers: &[i64; 7]) -> Result<Client, Reason>
    requires { IsTrue (rows.all_in accounts.owned_columns numbers.now) }
    ensures { result ≡ accounts.owned_from client numbers.now }
{
    let mut with_agent = [0; 8];
    with_agent[1..].copy_from_slice(numbers);
    client_from(0, client, &with_agent)
}

/// Returns the client of an account's line with this number, or the first reason that applies.
#[tactic(auto, unfolding(crate::specs::Accounts::owned_of))]
pub(crate) fn owned_of(client: u8, line: &[u8]) -> Result<Client, Reason>
    ensures { result ≡ accounts.owned_of client line.now }
{
    let numbers = read_row(line, b"client", &owned_columns())?;
    owned_from(client, &numbers)
}

/// Returns the client of a line with this agent and number, or the first reason that applies.
#[tactic(auto, unfolding(crate::specs::ClientLines::client_of))]
fn client_of(agent: u8, client: u8, line: &[u8]) -> Result<Client, Reason>
    ensures { result ≡ clients.client_of agent client line.now }
{
    let numbers = read_row(line, b"client", &client_columns())?;
    client_from(agent, client, &numbers)
}

/// The clients of an agent, each in its own line.
#[derive(Drop)]
struct AgentClients {
    agent: u8,
}

impl Part for AgentClients {
    type Value = Client;

    ghost gives = { λ part client left. agents.client_part part.agent client left };

    fn read<'a>(
        &self,
        client: u8,
        lines: TextLines<'a>,
    ) -> Result<(Client, TextLines<'a>), BadLine> {
        let (line, left) = lines.due()?;
        at_line(&line, client_of(self.agent, client, line.bytes()), left)
    }
}

/// Returns the numbers of a client's line.
pub(crate) fn client_numbers(agent: u8, client: u8, wants: &Client) -> [i64; 8]
    ensures { result ≡ clients.client_numbers agent client wants.now }
{
    [
        i64::from(agent),
        i64::from(client),
        i64::from(wants.arrive),
        i64::from(wants.depart),
        i64::from(wants.premium),
        i64::from(wants.values[0]),
        i64::from(wants.values[1]),
        i64::from(wants.values[2]),
    ]
}

impl PrintedPart for AgentClients {
    type Value = Client;

    ghost lines = { λ part client wants. clients.client_text part.agent client wants ∷ [] };

    fn print(&self, client: u8, wants: &Client, out: &mut Vec<u8>) -> Result<(), AllocError> {
        print_row(out, b"client", &client_numbers(self.agent, client, wants))
    }
}

/// The clients of all agents.
#[derive(Drop)]
pub(crate) struct AllClients;

impl Part for AllClients {
    type Value = [Client; 8];

    ghost gives = { λ _ agent left. agents.agent_part agent left };

    fn read<'a>(
        &self,
        agent: u8,
        lines: TextLines<'a>,
    ) -> Result<([Client; 8], TextLines<'a>), BadLine> {
        let mut clients = [Client::default(); 8];
        let left = repeat(&AgentClients { agent }, &mut clients, lines)?;
        Ok((clients, left))
    }
}

impl PrintedPart for AllClients {
    type Value = [Client; 8];

    ghost lines = { λ _ agent wants. agents.client_lines agent wants };

    fn print(&self, agent: u8, wants: &[Client; 8], out: &mut Vec<u8>) -> Result<(), AllocError> {
        print_parts(&AgentClients { agent }, wants, out)
    }
}
