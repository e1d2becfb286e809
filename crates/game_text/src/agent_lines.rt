ghost use Rattle.std.specs.Prelude.{◌≡◌, ◌≢◌, ◌+◌, ◌≤◌, ◌∷◌, ◌++◌, All, length};
ghost use Rattle.std.specs.Fmt.{signed_decimal};
ghost use Rattle.game_text.specs.{row_text, IsClient, IsEndowment, endow_text, client_text, lines_of_agent, agent_line};

use crate::Game;
use crate::client_lines::client_numbers;
use crate::endowments::endow_numbers;
use tac_base::limits::REPLY_TEXT;
use tac_base::{Agent, Client, Text, print_signed};

/// Appends a number after a space.
fn print_number(number: i64, out: &mut Text)
    requires { length out.old + 21 ≤ REPLY_TEXT }
    ensures { out.new ≡ out.old ++ 32 ∷ signed_decimal number }
{
    out.push(b' ');
    print_signed(number, out);
}

/// Appends a line of a keyword and numbers without a line end; 20 more bytes must be free.
fn print_line(keyword: &[u8], numbers: &[i64], out: &mut Text)
    requires { length out.old + length (row_text keyword.now numbers.now) + 20 ≤ REPLY_TEXT }
    ensures { out.new ≡ out.old ++ row_text keyword.now numbers.now }
{
    out.push_bytes(keyword);
    for number in numbers {
        print_number(*number, out);
    }
}

/// Appends the line of an agent's endowment.
fn print_endowment(agent: u8, endow: &[u8; 12], out: &mut Text)
    requires range { IsEndowment endow.now }
    requires room { length out.old + 256 ≤ REPLY_TEXT }
    ensures text { out.new ≡ out.old ++ endow_text agent endow.now }
    ensures len { length (endow_text agent endow.now) ≤ 256 }
    ensures one_line { All (λ byte. byte ≢ 10) (endow_text agent endow.now) }
{
    print_line(b"endow", &endow_numbers(agent, endow), out);
}

/// Appends the line of a client of an agent.
fn print_client(agent: u8, number: u8, wants: &Client, out: &mut Text)
    requires range { IsClient wants.now }
    requires room { length out.old + 256 ≤ REPLY_TEXT }
    ensures text { out.new ≡ out.old ++ client_text agent number wants.now }
    ensures len { length (client_text agent number wants.now) ≤ 256 }
    ensures one_line { All (λ byte. byte ≢ 10) (client_text agent number wants.now) }
{
    print_line(b"client", &client_numbers(agent, number, wants), out);
}

/// Appends a line of an agent, as in the game file, without its line end; at least 256 bytes must be free. Line 0 has its endowment,
/// and lines 1..8 its clients 0..7. It allocates no memory.
pub fn print_agent_line(game: &Game, agent: Agent, n: u8, out: &mut Text)
    requires number { n ≤ 8 }
    requires room { length out.old + 256 ≤ REPLY_TEXT }
    ensures text { out.new ≡ out.old ++ agent_line game.now agent n }
    ensures len { length (agent_line game.now agent n) ≤ 256 }
    ensures one_line { All (λ byte. byte ≢ 10) (agent_line game.now agent n) }
    // So lines 0..8 are all of the agent's lines.
    ensures count { length (lines_of_agent game.now agent) ≡ 9 }
{
    let who = agent.get();
    if n == 0 {
        print_endowment(who, &game.endow[who as usize], out);
    } else {
        let client = n - 1;
        print_client(
            who,
            client,
            &game.clients[who as usize][client as usize],
            out,
        );
    }
}
