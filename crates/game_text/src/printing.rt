ghost use Rattle.std.specs.Prelude.{◌≡◌, ◌++◌, OnOk, IfOk, Ok};
ghost use Rattle.game_text.specs.Games as games;

use crate::Game;
use crate::client_lines::AllClients;
use crate::closing_orders::order_numbers;
use crate::endowments::Endowments;
use crate::flights::Flights;
use crate::headers::print_header;
use crate::hotel_nights::print_nights;
use crate::seat_words::print_seats;
use std::alloc::{AllocError, Global};
use tac_base::Memory;
use text_forms::{print_parts, print_row};

/// Appends the lines of a game. After an error the text may end within them.
fn print_lines(game: &Game, out: &mut Vec<u8>) -> Result<(), AllocError>
    ensures range { OnOk result (games.IsGame game.now) }
    ensures text { OnOk result (out.new.items ≡ out.old.items ++ games.canonical_text game.now) }
{
    print_header(game.version, out)?;
    print_seats(&game.words, out)?;
    print_parts(&Flights, &game.flights, out)?;
    print_row(out, b"close", &order_numbers(&game.order))?;
    print_nights(game.version, &game.rooms, game.live, out)?;
    print_parts(&Endowments, &game.endow, out)?;
    print_parts(&AllClients, &game.clients, out)?;
    out.extend_from_slice(b"end\n")?;
    Ok(())
}

/// Returns the canonical text of a game, in its version.
pub fn print_game(alloc: Global, game: &Game) -> Result<Vec<u8>, Memory>
    ensures text { IfOk result (λ text. text.items ≡ games.canonical_text game.now) }
    // Reading the printed text gives the same game.
    ensures again { IfOk result (λ text. games.game_of text.items ≡ Ok game.now) }
{
    let mut out = Vec::new(alloc);
    print_lines(game, &mut out)?;
    Ok(out)
}
