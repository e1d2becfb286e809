// The game over links that the words of a command line request.
ghost use Rattle.std.specs.Prelude.{◌≡◌, ◌≤◌, [], ◌∷◌, length, string_len, All, IfSome};
ghost use Rattle.tac_commands.specs.{seen_service, service_of, IsRequested};
ghost use Rattle.tac_commands.specs.Prelude.{NAME_BYTES, numeral};
ghost use Rattle.tac_commands.specs.Services.{bytes_of_words};
ghost use Rattle.tac_commands.specs.Services as services;

use tac_base::limits::{PACE, PORT};
use tac_base::read_numeral;

/// The wire format of a served game.
#[derive(Clone, Copy, Debug, PartialEq, Eq)]
pub enum Form {
    /// Request lines and reply lines of words.
    Lines,
    /// Request lines and reply lines that are JSON objects.
    Json,
}

/// A game over links: the name of its file, the port, 1 to 65535, the pace in milliseconds per tick, 1 to 60000, and the form of lines.
#[derive(Clone, Copy)]
pub struct Service<'a> {
    pub game: &'a str,
    pub port: u16,
    pub pace: u16,
    pub form: Form,
}

/// Returns the number of a word, if it is at least 1 and at most a limit.
fn number_of(word: &str, most: u16) -> Option<u16>
    ensures { result ≡ services.positive_to most (numeral 10 word.now) }
{
    match read_numeral(word.as_bytes(), 10) {
        Some(number) if 1 <= number && number <= u64::from(most) => Some(number as u16),
        _ => None,
    }
}

/// Returns the service of a game, if it has a port and a pace, in a form of lines.
fn service_with<'a>(
    game: &'a str,
    port: Option<u16>,
    pace: Option<u16>,
    form: Form,
) -> Option<Service<'a>>
    ensures service { IsRequested (services.service_with game.now port pace form) seen_service result }
    ensures short { length game.now ≤ NAME_BYTES → IfSome result (λ service. length service.game.now ≤ NAME_BYTES) }
{
    let Some(port) = port else {
        return None;
    };
    let Some(pace) = pace else {
        return None;
    };
    Some(Service {
        game,
        port,
        pace,
        form,
    })
}

/// Returns the service of a word and three more, in lines of words.
fn service_in_lines<'a>(word: &str, game: &'a str, port: &str, pace: &str) -> Option<Service<'a>>
    ensures service { IsRequested (service_of (word.now ∷ game.now ∷ port.now ∷ pace.now ∷ [])) seen_service result }
    ensures short { length game.now ≤ NAME_BYTES → IfSome result (λ service. length service.game.now ≤ NAME_BYTES) }
{
    if word == "serve" {
        service_with(
            game,
            number_of(port, PORT),
            number_of(pace, PACE),
            Form::Lines,
        )
    } else {
        None
    }
}

/// Returns the service of a word and four more, in JSON.
fn service_in_json<'a>(
    word: &str,
    game: &'a str,
    port: &str,
    pace: &str,
    form: &str,
) -> Option<Service<'a>>
    ensures service { IsRequested (service_of (word.now ∷ game.now ∷ port.now ∷ pace.now ∷ form.now ∷ [])) seen_service result }
    ensures short { length game.now ≤ NAME_BYTES → IfSome result (λ service. length service.game.now ≤ NAME_BYTES) }
{
    if word == "serve" && form == "json" {
        service_with(
            game,
            number_of(port, PORT),
            number_of(pace, PACE),
            Form::Json,
        )
    } else {
        None
    }
}

/// Returns the service that the words request, if they request one.
pub fn service_asked(words: &[String]) -> Option<Service<'_>>
    ensures service { IsRequested (service_of (bytes_of_words words.now)) seen_service result }
    ensures short { All (λ word. string_len word ≤ NAME_BYTES) words.now → IfSome result (λ service. length service.game.now ≤ NAME_BYTES) }
{
    match words {
        [word, game, port, pace] => service_in_lines(
            word.as_str(),
            game.as_str(),
            port.as_str(),
            pace.as_str(),
        ),
        [word, game, port, pace, form] => service_in_json(
            word.as_str(),
            game.as_str(),
            port.as_str(),
            pace.as_str(),
            form.as_str(),
        ),
        _ => None,
    }
}
