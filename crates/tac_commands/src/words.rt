// The words of a command that needs no links.
ghost use Rattle.std.specs.Prelude.{◌≡◌, ◌+◌, ◌≤◌, ◌^◌, length, string_len, All, IfSome};
ghost use Rattle.tac_commands.specs.Prelude.{MADE_REQUESTS, NAME_BYTES, below, numeral};
ghost use Rattle.tac_commands.specs.Commands as commands;
ghost use Rattle.tac_commands.specs.{batch_of, seen_batch, IsRequested, IsShortBatch, IsWithinBatch};
ghost use Rattle.tac_commands.specs.Services.{bytes_of_words};

use crate::services::Form;
use tac_base::limits::{FILE_NAMES, MADE_REQUESTS};
use tac_base::read_numeral;

/// A command that needs no links, with its words: the names of its files, or numbers.
#[derive(Clone, Copy)]
pub(crate) enum BatchCommand<'a> {
    /// One hotel, run by a script.
    Hotel {
        script: &'a str,
    },
    /// The canonical text of a game.
    Show {
        game: &'a str,
    },
    /// The canonical text of the same game in version 2.
    Upgrade {
        game: &'a str,
    },
    /// The game made from a seed.
    Make {
        seed: u64,
    },
    /// A best allocation of an account.
    Solve {
        account: &'a str,
    },
    /// What one unit more and one unit less of each good would change for an account.
    Worth {
        account: &'a str,
    },
    /// A game, played by a script.
    Play {
        game: &'a str,
        script: &'a str,
    },
    /// A game, played line by line while a script is read.
    Step {
        game: &'a str,
        script: &'a str,
    },
    /// The made game, played by the made script of this many requests, 0 to 50,000.
    Trial {
        seed: u64,
        count: u32,
    },
    /// The log of a game, judged by the game.
    Audit {
        game: &'a str,
        log: &'a str,
    },
    /// The log of a game, judged by the game, and then by what a link asked and what it was sent, in a form of lines.
    Vouch {
        game: &'a str,
        log: &'a str,
        asked: &'a str,
        said: &'a str,
        form: Form,
    },
    /// The standings over several games: for each of 1 to 64 games the name of its file and that of its log.
    Table {
        names: &'a [String],
    },
}

/// Returns the command of a word and one more.
fn batch_with<'a>(word: &str, argument: &'a str) -> Option<BatchCommand<'a>>
    ensures command { IsRequested (commands.batch_with word.now argument.now) seen_batch result }
    ensures within { IfSome result IsWithinBatch }
    ensures short { length argument.now ≤ NAME_BYTES → IfSome result IsShortBatch }
{
    if word == "hotel" {
        Some(BatchCommand::Hotel { script: argument })
    } else if word == "show" {
        Some(BatchCommand::Show { game: argument })
    } else if word == "upgrade" {
        Some(BatchCommand::Upgrade { game: argument })
    } else if word == "solve" {
        Some(BatchCommand::Solve { account: argument })
    } else if word == "worth" {
        Some(BatchCommand::Worth { account: argument })
    } else if word == "make" {
        read_numeral(argument.as_bytes(), 20).map(|seed| BatchCommand::Make { seed })
    } else {
        None
    }
}

/// Returns the seed of a word.
fn seed_of(word: &str) -> Option<u64>
    ensures { result ≡ below (2 ^ 64) (numeral 20 word.now) }
{
    read_numeral(word.as_bytes(), 20)
}

/// Returns the count of a word.
fn count_of(word: &str) -> Option<u32>
    ensures value { result ≡ below (MADE_REQUESTS + 1) (numeral 5 word.now) }
    ensures few { IfSome result (λ count. count ≤ MADE_REQUESTS) }
{
    match read_numeral(word.as_bytes(), 5) {
        Some(count) if count <= u64::from(MADE_REQUESTS) => Some(count as u32),
        _ => None,
    }
}

/// Returns the trial of a seed and a count.
fn trial_of<'a>(seed: Option<u64>, count: Option<u32>) -> Option<BatchCommand<'a>>
    requires { IfSome count (λ count. count ≤ MADE_REQUESTS) }
    ensures command { IsRequested (commands.trial_of seed count) seen_batch result }
    ensures within { IfSome result IsWithinBatch }
    ensures short { IfSome result IsShortBatch }
{
    let Some(seed) = seed else {
        return None;
    };
    let Some(count) = count else {
        return None;
    };
    Some(BatchCommand::Trial { seed, count })
}

/// Returns the command of a word and two more.
fn batch_with_two<'a>(word: &str, first: &'a str, second: &'a str) -> Option<BatchCommand<'a>>
    ensures command { IsRequested (commands.batch_with_two word.now first.now second.now) seen_batch result }
    ensures within { IfSome result IsWithinBatch }
    ensures short { (length first.now ≤ NAME_BYTES) × (length second.now ≤ NAME_BYTES) → IfSome result IsShortBatch }
{
    if word == "play" {
        Some(BatchCommand::Play {
            game: first,
            script: second,
        })
    } else if word == "step" {
        Some(BatchCommand::Step {
            game: first,
            script: second,
        })
    } else if word == "audit" {
        Some(BatchCommand::Audit {
            game: first,
            log: second,
        })
    } else if word == "trial" {
        trial_of(seed_of(first), count_of(second))
    } else {
        None
    }
}

/// Returns the audit of a log by a link, in a form of lines, if the word requests it.
fn vouch_with<'a>(
    word: &str,
    game: &'a str,
    log: &'a str,
    asked: &'a str,
    said: &'a str,
    form: Form,
) -> Option<BatchCommand<'a>>
    ensures command { IsRequested (commands.vouch_with word.now game.now log.now asked.now said.now form) seen_batch result }
    ensures within { IfSome result IsWithinBatch }
    ensures short { (length game.now ≤ NAME_BYTES) × (length log.now ≤ NAME_BYTES) × (length asked.now ≤ NAME_BYTES) × (length said.now ≤ NAME_BYTES)
        → IfSome result IsShortBatch }
{
    if word == "vouch" {
        Some(BatchCommand::Vouch {
            game,
            log,
            asked,
            said,
            form,
        })
    } else {
        None
    }
}

/// Returns the table of the games and logs of these names, in turn.
fn table_of(names: &[String]) -> Option<BatchCommand<'_>>
    ensures command { IsRequested (commands.table_of (bytes_of_words names.now)) seen_batch result }
    ensures within { IfSome result IsWithinBatch }
    ensures short { All (λ name. string_len name ≤ NAME_BYTES) names.now → IfSome result IsShortBatch }
{
    if 0 < names.len() && names.len() <= FILE_NAMES && names.len() % 2 == 0 {
        Some(BatchCommand::Table { names })
    } else {
        None
    }
}

/// Returns the command of a word and the words after it, by their number.
fn batch_by_count<'a>(word: &str, others: &'a [String]) -> Option<BatchCommand<'a>>
    ensures command { IsRequested (commands.batch_by_count word.now (bytes_of_words others.now)) seen_batch result }
    ensures within { IfSome result IsWithinBatch }
    ensures short { All (λ other. string_len other ≤ NAME_BYTES) others.now → IfSome result IsShortBatch }
{
    match others {
        [argument] => batch_with(word, argument.as_str()),
        [first, second] => batch_with_two(word, first.as_str(), second.as_str()),
        [game, log, asked, said] => vouch_with(
            word,
            game.as_str(),
            log.as_str(),
            asked.as_str(),
            said.as_str(),
            Form::Lines,
        ),
        [game, log, asked, said, form] => {
            if form.as_str() == "json" {
                vouch_with(
                    word,
                    game.as_str(),
                    log.as_str(),
                    asked.as_str(),
                    said.as_str(),
                    Form::Json,
                )
            } else {
                None
            }
        }
        _ => None,
    }
}

/// Returns the command that the words request, if they request one that needs no links.
pub(crate) fn batch_asked(words: &[String]) -> Option<BatchCommand<'_>>
    ensures command { IsRequested (batch_of (bytes_of_words words.now)) seen_batch result }
    ensures within { IfSome result IsWithinBatch }
    ensures short { All (λ word. string_len word ≤ NAME_BYTES) words.now → IfSome result IsShortBatch }
{
    let [word, others @ ..] = words else {
        return None;
    };
    if word.as_str() == "table" {
        table_of(others)
    } else {
        batch_by_count(word.as_str(), others)
    }
}
