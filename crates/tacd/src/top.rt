// `tac`, which `main` calls: it runs the command that the words of a command line ask for.
ghost use Rattle.std.specs.Prelude.{◌≡◌, ◌≤◌, [], None, string_len, All, IfSome};
ghost use Rattle.tacd.specs.{NAME_BYTES, ClockFaultExactly, GameRefusedExactly, IsComplete, LinkFaultExactly, ReadFaultExactly, TextRefusedExactly, UnsoundExactly, UsageExactly, WriteFaultExactly, IsCashOfPosts, command_of, bytes_of_words, service_of, Allows, ReportsOne, outside_of, Serves, WritesTrueLog};
ghost use Rattle.tac_commands.specs.Prompt.{IsPromptCommand};
ghost use Rattle.tac_commands.specs.Selected.{Selects};

use crate::answer::{Answer, coded};
use crate::serve_command::serve;
use std::alloc::Global;
use std::rt::Clock;
use std::sync::Wait;
use std::thread::Threads;
use tac_commands::{run_words, service_asked};
use tac_io::{Files, Links, Sink, Ticker};

/// Runs the command of a command line, given by the words after the program's name, over the files,
/// the sink, the links and the ticker of the outside. As far as is known, no file was selected, no
/// port was asked for and no tick was waited for before. Where the names of the selected files are
/// known, each word has at most 1024 bytes.
pub fn tac<R: Threads + Sync + Wait + Clock, F: Files, K: Sink, N: Links, T: Ticker + Send>(
    rt: &R,
    alloc: Global,
    words: &[String],
    files: &mut F,
    out: &mut K,
    links: &mut N,
    ticker: &mut T,
) -> Answer<N::Link>
    requires names { IfSome (F.state files.old).names (λ names. names ≡ []) }
    requires short { IfSome (F.state files.old).names (λ _. All (λ word. string_len word ≤ NAME_BYTES) words.now) }
    requires ports { IfSome (N.state links.old).ports (λ ports. ports ≡ []) }
    requires ticks { IfSome (T.state ticker.old).waited (λ ticks. ticks ≡ []) }
    // The outcome is one that the words and the files allow, and the selected files are those that it implies.
    ensures outcome { ReportsOne (Allows (command_of (bytes_of_words words.now)) (F.state files.old) (F.state files.new)) (K.state out.old) (K.state out.new) result.code }
    // The headline: the log that `serve` wrote if it ends with code 0.
    ensures headline { IfSome (service_of (bytes_of_words words.now)) (λ service. result.code ≡ 0 → WritesTrueLog N.Link.state service
        (outside_of (F.state files.old) (K.state out.old) (N.state links.old) (T.state ticker.old))
        (outside_of (F.state files.new) (K.state out.new) (N.state links.new) (T.state ticker.new)) result.ended.items) }
    // In a game over links, the log shows what was played, and what each link asked and was sent.
    ensures service { IfSome (service_of (bytes_of_words words.now)) (λ service. Serves N.Link.state service
        (outside_of (F.state files.old) (K.state out.old) (N.state links.old) (T.state ticker.old))
        (outside_of (F.state files.new) (K.state out.new) (N.state links.new) (T.state ticker.new)) result) }
    // The cash of each agent in the sheet of that game is the sum of its nets over all posts of its cash history.
    ensures cash { IfSome result.played (λ played. IsCashOfPosts played.closed) }
    ensures others { service_of (bytes_of_words words.now) ≡ None → (links.new ≡ links.old) × (ticker.new ≡ ticker.old) × (result.ended.items ≡ []) × (result.played ≡ None) }
    ensures usage { UsageExactly (command_of (bytes_of_words words.now)) result.code }
    ensures read_fault { ReadFaultExactly (F.state files.old) (F.state files.new) result.code }
    ensures write_fault { WriteFaultExactly (K.state out.old) (K.state out.new) result.code }
    ensures link_fault { LinkFaultExactly (N.state links.old) (N.state links.new) result.code }
    ensures clock_fault { ClockFaultExactly (T.state ticker.old) (T.state ticker.new) result.code }
    ensures game_refused { GameRefusedExactly (command_of (bytes_of_words words.now)) (F.state files.old) (F.state files.new) result.code }
    ensures text_refused { TextRefusedExactly (command_of (bytes_of_words words.now)) (F.state files.old) (F.state files.new) result.code }
    ensures unsound { UnsoundExactly (command_of (bytes_of_words words.now)) (F.state files.old) (F.state files.new) result.code }
    ensures complete { IsComplete (command_of (bytes_of_words words.now))
        (outside_of (F.state files.old) (K.state out.old) (N.state links.old) (T.state ticker.old))
        (outside_of (F.state files.new) (K.state out.new) (N.state links.new) (T.state ticker.new)) result.code }
    // A game that is played line by line has replied to all lines that came before the last read.
    ensures prompt { IsPromptCommand (command_of (bytes_of_words words.now)) (F.state files.old) (F.state files.new) (K.state out.old) (K.state out.new) }
    ensures names { Selects (command_of (bytes_of_words words.now)) (F.state files.old) (F.state files.new) result.code }
{
    match service_asked(words) {
        Some(service) => serve(rt, alloc, service, files, out, links, ticker),
        None => {
            let code = run_words(rt, alloc, words, files, out);
            coded(alloc, code)
        }
    }
}
