// Runs the words of a command that needs no links.
ghost use Rattle.std.specs.Prelude.{◌≡◌, ◌≤◌, [], string_len, None, All, IfSome};
ghost use Rattle.tac_base.specs.declared.limits.TheConstants.{NAME_BYTES};
ghost use Rattle.tac_commands.specs.{bytes_of_words, Allows, code_number, batch_of, service_or_batch, IsPromptCommand, ReportsOne};

use crate::batch::run_batch;
use crate::code::Code;
use crate::ends::{End, finish};
use crate::refusals::Refusal;
use crate::words::batch_asked;
use std::alloc::Global;
use std::thread::Threads;
use tac_io::{Files, Sink};

/// Runs the command of these words, one that needs no links, and returns its exit code. If the words are not such a command, it writes the usage.
pub fn run_words<R: Threads + Sync, F: Files, K: Sink>(
    rt: &R,
    alloc: Global,
    words: &[String],
    files: &mut F,
    out: &mut K,
) -> Code
    requires names { IfSome (F.state files.old).names (λ names. names ≡ []) }
    requires short { IfSome (F.state files.old).names (λ _. All (λ word. string_len word ≤ NAME_BYTES) words.now) }
    ensures outcome { ReportsOne (Allows (service_or_batch None (batch_of (bytes_of_words words.now))) (F.state files.old) (F.state files.new))
        (K.state out.old) (K.state out.new) (code_number result) }
    ensures prompt { IsPromptCommand (service_or_batch None (batch_of (bytes_of_words words.now))) (F.state files.old) (F.state files.new) (K.state out.old) (K.state out.new) }
{
    match batch_asked(words) {
        Some(command) => {
            let end = run_batch(rt, alloc, command, files, out);
            finish(out, end)
        }
        None => finish(out, End::Refused(Refusal::Usage)),
    }
}
