// Writes what one unit more and one unit less of each good would change.
ghost use Rattle.std.specs.Prelude.{IfOk};
ghost use Rattle.tac_commands.specs.Allowed.{IsValued, WritesDue};
ghost use Rattle.tac_commands.specs.Commands as commands;
ghost use Rattle.tac_commands.specs.Ends.{Ends, EndsBatch};
ghost use Rattle.tac_io.specs.States.{MaySelect};

use crate::ends::End;
use crate::reading::read_value;
use crate::refusals::Refusal;
use game_text::Account;
use good_worth::{print_worths, worth};
use std::alloc::Global;
use tac_base::Memory;
use tac_io::{Files, Sink, write_all};

/// The text of the worths of an account.
fn worths_text(alloc: Global, account: &Account) -> Result<Vec<u8>, Memory>
    ensures { IfOk result (λ text. IsValued account.now text.items) }
{
    let Ok(worths) = worth(alloc, account) else {
        return Err(Memory);
    };
    match print_worths(alloc, &worths) {
        Ok(text) => Ok(text),
        Err(_) => Err(Memory),
    }
}

/// Writes the worths of an account.
fn write_worths<K: Sink>(alloc: Global, account: &Account, out: &mut K) -> End
    ensures { Ends (WritesDue (IsValued account.now)) (K.state out.old) (K.state out.new) result }
{
    let Ok(text) = worths_text(alloc, account) else {
        return End::Refused(Refusal::Memory);
    };
    match write_all(out, text.as_slice()) {
        Ok(()) => End::Done,
        Err(_) => End::WriteFault,
    }
}

/// Writes the worths of the account in the file of this name.
pub(crate) fn worth_file<F: Files, K: Sink>(
    alloc: Global,
    name: &str,
    files: &mut F,
    out: &mut K,
) -> End
    requires { MaySelect (F.state files.old) name.now }
    ensures { EndsBatch (commands.Worth name.now) (F.state files.old) (F.state files.new) (K.state out.old) (K.state out.new) result }
{
    match read_value::<Account, F>(alloc, files, name) {
        Ok(account) => write_worths(alloc, &account, out),
        Err(refusal) => End::Refused(refusal),
    }
}
