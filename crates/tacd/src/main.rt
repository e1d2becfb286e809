//! The program `tac`: its commands over the files, the output, the links and the clock of the system.
#![tactic(auto)]

mod answer;
#[cfg(test)]
mod audit_tests;
#[cfg(test)]
mod command_tests;
#[cfg(test)]
mod failure_tests;
mod host_files;
mod laws;
#[cfg(test)]
mod play_tests;
mod serve_command;
#[cfg(test)]
mod serve_tests;
mod sleep_ticker;
mod std_sink;
#[cfg(test)]
mod system_tests;
mod tcp_links;
#[cfg(test)]
mod tests;
mod top;
#[cfg(test)]
mod vouch_tests;

ghost use Rattle.std.specs.Prelude.{◌≡◌};
ghost use Rattle.std.specs.Process.{exit_status};
ghost use Rattle.tac_commands.specs.Ends.{Finishes};
ghost use Rattle.tac_commands.specs.declared.ends.End.TheVariants as ends;

use answer::Answer;
use host_files::HostFiles;
use sleep_ticker::SleepTicker;
use std::env::Env;
use std::io::ErrorKind;
use std::process::ExitCode;
use std::{env, io};
use std_sink::StdSink;
use tac_commands::{End, Refusal, finish};
use tac_io::Sink;
use tcp_links::TcpLinks;
use top::tac;

/// Returns the words of the command line after the program's name. A word that is not UTF-8 is in no command.
fn command_line<R: Env + AllocGlobal>(rt: &R) -> Result<Vec<String>, Refusal> {
    match collected(rt) {
        Ok(words) => Ok(words),
        Err(error) if error.kind() == ErrorKind::OutOfMemory => Err(Refusal::Memory),
        Err(_) => Err(Refusal::Usage),
    }
}

fn collected<R: Env + AllocGlobal>(rt: &R) -> io::Result<Vec<String>> {
    let mut words = Vec::new(rt.alloc());
    for word in env::args(rt)?.skip(1) {
        words.push(word)?;
    }
    Ok(words)
}

/// The exit status of a process that ran a command: the code of its answer.
fn status<L>(answer: &Answer<L>) -> ExitCode
    ensures { exit_status result ≡ answer.now.code }
{
    ExitCode::from(answer.code)
}

/// The exit status of a process whose words could not be read: the code of what is written in their place.
fn refused_status<K: Sink>(out: &mut K, refusal: Refusal) -> ExitCode
    ensures { Finishes (ends.Refused refusal) (K.state out.old) (K.state out.new) (exit_status result) }
{
    let code = finish(out, End::Refused(refusal));
    ExitCode::from(code.number())
}

fn main(rt: HostRuntime) -> ExitCode {
    let mut out = StdSink::new(io::writer(&rt));
    let words = match command_line(&rt) {
        Ok(words) => words,
        Err(refusal) => return refused_status(&mut out, refusal),
    };
    let mut files = HostFiles::new(&rt);
    let mut links = TcpLinks::new(&rt);
    let mut ticker = SleepTicker::new();
    let answer = tac(
        &rt,
        rt.alloc(),
        &words,
        &mut files,
        &mut out,
        &mut links,
        &mut ticker,
    );
    status(&answer)
}
