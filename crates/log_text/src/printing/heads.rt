// Prints the lines of the head of a log.
ghost use Rattle.std.specs.Prelude.{◌≡◌, ◌+◌, ◌≤◌, ◌++◌, length};
ghost use Rattle.log_text.specs.LogText as log;

use crate::printing::lines::push_number;
use line_protocol::{Cause, Verdict};
use tac_base::limits::REPLY_TEXT;
use tac_base::{Agent, Text};

/// Appends the verdict on a link.
fn push_verdict(verdict: Verdict, out: &mut Text)
    requires { length out.old + 27 ≤ REPLY_TEXT }
    ensures value { out.new ≡ out.old ++ log.verdict_text verdict }
    ensures len { length out.new ≤ length out.old + 27 }
{
    match verdict {
        Verdict::Seated(agent) => {
            out.push_bytes(b"seated");
            push_number(u64::from(agent.get()), out);
        }
        Verdict::Syntax => out.push_bytes(b"syntax"),
        Verdict::WrongWord => out.push_bytes(b"wrongword"),
        Verdict::Taken => out.push_bytes(b"taken"),
        Verdict::Lost => out.push_bytes(b"lost"),
    }
}

/// The word of a cause.
fn cause_word(cause: Cause) -> &'static [u8]
    ensures value { result.now ≡ log.cause_text cause }
    ensures len { length result.now ≤ 10 }
{
    match cause {
        Cause::Quit => b"quit",
        Cause::End => b"end",
        Cause::ReadFault => b"readfault",
        Cause::WriteFault => b"writefault",
        Cause::Budget => b"budget",
    }
}

/// The line of a link, by its place in the order of arrival, with its line end.
pub fn link_line(place: u64, verdict: Verdict) -> Text
    ensures { result ≡ log.link_line (place, verdict) }
{
    let mut out = Text::new();
    out.push_bytes(b"link");
    push_number(place, &mut out);
    out.push(b' ');
    push_verdict(verdict, &mut out);
    out.push(b'\n');
    out
}

/// The line of the end of an agent's session, with its line end.
pub fn end_line(end: &(Agent, Cause)) -> Text
    ensures { result ≡ log.end_line end.now }
{
    let (agent, cause) = *end;
    let mut out = Text::new();
    out.push_bytes(b"end");
    push_number(u64::from(agent.get()), &mut out);
    out.push(b' ');
    out.push_bytes(cause_word(cause));
    out.push(b'\n');
    out
}

/// The line of the number of missed ticks, with its line end.
pub fn missed_line(missed: u8) -> Text
    ensures { result ≡ log.missed_line missed }
{
    let mut out = Text::new();
    out.push_bytes(b"missed");
    push_number(u64::from(missed), &mut out);
    out.push(b'\n');
    out
}
