// Compares replies with the lines that arrived.
ghost use Rattle.std.specs.Prelude.{◌≡◌, ◌≤◌, ◌↔◌, IsTrue, length, take};
ghost use Rattle.std.specs.Str.{bytes_eq};
ghost use Rattle.tac_base.specs.declared.limits.TheConstants.{SESSION_LINES as MOST_LINES};
ghost use Rattle.link_audit.specs.Ahead.{FitsReply};
ghost use Rattle.link_audit.specs.Vouchings.{memory_replies};
ghost use Rattle.link_audit.specs.Walks.{replies_at};

use crate::lines::line_end;
use agent_gate::Dialect;
use line_protocol::{RequestFault, Said};
use tac_base::Text;
use tac_base::limits::SESSION_LINES;

/// Whether the line of a reply is this one, if the reply arrived.
pub(crate) fn fits<D: Dialect>(dialect: &D, said: &Said, heard: bool, reply: &[u8]) -> bool
    ensures { IsTrue result ↔ FitsReply (D.form dialect.now) heard reply.now said.now }
{
    if !heard {
        return true;
    }
    let mut text = Text::new();
    dialect.print(said, &mut text);
    text.as_slice() == reply
}

/// Whether two lines have the same bytes.
fn same_line(a: &[u8], b: &[u8]) -> bool
    ensures { result ≡ bytes_eq a.now b.now }
{
    a == b
}

/// How many of the first 65,536 lines from a place on are the reply to a line for which the server had no memory.
pub(crate) fn count_memory<D: Dialect>(dialect: &D, said: &[u8], told: usize) -> u32
    requires { told ≤ length said.now }
    ensures { result ≡ memory_replies (D.form dialect.now).text (take MOST_LINES (replies_at said.now told)) }
{
    let mut text = Text::new();
    dialect.print(&Said::Fault(RequestFault::Memory), &mut text);
    let mut place = told;
    let mut count = 0;
    for _line in 0..SESSION_LINES {
        let Some(end) = line_end(said, place) else {
            return count;
        };
        if same_line(text.as_slice(), &said[place..end]) {
            count += 1;
        }
        place = end + 1;
    }
    count
}
