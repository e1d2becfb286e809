// Prints the line of a reply.
ghost use Rattle.std.specs.Prelude.{◌≡◌};
ghost use Rattle.script_run.specs.Replies as replies;

use line_protocol::{Said, print_reply};
use tac_base::{Reply, Text};

// The line of the reply to the call at a position.
pub(crate) fn reply_line(position: u32, reply: Reply) -> Text
    ensures { result ≡ replies.positioned_reply_line position reply }
{
    let mut out = Text::new();
    print_reply(&Said::At(position, reply), &mut out);
    out.push(b'\n');
    out
}
