// How a session reads an agent's lines and prints its replies.
ghost use Rattle.std.specs.Prelude.{◌+◌, ◌≤◌, ◌≡◌, ◌++◌, length};
ghost use Rattle.tac_base.specs.declared.limits.TheConstants.{LINE_BYTES, REPLY_TEXT};
ghost use Rattle.line_protocol.specs.Replies.{IsOneLine};
ghost use Rattle.agent_gate.specs.Dialects as dialects;

use line_protocol::{Request, RequestFault, Said, print_reply, read_request};
use tac_base::Text;

/// The form of an agent's lines. The contracts of sessions hold for every form.
pub trait Dialect {
    /// What a line may be read as, and the line of each reply, without its line end.
    ghost form: { Self → dialects.Dialect };

    /// Reads what a line requests.
    fn read(&self, line: &[u8]) -> Result<Request, RequestFault>
        ensures { (form self.now).may_answer line.now result };

    /// Appends the line of a reply, at most 512 bytes, without its line end.
    fn print(&self, said: &Said, out: &mut Text)
        requires { length out.old + LINE_BYTES ≤ REPLY_TEXT }
        ensures text { out.new ≡ out.old ++ (form self.now).text said.now }
        ensures len { length ((form self.now).text said.now) ≤ LINE_BYTES }
        ensures one_line { IsOneLine ((form self.now).text said.now) };
}

/// The dialect of words, which `line_protocol` reads and prints.
#[derive(Clone, Copy, Debug)]
pub struct LineDialect;

impl Dialect for LineDialect {
    ghost use Rattle.std.specs.Prelude.{◌≡◌};
    ghost use Rattle.line_protocol.specs.Requests.{request_of};
    ghost use Rattle.line_protocol.specs.Replies.{said_text};

    ghost form = { λ _. record { may_answer = λ line answer. answer ≡ request_of line; text = said_text } };

    fn read(&self, line: &[u8]) -> Result<Request, RequestFault> {
        read_request(line)
    }

    fn print(&self, said: &Said, out: &mut Text) {
        print_reply(said, out);
    }
}
