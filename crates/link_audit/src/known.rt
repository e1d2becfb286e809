// Forms of lines that show what each line requested.
ghost use Rattle.std.specs.Prelude.{◌≡◌, ◌↔◌, IfOk, IsTrue, codes};
ghost use Rattle.link_audit.specs.{AsksOnly, MayBeReadAs};

use agent_gate::{Dialect, LineDialect};
use json_dialect::JsonDialect;
use line_protocol::{Request, RequestFault};
use tac_base::Memory;

/// A form of lines in which a line, with its reply if that arrived, shows what was requested.
pub trait KnownDialect: Dialect {
    /// Returns what a line requested, given its reply if that arrived. `Memory`: the audit lacked memory.
    fn asks(
        &self,
        line: &[u8],
        heard: bool,
        reply: &[u8],
    ) -> Result<Result<Request, RequestFault>, Memory>
        ensures may { IfOk result (λ asked. MayBeReadAs (Self.form self.now).may_answer heard line.now asked) }
        ensures only { IfOk result (AsksOnly (Self.form self.now) heard line.now reply.now) };
}

impl KnownDialect for LineDialect {
    fn asks(
        &self,
        line: &[u8],
        _heard: bool,
        _reply: &[u8],
    ) -> Result<Result<Request, RequestFault>, Memory> {
        match self.read(line) {
            Err(RequestFault::Memory) => Err(Memory),
            asked => Ok(asked),
        }
    }
}

/// Whether this is the reply to a line for which the server had no memory.
fn is_no_memory(reply: &[u8]) -> bool
    ensures { IsTrue result ↔ (reply.now ≡ codes "{\"no\":\"memory\"}") }
{
    reply == b"{\"no\":\"memory\"}".as_slice()
}

impl KnownDialect for JsonDialect {
    fn asks(
        &self,
        line: &[u8],
        heard: bool,
        reply: &[u8],
    ) -> Result<Result<Request, RequestFault>, Memory> {
        if heard && is_no_memory(reply) {
            return Ok(Err(RequestFault::Memory));
        }
        match self.read(line) {
            Err(RequestFault::Memory) => Err(Memory),
            asked => Ok(asked),
        }
    }
}
