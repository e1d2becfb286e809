ghost use Rattle.std.specs.Prelude.{◌≡◌};

use crate::printing::print_said;
use crate::reading::read_line;
use agent_gate::Dialect;
use line_protocol::{Request, RequestFault, Said};
use std::alloc::Global;
use tac_base::Text;

/// A dialect whose lines are JSON objects. Reading allocates memory; if an allocation fails, the fault is `Memory`.
/// Printing allocates none.
#[derive(Clone, Copy)]
pub struct JsonDialect {
    alloc: Global,
}

impl JsonDialect {
    /// Returns the dialect. It reads with memory of this allocator.
    pub fn new(alloc: Global) -> Self
        ensures { result.alloc ≡ alloc }
    {
        JsonDialect { alloc }
    }
}

impl Dialect for JsonDialect {
    ghost use Rattle.std.specs.Prelude.{◌⊎◌, Err};
    ghost use Rattle.line_protocol.specs.declared.asking.RequestFault.TheVariants.{Memory};
    ghost use Rattle.json_dialect.specs.JsonRequests.{asks_json};
    ghost use Rattle.json_dialect.specs.JsonReplies.{json_text};

    ghost form = { λ _. record { may_answer = λ line answer. (answer ≡ asks_json line) ⊎ (answer ≡ Err Memory); text = json_text } };

    fn read(&self, line: &[u8]) -> Result<Request, RequestFault> {
        read_line(self.alloc, line)
    }

    fn print(&self, said: &Said, out: &mut Text) {
        print_said(said, out);
    }
}
