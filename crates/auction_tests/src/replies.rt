// Replies as lines.
use line_protocol::{Said, print_reply};
use tac_base::{Reply, Text};

/// Whether the reply at a position is told by the line.
pub(crate) fn is_told(position: u32, reply: Reply, line: &[u8]) -> bool {
    let mut text = Text::new();
    print_reply(&Said::At(position, reply), &mut text);
    text.as_slice() == line
}
