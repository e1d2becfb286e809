// Finds the lines in bytes.
ghost use Rattle.std.specs.Prelude.{◌≤◌, length};
ghost use Rattle.link_audit.specs.Walks.{FindsEnd};

/// The end of the line that begins at a place.
pub(crate) fn line_end(bytes: &[u8], from: usize) -> Option<usize>
    requires { from ≤ length bytes.now }
    ensures { FindsEnd bytes.now from result }
{
    for place in from..bytes.len() {
        if bytes[place] == b'\n' {
            return Some(place);
        }
    }
    None
}
