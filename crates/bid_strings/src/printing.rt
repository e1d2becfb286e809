ghost use Rattle.std.specs.Prelude.{◌≡◌, ◌+◌, ◌≤◌, ◌++◌, length};
ghost use Rattle.bid_strings.specs.Spelling.{spelling, point_text, next_text};

use tac_base::limits::{BID_POINTS, REPLY_TEXT};
use tac_base::{Point, Text, print_numeral, print_signed};

/// Appends the text of a point.
fn print_point(point: &Point, out: &mut Text)
    requires { length out.old + 43 ≤ REPLY_TEXT }
    ensures value { out.new ≡ out.old ++ point_text point.now }
    ensures len { length out.new ≤ length out.old + 12 }
{
    out.push(b'(');
    print_signed(i64::from(point.units), out);
    out.push(b' ');
    print_numeral(u64::from(point.price), out);
    out.push(b')');
}

/// Appends the text of the next point, after `count` others.
fn print_next(count: usize, point: &Point, out: &mut Text)
    requires { length out.old + 44 ≤ REPLY_TEXT }
    ensures value { out.new ≡ out.old ++ next_text count point.now }
    ensures len { length out.new ≤ length out.old + 13 }
{
    if 0 < count {
        out.push(b' ');
    }
    print_point(point, out);
}

/// Appends the spelling of at most 16 points, in order; at least 256 bytes must be free. Without points it is `()`,
/// which cannot be read as a bid.
pub fn print_points(points: &[Point], out: &mut Text)
    requires count { length points.now ≤ BID_POINTS }
    requires room { length out.old + 256 ≤ REPLY_TEXT }
    ensures value { out.new ≡ out.old ++ spelling points.now }
    ensures len { length out.new ≤ length out.old + 256 }
{
    out.push(b'(');
    for (i, point) in points.iter().enumerate() {
        print_next(i, point, out);
    }
    out.push(b')');
}
