ghost use Rattle.std.specs.Prelude.{◌≡◌, ◌*◌, ◌+◌, ◌≤◌, ◌++◌, length, decimal};
ghost use Rattle.std.specs.Fmt.{signed_decimal};
ghost use Rattle.json_dialect.specs.Prelude.{IsOneLine, IsSaid, Said};
ghost use Rattle.line_protocol.specs.declared.saying.Said.TheVariants.{Quote};
ghost use Rattle.line_protocol.specs.declared.asking.RequestFault.TheVariants as faults;
ghost use Rattle.json_dialect.specs.JsonReplies as json;

use line_protocol::{RequestFault, Said, number_of};
use tac_base::limits::{BID_POINTS, LINE_BYTES, REPLY_TEXT};
use tac_base::{BidFault, Board, Left, Point, Reply, Text, print_numeral, print_signed};

/// Appends an array of two numbers.
fn print_pair(first: u16, second: u16, out: &mut Text)
    requires { length out.old + 64 ≤ REPLY_TEXT }
    ensures value { out.new ≡ out.old ++ json.pair_text (decimal first) (decimal second) }
    ensures len { length out.new ≤ length out.old + 43 }
    ensures one_line { IsOneLine (json.pair_text (decimal first) (decimal second)) }
{
    out.push(b'[');
    print_numeral(u64::from(first), out);
    out.push(b',');
    print_numeral(u64::from(second), out);
    out.push(b']');
}

/// Appends the array of a point.
fn print_point(point: &Point, out: &mut Text)
    requires { length out.old + 43 ≤ REPLY_TEXT }
    ensures value { out.new ≡ out.old ++ json.json_point_text point.now }
    ensures len { length out.new ≤ length out.old + 12 }
{
    out.push(b'[');
    print_signed(i64::from(point.units), out);
    out.push(b',');
    print_numeral(u64::from(point.price), out);
    out.push(b']');
}

/// Appends the array of the next point, after `count` others.
fn print_next(count: usize, point: &Point, out: &mut Text)
    requires { length out.old + 44 ≤ REPLY_TEXT }
    ensures value { out.new ≡ out.old ++ json.json_next_text count point.now }
    ensures len { length out.new ≤ length out.old + 13 }
{
    if 0 < count {
        out.push(b',');
    }
    print_point(point, out);
}

/// Appends the array of at most 16 points.
fn print_points(points: &[Point], out: &mut Text)
    requires count { length points.now ≤ BID_POINTS }
    requires room { length out.old + 240 ≤ REPLY_TEXT }
    ensures value { out.new ≡ out.old ++ json.points_text points.now }
    ensures len { length out.new ≤ length out.old + 210 }
{
    out.push(b'[');
    for (i, point) in points.iter().enumerate() {
        print_next(i, point, out);
    }
    out.push(b']');
}

/// Appends the array of the standing points.
fn print_left(left: &Left, out: &mut Text)
    requires { length out.old + 240 ≤ REPLY_TEXT }
    ensures value { out.new ≡ out.old ++ json.points_text left.now }
    ensures len { length out.new ≤ length out.old + 210 }
    ensures one_line { IsOneLine (json.points_text left.now) }
{
    print_points(left.as_slice(), out);
}

/// Appends a holding and the standing points.
fn print_own(holding: i32, left: &Left, out: &mut Text)
    requires { length out.old + 288 ≤ REPLY_TEXT }
    ensures value { out.new ≡ out.old ++ json.own_members holding left.now }
    ensures len { length out.new ≤ length out.old + 288 }
    ensures one_line { IsOneLine (json.points_text left.now) }
{
    out.push_bytes(b"\"own\":");
    print_signed(i64::from(holding), out);
    out.push_bytes(b",\"points\":");
    print_left(left, out);
}

/// Appends the members of the refusal of a hotel bid that is below the quote.
fn print_below(need: u8, at: u16, offered: u8, out: &mut Text)
    requires { length out.old + 288 ≤ REPLY_TEXT }
    ensures value { out.new ≡ out.old ++ json.below_members need at offered }
    ensures len { length out.new ≤ length out.old + 288 }
    ensures one_line { IsOneLine (json.below_members need at offered) }
{
    out.push_bytes(b"\"no\":\"belowquote\",\"need\":");
    print_numeral(u64::from(need), out);
    out.push_bytes(b",\"price\":");
    print_numeral(u64::from(at), out);
    out.push_bytes(b",\"offered\":");
    print_numeral(u64::from(offered), out);
}

/// Appends the members of a reply that follow its position.
fn print_members(reply: &Reply, out: &mut Text)
    requires { length out.old + 288 ≤ REPLY_TEXT }
    ensures value { out.new ≡ out.old ++ json.reply_members reply.now }
    ensures len { length out.new ≤ length out.old + 288 }
    ensures one_line { IsOneLine (json.reply_members reply.now) }
{
    match reply {
        Reply::Taken { bought, sold } => {
            out.push_bytes(b"\"taken\":");
            print_pair(u16::from(*bought), u16::from(*sold), out);
        }
        Reply::Own { holding, left } => print_own(*holding, left, out),
        Reply::Sold { units, price } => {
            out.push_bytes(b"\"sold\":");
            print_pair(u16::from(*units), *price, out);
        }
        Reply::Done => out.push_bytes(b"\"done\":true"),
        Reply::Closed => out.push_bytes(b"\"no\":\"closed\""),
        Reply::WrongCall => out.push_bytes(b"\"no\":\"wrongcall\""),
        Reply::NoBid => out.push_bytes(b"\"no\":\"nobid\""),
        Reply::Sell => out.push_bytes(b"\"no\":\"sell\""),
        Reply::SelfCross => out.push_bytes(b"\"no\":\"selfcross\""),
        Reply::BelowQuote { need, at, offered } => print_below(*need, *at, *offered, out),
    }
}

/// Appends the start of an object with a position.
fn print_place(position: u32, out: &mut Text)
    requires { length out.old + 32 ≤ REPLY_TEXT }
    ensures value { out.new ≡ out.old ++ json.json_place position }
    ensures len { length out.new ≤ length out.old + 27 }
    ensures one_line { IsOneLine (json.json_place position) }
{
    out.push_bytes(b"{\"at\":");
    print_numeral(u64::from(position), out);
    out.push(b',');
}

/// Appends the object of a reply.
fn print_answer(position: u32, reply: &Reply, out: &mut Text)
    requires { length out.old + LINE_BYTES ≤ REPLY_TEXT }
    ensures value { out.new ≡ out.old ++ json.placed position (json.reply_members reply.now) }
    ensures len { length out.new ≤ length out.old + LINE_BYTES }
    ensures one_line { IsOneLine (json.placed position (json.reply_members reply.now)) }
{
    print_place(position, out);
    print_members(reply, out);
    out.push(b'}');
}

/// Appends the object of an amount of cash.
fn print_cash(position: u32, dollars: i64, out: &mut Text)
    requires { length out.old + LINE_BYTES ≤ REPLY_TEXT }
    ensures value { out.new ≡ out.old ++ json.placed position (json.cash_members dollars) }
    ensures len { length out.new ≤ length out.old + LINE_BYTES }
    ensures one_line { IsOneLine (json.placed position (json.cash_members dollars)) }
{
    print_place(position, out);
    out.push_bytes(b"\"cash\":");
    print_signed(dollars, out);
    out.push(b'}');
}

/// Returns the JSON word for whether an auction is open.
fn openness(closed: bool) -> &'static [u8]
    ensures value { result.now ≡ json.openness closed }
    ensures len { length result.now ≤ 5 }
    ensures one_line { IsOneLine (json.openness closed) }
{
    if closed { b"false" } else { b"true" }
}

/// Appends the object of a board.
fn print_board(board: &Board, out: &mut Text)
    requires { length out.old + LINE_BYTES ≤ REPLY_TEXT }
    ensures value { out.new ≡ out.old ++ json.json_text (Quote board.now) }
    ensures len { length out.new ≤ length out.old + LINE_BYTES }
    ensures one_line { IsOneLine (json.json_text (Quote board.now)) }
{
    print_place(board.count, out);
    out.push_bytes(b"\"quote\":");
    print_pair(board.bid, board.ask, out);
    out.push_bytes(b",\"open\":");
    out.push_bytes(openness(board.closed));
    out.push(b'}');
}

/// Appends the object of a bid's fault.
fn print_bid_fault(fault: BidFault, out: &mut Text)
    requires { length out.old + 64 ≤ REPLY_TEXT }
    ensures value { out.new ≡ out.old ++ json.fault_text (faults.Bid fault) }
    ensures len { length out.new ≤ length out.old + 64 }
    ensures one_line { IsOneLine (json.fault_text (faults.Bid fault)) }
{
    out.push_bytes(b"{\"no\":\"bid\",\"fault\":");
    print_numeral(u64::from(number_of(fault)), out);
    out.push(b'}');
}

/// Appends the object of a request's fault.
fn print_fault(fault: RequestFault, out: &mut Text)
    requires { length out.old + 64 ≤ REPLY_TEXT }
    ensures value { out.new ≡ out.old ++ json.fault_text fault }
    ensures len { length out.new ≤ length out.old + 64 }
    ensures one_line { IsOneLine (json.fault_text fault) }
{
    match fault {
        RequestFault::Syntax => out.push_bytes(b"{\"no\":\"syntax\"}"),
        RequestFault::NoSuchAuction => out.push_bytes(b"{\"no\":\"auction\"}"),
        RequestFault::Bid(fault) => print_bid_fault(fault, out),
        RequestFault::Memory => out.push_bytes(b"{\"no\":\"memory\"}"),
    }
}

/// Appends the object of a reply, without a line end; at least 512 bytes must be free.
pub(crate) fn print_said(said: &Said, out: &mut Text)
    requires { length out.old + LINE_BYTES ≤ REPLY_TEXT }
    ensures value { out.new ≡ out.old ++ json.json_text said.now }
    ensures len { length (json.json_text said.now) ≤ LINE_BYTES }
    ensures one_line { IsOneLine (json.json_text said.now) }
{
    match said {
        Said::At(position, reply) => print_answer(*position, reply, out),
        Said::Cash(position, dollars) => print_cash(*position, *dollars, out),
        Said::Quote(board) => print_board(board, out),
        Said::Spent => out.push_bytes(b"{\"no\":\"spent\"}"),
        Said::Fault(fault) => print_fault(*fault, out),
        Said::TooLong => out.push_bytes(b"{\"no\":\"toolong\"}"),
        Said::Bye => out.push_bytes(b"{\"bye\":true}"),
    }
}

/// The law of these texts: different replies in the ranges of `read_reply` have different texts.
/// So an agent learns as much from JSON as from words.
pub fn one_json_text()
    ensures { (one other : Said) → IsSaid one → IsSaid other → json.json_text one ≡ json.json_text other → one ≡ other }
{}
