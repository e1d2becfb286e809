ghost use Rattle.std.specs.Prelude.{◌≡◌, ◌∷◌, ◌+◌, ◌≤◌, ◌++◌, length, decimal, codes, if◌then◌else◌};
ghost use Rattle.std.specs.Fmt.{signed_decimal};
ghost use Rattle.std.specs.List.{join_with_byte};
ghost use Rattle.bid_strings.specs.Spelling.{spelling};
ghost use Rattle.line_protocol.specs.declared.saying.Said.TheVariants.{Quote};
ghost use Rattle.line_protocol.specs.Replies.{place, fault_number, fault_words, reply_text, said_text, IsOneLine};

use crate::{RequestFault, Said};
use bid_strings::print_points;
use tac_base::limits::{LINE_BYTES, REPLY_TEXT};
use tac_base::{BidFault, Board, Left, Reply, Text, print_numeral, print_signed};

/// Appends a space and a number.
fn print_number(n: u32, out: &mut Text)
    requires { length out.old + 21 ≤ REPLY_TEXT }
    ensures value { out.new ≡ out.old ++ 32 ∷ decimal n }
    ensures len { length out.new ≤ length out.old + 21 }
{
    out.push(b' ');
    print_numeral(u64::from(n), out);
}

/// Appends a space and a number that may have a sign.
fn print_signed_number(n: i64, out: &mut Text)
    requires { length out.old + 21 ≤ REPLY_TEXT }
    ensures value { out.new ≡ out.old ++ 32 ∷ signed_decimal n }
    ensures len { length out.new ≤ length out.old + 21 }
{
    out.push(b' ');
    print_signed(n, out);
}

/// Appends `@` and a position.
fn print_place(position: u32, out: &mut Text)
    requires { length out.old + 21 ≤ REPLY_TEXT }
    ensures value { out.new ≡ out.old ++ place position }
    ensures len { length out.new ≤ length out.old + 21 }
{
    out.push(b'@');
    print_numeral(u64::from(position), out);
}

/// Appends a space and the standing points.
fn print_left(left: &Left, out: &mut Text)
    requires { length out.old + 257 ≤ REPLY_TEXT }
    ensures value { out.new ≡ out.old ++ 32 ∷ spelling left.now }
    ensures len { length out.new ≤ length out.old + 257 }
    ensures one_line { IsOneLine (spelling left.now) }
{
    out.push(b' ');
    print_points(left.as_slice(), out);
}

/// Appends the text of a reply without its position, as in a log; at least 288 bytes must be free. Appends at most
/// 288 bytes, none of which is a line end.
pub fn print_answer(reply: &Reply, out: &mut Text)
    requires { length out.old + 288 ≤ REPLY_TEXT }
    ensures value { out.new ≡ out.old ++ reply_text reply.now }
    ensures len { length out.new ≤ length out.old + 288 }
    ensures one_line { IsOneLine (reply_text reply.now) }
{
    match reply {
        Reply::Taken { bought, sold } => {
            out.push_bytes(b"taken");
            print_number(u32::from(*bought), out);
            print_number(u32::from(*sold), out);
        }
        Reply::Own { holding, left } => {
            out.push_bytes(b"own");
            print_signed_number(i64::from(*holding), out);
            print_left(left, out);
        }
        Reply::Sold { units, price } => {
            out.push_bytes(b"sold");
            print_number(u32::from(*units), out);
            print_number(u32::from(*price), out);
        }
        Reply::Done => out.push_bytes(b"done"),
        Reply::Closed => out.push_bytes(b"no closed"),
        Reply::WrongCall => out.push_bytes(b"no wrongcall"),
        Reply::NoBid => out.push_bytes(b"no nobid"),
        Reply::Sell => out.push_bytes(b"no sell"),
        Reply::SelfCross => out.push_bytes(b"no selfcross"),
        Reply::BelowQuote { need, at, offered } => {
            out.push_bytes(b"no belowquote");
            print_number(u32::from(*need), out);
            print_number(u32::from(*at), out);
            print_number(u32::from(*offered), out);
        }
    }
}

/// Returns the number of a bid's fault, 1 to 5.
pub fn number_of(fault: BidFault) -> u32
    ensures { result ≡ fault_number fault }
{
    match fault {
        BidFault::Syntax => 1,
        BidFault::TooManyPoints => 2,
        BidFault::TooManyUnits => 3,
        BidFault::Price => 4,
        BidFault::ZeroUnits => 5,
    }
}

/// Appends the text of a request's fault.
fn print_fault(fault: RequestFault, out: &mut Text)
    requires { length out.old + 32 ≤ REPLY_TEXT }
    ensures value { out.new ≡ out.old ++ join_with_byte 32 (fault_words fault) }
    ensures len { length out.new ≤ length out.old + 32 }
    ensures one_line { IsOneLine (join_with_byte 32 (fault_words fault)) }
{
    match fault {
        RequestFault::Syntax => out.push_bytes(b"no syntax"),
        RequestFault::NoSuchAuction => out.push_bytes(b"no auction"),
        RequestFault::Bid(fault) => {
            out.push_bytes(b"no bid");
            print_number(number_of(fault), out);
        }
        RequestFault::Memory => out.push_bytes(b"no memory"),
    }
}

/// Returns the word for whether an auction is closed.
fn state_of(closed: bool) -> &'static [u8]
    ensures value { result.now ≡ (if closed then codes "closed" else codes "open") }
    ensures len { length result.now ≤ 6 }
    ensures one_line { IsOneLine (if closed then codes "closed" else codes "open") }
{
    if closed { b"closed" } else { b"open" }
}

/// Appends the text of a board.
fn print_board(board: &Board, out: &mut Text)
    requires { length out.old + 128 ≤ REPLY_TEXT }
    ensures value { out.new ≡ out.old ++ said_text (Quote board.now) }
    ensures len { length out.new ≤ length out.old + 128 }
    ensures one_line { IsOneLine (said_text (Quote board.now)) }
{
    print_place(board.count, out);
    out.push_bytes(b" quote");
    print_number(u32::from(board.bid), out);
    print_number(u32::from(board.ask), out);
    out.push(b' ');
    out.push_bytes(state_of(board.closed));
}

/// Appends the line of a reply, without its line end; at least 512 bytes must be free. Appends at most 512 bytes, none
/// of which is a line end. This project defines the lines.
pub fn print_reply(said: &Said, out: &mut Text)
    requires { length out.old + LINE_BYTES ≤ REPLY_TEXT }
    ensures value { out.new ≡ out.old ++ said_text said.now }
    ensures len { length (said_text said.now) ≤ LINE_BYTES }
    ensures one_line { IsOneLine (said_text said.now) }
{
    match said {
        Said::At(position, reply) => {
            print_place(*position, out);
            out.push(b' ');
            print_answer(reply, out);
        }
        Said::Cash(position, dollars) => {
            print_place(*position, out);
            out.push_bytes(b" cash");
            print_signed_number(*dollars, out);
        }
        Said::Quote(board) => print_board(board, out),
        Said::Spent => out.push_bytes(b"no spent"),
        Said::Fault(fault) => print_fault(*fault, out),
        Said::TooLong => out.push_bytes(b"no toolong"),
        Said::Bye => out.push_bytes(b"bye"),
    }
}
