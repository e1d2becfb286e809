// Prints the lines of a log's histories.
ghost use Rattle.std.specs.Prelude.{◌≡◌, ◌+◌, ◌≤◌, ◌++◌, length, decimal, flat_map};
ghost use Rattle.tac_base.specs.declared.calls.Call.TheVariants.{Bid};
ghost use Rattle.log_text.specs.LogText as log;

use bid_strings::print_points;
use line_protocol::print_answer;
use tac_base::limits::REPLY_TEXT;
use tac_base::{Call, Caller, Good, Nets, Points, Reply, Text, Trade, print_numeral, print_signed};
use trade_ledger::{CashCall, CashEntry, CashReply};

/// Appends a space and a number.
pub(crate) fn push_number(n: u64, out: &mut Text)
    requires { length out.old + 21 ≤ REPLY_TEXT }
    ensures value { out.new ≡ out.old ++ log.then_number n }
    ensures len { length out.new ≤ length out.old + 21 }
{
    out.push(b' ');
    print_numeral(n, out);
}

/// Appends a space and a number that may have a sign.
fn push_signed(n: i64, out: &mut Text)
    requires { length out.old + 21 ≤ REPLY_TEXT }
    ensures value { out.new ≡ out.old ++ log.then_signed n }
    ensures len { length out.new ≤ length out.old + 21 }
{
    out.push(b' ');
    print_signed(n, out);
}

/// Appends a caller.
fn push_caller(caller: Caller, out: &mut Text)
    requires { length out.old + 20 ≤ REPLY_TEXT }
    ensures value { out.new ≡ out.old ++ decimal caller }
    ensures len { length out.new ≤ length out.old + 20 }
{
    print_numeral(u64::from(caller.get()), out);
}

/// Appends the text of a bid.
fn push_bid(points: &Points, out: &mut Text)
    requires { length out.old + 260 ≤ REPLY_TEXT }
    ensures value { out.new ≡ out.old ++ log.call_text (Bid points.now) }
    ensures len { length out.new ≤ length out.old + 260 }
{
    out.push_bytes(b"bid ");
    print_points(points.as_slice(), out);
}

/// Appends the text of a call.
fn push_call(call: &Call, out: &mut Text)
    requires { length out.old + 260 ≤ REPLY_TEXT }
    ensures value { out.new ≡ out.old ++ log.call_text call.now }
    ensures len { length out.new ≤ length out.old + 260 }
{
    match call {
        Call::Bid(points) => push_bid(points, out),
        Call::Withdraw => out.push_bytes(b"withdraw"),
        Call::Own => out.push_bytes(b"own"),
        Call::Update { tick, draw } => {
            out.push_bytes(b"update");
            push_number(u64::from(tick.get()), out);
            push_number(u64::from(*draw), out);
        }
        Call::Publish => out.push_bytes(b"publish"),
        Call::Close => out.push_bytes(b"close"),
    }
}

/// The line of an entry, with its line end: caller, call and reply.
pub fn entry_line(caller: Caller, call: &Call, reply: &Reply) -> Text
    ensures { result ≡ log.entry_line caller call.now reply.now }
{
    let mut out = Text::new();
    push_caller(caller, &mut out);
    out.push(b' ');
    push_call(call, &mut out);
    out.push_bytes(b" = ");
    print_answer(reply, &mut out);
    out.push(b'\n');
    out
}

/// The line of a trade, with its line end: buyer, seller, units, and the price of a unit in dollars.
pub fn trade_line(trade: &Trade) -> Text
    ensures { result ≡ log.trade_line trade.now }
{
    let mut out = Text::new();
    out.push_bytes(b"trade");
    push_number(u64::from(trade.buyer.get()), &mut out);
    push_number(u64::from(trade.seller.get()), &mut out);
    push_number(u64::from(trade.units), &mut out);
    push_number(u64::from(trade.price), &mut out);
    out.push(b'\n');
    out
}

/// The line before the entries of an auction, with its line end: the good and the number of entries.
pub fn auction_line(good: Good, count: u32) -> Text
    ensures value { result ≡ log.auction_line good count }
    ensures known { good ≤ 27 }
{
    let mut out = Text::new();
    out.push_bytes(b"auction");
    push_number(u64::from(good.get()), &mut out);
    push_number(u64::from(count), &mut out);
    out.push(b'\n');
    out
}

/// Appends what each party gained, in dollars.
fn push_nets(nets: &Nets, out: &mut Text)
    requires { length out.old + 189 ≤ REPLY_TEXT }
    ensures value { out.new ≡ out.old ++ flat_map log.then_signed nets.now.dollars }
    ensures len { length out.new ≤ length out.old + 189 }
{
    for dollars in &nets.dollars {
        push_signed(i64::from(*dollars), out);
    }
}

/// Appends the text of a cash call.
fn push_cash_call(call: &CashCall, out: &mut Text)
    requires { length out.old + 240 ≤ REPLY_TEXT }
    ensures value { out.new ≡ out.old ++ log.cash_call_text call.now }
    ensures len { length out.new ≤ length out.old + 240 }
{
    match call {
        CashCall::Post {
            good,
            position,
            nets,
        } => {
            out.push_bytes(b" post");
            push_number(u64::from(good.get()), out);
            push_number(u64::from(*position), out);
            push_nets(nets, out);
        }
        CashCall::Read { .. } => out.push_bytes(b" read ="),
    }
}

/// Appends the reply of the cash book.
fn push_cash_reply(reply: CashReply, out: &mut Text)
    requires { length out.old + 21 ≤ REPLY_TEXT }
    ensures value { out.new ≡ out.old ++ log.cash_reply_text reply }
    ensures len { length out.new ≤ length out.old + 21 }
{
    match reply {
        CashReply::Done => {}
        CashReply::Cash(dollars) => push_signed(dollars, out),
    }
}

/// The line of an entry of the cash history, with its line end. Dollars have a sign.
pub fn cash_entry_line(entry: &CashEntry) -> Text
    ensures { result ≡ log.cash_entry_line entry.now }
{
    let mut out = Text::new();
    push_caller(entry.caller, &mut out);
    push_cash_call(&entry.call, &mut out);
    push_cash_reply(entry.reply, &mut out);
    out.push(b'\n');
    out
}

/// The line before the entries of the cash history, with its line end: the number of entries.
pub fn cash_line(count: u32) -> Text
    ensures { result ≡ log.cash_line count }
{
    let mut out = Text::new();
    out.push_bytes(b"cash");
    push_number(u64::from(count), &mut out);
    out.push(b'\n');
    out
}
