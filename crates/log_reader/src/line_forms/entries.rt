// Reads the lines of the histories.
ghost use Rattle.std.specs.Prelude.{◌≡◌, ◌≤◌, None, Some, IfSome, MatchOption, length, drop, IsTrue};
ghost use Rattle.std.specs.List.{list_all};
ghost use Rattle.log_reader.specs.Prelude.{clock, parts_of, words_of, points_of, judged};
ghost use Rattle.text_forms.specs.Rows as rows;
ghost use Rattle.log_reader.specs.EntryForms as forms;
ghost use Rattle.log_reader.specs.HeadForms as head;

use crate::line_forms::heads::digit_of;
use bid_strings::read_points;
use line_protocol::read_answer;
use tac_base::limits::{
    AUCTION_ENTRIES, BID_PRICE, BID_UNITS, CASH_DIGITS, CASH_ENTRIES, LAST_POSITION, UPDATE_TICKS,
};
use tac_base::{Agent, Call, Caller, Good, Nets, Party, Reply, Tick, Trade, read_signed};
use text_forms::{Column, Digits, Words, cut, read_row};
use trade_ledger::{CashCall, CashEntry, CashReply};

/// Reads the number of entries from the line before the entries of a good.
#[tactic(auto, unfolding(crate::specs::EntryForms::auction_of))]
pub(crate) fn auction_of(good: Good, line: &[u8]) -> Option<u32>
    ensures value { result ≡ forms.auction_of good line.now }
    ensures few { IfSome result (λ n. n ≤ AUCTION_ENTRIES) }
{
    let columns = [Column::within(0, 27), Column::within(0, AUCTION_ENTRIES)];
    match read_row(line, b"auction", &columns) {
        Ok(numbers) => {
            if numbers[0].unsigned_abs() == u64::from(good.get()) {
                Some(numbers[1] as u32)
            } else {
                None
            }
        }
        Err(_) => None,
    }
}

/// Reads the trade of a line, in the auction of a good.
#[tactic(auto, unfolding(crate::specs::EntryForms::trade_of))]
pub(crate) fn trade_of(good: Good, line: &[u8]) -> Option<Trade>
    ensures { result ≡ forms.trade_of good line.now }
{
    let columns = [
        Column::within(0, 8),
        Column::within(0, 8),
        Column::within(1, u32::from(BID_UNITS)),
        Column::within(0, u32::from(BID_PRICE)),
    ];
    match read_row(line, b"trade", &columns) {
        Ok(numbers) => {
            let buyer = Party::new(numbers[0] as u8).ok()?;
            let seller = Party::new(numbers[1] as u8).ok()?;
            Some(Trade {
                buyer,
                seller,
                good,
                units: numbers[2] as u8,
                price: numbers[3] as u16,
            })
        }
        Err(_) => None,
    }
}

/// Reads a bid from a text of points.
fn bid_of(text: &[u8]) -> Option<Call>
    ensures { result ≡ forms.bid_by (judged (points_of text.now)) }
{
    match read_points(text) {
        Ok(points) => Some(Call::Bid(points)),
        Err(_) => None,
    }
}

/// Reads the clock's update from a text.
fn update_of(text: &[u8]) -> Option<Call>
    ensures { result ≡ forms.read_update text.now }
{
    let columns = [
        Column::within(1, u32::from(UPDATE_TICKS)),
        Column::within(0, u32::MAX),
    ];
    match read_row(text, b"update", &columns) {
        Ok(numbers) => {
            let tick = Tick::new(numbers[0] as u8).ok()?;
            Some(Call::Update {
                tick,
                draw: numbers[1] as u32,
            })
        }
        Err(_) => None,
    }
}

/// Reads a call of one word.
fn word_call(word: &[u8]) -> Option<Call>
    ensures { result ≡ forms.word_call word.now }
{
    if word == b"withdraw".as_slice() {
        Some(Call::Withdraw)
    } else if word == b"own".as_slice() {
        Some(Call::Own)
    } else if word == b"publish".as_slice() {
        Some(Call::Publish)
    } else if word == b"close".as_slice() {
        Some(Call::Close)
    } else {
        None
    }
}

/// Reads the call of a text.
#[tactic(auto, unfolding(crate::specs::EntryForms::read_call))]
fn call_of(text: &[u8]) -> Option<Call>
    ensures { result ≡ forms.read_call text.now }
{
    let mut words = Words::new(text);
    let keyword = words.next()?;
    match words.rest() {
        None => word_call(keyword),
        Some(rest) => {
            if keyword == b"bid".as_slice() {
                bid_of(rest)
            } else {
                update_of(text)
            }
        }
    }
}

/// Reads a caller of one digit, which a space and a text follow.
fn caller_of(line: &[u8]) -> Option<(u8, &[u8])>
    ensures value { MatchOption result (forms.read_caller 8 line.now ≡ None) (λ called. forms.read_caller 8 line.now ≡ Some (called.0, called.1.now)) }
    ensures range { IfSome result (λ called. called.0 ≤ clock) }
{
    match line {
        [digit, b' ', text @ ..] => {
            let caller = digit_of(8, &[*digit])?;
            Some((caller, text))
        }
        _ => None,
    }
}

/// Returns a text without the space at its end.
fn before_space(text: &[u8]) -> Option<&[u8]>
    ensures { MatchOption result (forms.before_space text.now ≡ None) (λ front. forms.before_space text.now ≡ Some front.now) }
{
    let most = text.len();
    if most > 0 && text[most - 1] == b' ' {
        Some(&text[..most - 1])
    } else {
        None
    }
}

/// Returns a text without the space at its start.
fn after_space(text: &[u8]) -> Option<&[u8]>
    ensures { MatchOption result (forms.after_space text.now ≡ None) (λ rest. forms.after_space text.now ≡ Some rest.now) }
{
    match text {
        [b' ', rest @ ..] => Some(rest),
        _ => None,
    }
}

/// Returns the texts before and after the first `=`, which has a space on both sides.
fn sides_of(text: &[u8]) -> Option<(&[u8], &[u8])>
    ensures { MatchOption result (forms.sides_of (parts_of 61 text.now) ≡ None) (λ sides. forms.sides_of (parts_of 61 text.now) ≡ Some (sides.0.now, sides.1.now)) }
{
    let (call, reply) = cut(text, b'=')?;
    let left = before_space(call)?;
    let right = after_space(reply)?;
    Some((left, right))
}

/// Reads the caller, the call and the reply from the line of an entry.
#[tactic(auto, unfolding(crate::specs::EntryForms::read_entry))]
pub(crate) fn entry_of(line: &[u8]) -> Option<(Caller, Call, Reply)>
    ensures { result ≡ forms.read_entry line.now }
{
    let (number, text) = caller_of(line)?;
    let caller = Caller::new(number).ok()?;
    let (left, right) = sides_of(text)?;
    let call = call_of(left)?;
    let reply = read_answer(right)?;
    Some((caller, call, reply))
}

/// Reads the number of entries from the line before those of the cash history.
#[tactic(auto, unfolding(crate::specs::EntryForms::read_cash_line))]
pub(crate) fn cash_of(line: &[u8]) -> Option<u32>
    ensures value { result ≡ forms.read_cash_line line.now }
    ensures few { IfSome result (λ n. n ≤ CASH_ENTRIES) }
{
    match read_row(line, b"cash", &[Column::within(0, CASH_ENTRIES)]) {
        Ok(numbers) => Some(numbers[0] as u32),
        Err(_) => None,
    }
}

/// The columns of a post after its caller: the good, the position, and what each of nine parties gained.
fn post_columns() -> [Column; 11]
    ensures { result ≡ forms.post_columns }
{
    let net = Column {
        signed: true,
        digits: Digits::Ten,
        low: -2147483648,
        high: 2147483647,
    };
    let mut columns = [net; 11];
    columns[0] = Column::within(0, 27);
    columns[1] = Column::within(0, LAST_POSITION);
    columns
}

/// What each party gained.
fn nets_of(numbers: &[i64]) -> Nets
    requires count { length numbers.now ≡ 9 }
    requires range { IsTrue (list_all (λ n. rows.is_in forms.net_column n) numbers.now) }
    ensures { result.dollars ≡ numbers.now }
{
    let mut dollars = [0; 9];
    for (party, number) in numbers.iter().enumerate() {
        dollars[party] = *number as i32;
    }
    Nets { dollars }
}

/// What each party gained, from the numbers of a post.
fn nets_at(numbers: &[i64; 11]) -> Nets
    requires { IsTrue (rows.all_in forms.post_columns numbers.now) }
    ensures { result ≡ record { dollars = drop 2 numbers.now } }
{
    nets_of(&numbers[2..])
}

/// The position, from the numbers of a post.
fn position_at(numbers: &[i64; 11]) -> u32
    requires { IsTrue (rows.all_in forms.post_columns numbers.now) }
    ensures { result ≡ head.number_at numbers.now 1 }
{
    numbers[1] as u32
}

/// Makes the post of a caller from the numbers of its line.
fn made_post(caller: Caller, numbers: &[i64; 11]) -> Option<CashEntry>
    requires { IsTrue (rows.all_in forms.post_columns numbers.now) }
    ensures { result ≡ Some (forms.made_post caller numbers.now) }
{
    let good = Good::new(numbers[0] as u8).ok()?;
    Some(CashEntry {
        caller,
        call: CashCall::Post {
            good,
            position: position_at(numbers),
            nets: nets_at(numbers),
        },
        reply: CashReply::Done,
    })
}

/// Reads the post of a caller from a text.
fn post_of(caller: Caller, text: &[u8]) -> Option<CashEntry>
    ensures { result ≡ forms.post_of caller text.now }
{
    match read_row(text, b"post", &post_columns()) {
        Ok(numbers) => made_post(caller, &numbers),
        Err(_) => None,
    }
}

/// Makes an agent's reading of its cash from three words.
fn read_of(agent: Agent, keyword: &[u8], sign: &[u8], word: &[u8]) -> Option<CashEntry>
    ensures { result ≡ forms.read_of agent keyword.now sign.now word.now }
{
    if keyword == b"read".as_slice() && sign == b"=".as_slice() {
        let dollars = read_signed(word, CASH_DIGITS)?;
        Some(CashEntry {
            caller: agent.caller(),
            call: CashCall::Read { agent },
            reply: CashReply::Cash(dollars),
        })
    } else {
        None
    }
}

/// Reads an agent's reading of its cash from the words of a text.
fn reading_of(agent: Agent, mut words: Words<'_>) -> Option<CashEntry>
    ensures { result ≡ forms.read_reading agent words.entry }
{
    let keyword = words.next()?;
    let sign = words.next()?;
    let word = words.next()?;
    match words.next() {
        None => read_of(agent, keyword, sign, word),
        Some(_) => None,
    }
}

/// Reads the entry of a caller from a text: a post of any caller, or an agent's reading.
fn cash_entry_by(caller: Caller, text: &[u8]) -> Option<CashEntry>
    ensures { result ≡ forms.cash_entry_by caller text.now }
{
    if starts(text, b"post") {
        post_of(caller, text)
    } else if caller.get() == 8 {
        None
    } else {
        let agent = Agent::new(caller.get()).ok()?;
        reading_of(agent, Words::new(text))
    }
}

/// Whether the first word of a line is this one.
pub(crate) fn starts(line: &[u8], word: &[u8]) -> bool
    ensures { result ≡ forms.first_is word.now (words_of line.now) }
{
    match Words::new(line).next() {
        None => false,
        Some(first) => first == word,
    }
}

/// Reads the entry of a line of the cash history.
#[tactic(auto, unfolding(crate::specs::EntryForms::cash_entry_of))]
pub(crate) fn cash_entry_of(line: &[u8]) -> Option<CashEntry>
    ensures { result ≡ forms.cash_entry_of line.now }
{
    let (number, text) = caller_of(line)?;
    let caller = Caller::new(number).ok()?;
    cash_entry_by(caller, text)
}
