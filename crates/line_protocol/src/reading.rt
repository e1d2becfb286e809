ghost use Rattle.std.specs.Prelude.{◌≡◌, ◌≤◌, Some, IfSome};
ghost use Rattle.line_protocol.specs.declared.saying.Said.{Said};
ghost use Rattle.tac_base.specs.declared.calls.Reply.{Reply};
ghost use Rattle.line_protocol.specs.ReplyForms as forms;
ghost use Rattle.line_protocol.specs.Ranges.{IsReplyText, IsSaidText};

use crate::{RequestFault, Said};
use bid_strings::read_points;
use tac_base::limits::{CASH_DIGITS, POSITION, SHOWN_HOLDING, SHOWN_PRICE};
use tac_base::{BidFault, Board, Left, Reply, read_numeral, read_signed};
use text_forms::Words;

/// Returns the value, if no word is left.
fn ended<T: Drop>(value: T, mut words: Words<'_>) -> Option<T>
    ensures { result ≡ forms.ended value words.entry }
{
    match words.next() {
        None => Some(value),
        Some(_) => None,
    }
}

/// Returns the number of a numeral, if it is at most the limit.
fn number_within(word: &[u8], limit: u64) -> Option<u64>
    ensures value { result ≡ forms.read_at_most limit word.now }
    ensures bound { IfSome result (λ n. n ≤ limit) }
{
    let number = read_numeral(word, 10)?;
    if number <= limit { Some(number) } else { None }
}

/// Returns the number of the next word, if it is at most the limit, and the words after it.
fn next_within<'a>(mut words: Words<'a>, limit: u64) -> Option<(u64, Words<'a>)>
    ensures value { result ≡ forms.next_within limit words.entry }
    ensures bound { IfSome result (λ x. x.0 ≤ limit) }
{
    let word = words.next()?;
    let number = number_within(word, limit)?;
    Some((number, words))
}

/// Returns a number of units, and the words after it.
fn next_units<'a>(words: Words<'a>) -> Option<(u8, Words<'a>)>
    ensures { result ≡ forms.next_within 255 words.entry }
{
    let (units, words) = next_within(words, u64::from(u8::MAX))?;
    Some((units as u8, words))
}

/// Returns a price in dollars, and the words after it.
fn next_price<'a>(words: Words<'a>) -> Option<(u16, Words<'a>)>
    ensures { result ≡ forms.next_within SHOWN_PRICE words.entry }
{
    let (price, words) = next_within(words, u64::from(SHOWN_PRICE))?;
    Some((price as u16, words))
}

/// Returns the holding that a word gives.
fn holding_of(word: &[u8]) -> Option<i32>
    ensures { result ≡ forms.holding_of word.now }
{
    let holding = read_signed(word, 10)?;
    if -i64::from(SHOWN_HOLDING) <= holding && holding <= i64::from(SHOWN_HOLDING) {
        Some(holding as i32)
    } else {
        None
    }
}

/// Returns the position in a word that begins with `@`.
fn place_of(word: &[u8]) -> Option<u32>
    ensures { result ≡ forms.read_place word.now }
{
    match word {
        [] => None,
        [first, number @ ..] => {
            if *first != b'@' {
                return None;
            }
            let position = number_within(number, u64::from(POSITION))?;
            Some(position as u32)
        }
    }
}

/// Returns the standing points that a text gives.
#[tactic(auto, using(tac_base::proofs::Faults::bid_left))]
fn left_of(text: &[u8]) -> Option<Left>
    ensures { result ≡ forms.read_left text.now }
{
    if text == b"()".as_slice() {
        return Some(Left::none());
    }
    match read_points(text) {
        Ok(points) => Some(Left::new(points.as_slice())),
        Err(_) => None,
    }
}

/// Returns the reply that the words after `taken` give.
fn taken_of(words: Words<'_>) -> Option<Reply>
    ensures { result ≡ forms.taken_of words.entry }
{
    let (bought, words) = next_units(words)?;
    let (sold, words) = next_units(words)?;
    ended(Reply::Taken { bought, sold }, words)
}

/// Returns the reply that the words after `sold` give.
fn sold_of(words: Words<'_>) -> Option<Reply>
    ensures { result ≡ forms.sold_of words.entry }
{
    let (units, words) = next_units(words)?;
    let (price, words) = next_price(words)?;
    ended(Reply::Sold { units, price }, words)
}

/// Returns the refusal that the words after `no belowquote` give.
fn below_of(words: Words<'_>) -> Option<Reply>
    ensures { result ≡ forms.below_of words.entry }
{
    let (need, words) = next_units(words)?;
    let (at, words) = next_price(words)?;
    let (offered, words) = next_units(words)?;
    ended(Reply::BelowQuote { need, at, offered }, words)
}

/// Returns the reply that the words after `own` give: a holding, and in the rest of the line the standing points.
fn own_of(mut words: Words<'_>) -> Option<Reply>
    ensures { result ≡ forms.own_of words.entry }
{
    let word = words.next()?;
    let text = words.rest()?;
    let holding = holding_of(word)?;
    let left = left_of(text)?;
    Some(Reply::Own { holding, left })
}

/// Returns the refusal that the words after `no` give.
fn refused_of(mut words: Words<'_>) -> Option<Reply>
    ensures { result ≡ forms.refused_of words.entry }
{
    let keyword = words.next()?;
    if keyword == b"closed".as_slice() {
        ended(Reply::Closed, words)
    } else if keyword == b"wrongcall".as_slice() {
        ended(Reply::WrongCall, words)
    } else if keyword == b"nobid".as_slice() {
        ended(Reply::NoBid, words)
    } else if keyword == b"sell".as_slice() {
        ended(Reply::Sell, words)
    } else if keyword == b"selfcross".as_slice() {
        ended(Reply::SelfCross, words)
    } else if keyword == b"belowquote".as_slice() {
        below_of(words)
    } else {
        None
    }
}

/// Returns the reply that a keyword and the words after it give.
fn reply_of(keyword: &[u8], words: Words<'_>) -> Option<Reply>
    ensures { result ≡ forms.read_reply_words keyword.now words.entry }
{
    if keyword == b"taken".as_slice() {
        taken_of(words)
    } else if keyword == b"own".as_slice() {
        own_of(words)
    } else if keyword == b"sold".as_slice() {
        sold_of(words)
    } else if keyword == b"done".as_slice() {
        ended(Reply::Done, words)
    } else if keyword == b"no".as_slice() {
        refused_of(words)
    } else {
        None
    }
}

/// Returns the reply that the words after `cash` give.
fn cash_of(position: u32, mut words: Words<'_>) -> Option<Said>
    ensures { result ≡ forms.read_cash position words.entry }
{
    let word = words.next()?;
    let dollars = read_signed(word, CASH_DIGITS)?;
    ended(Said::Cash(position, dollars), words)
}

/// Returns whether the word says that an auction is closed.
fn state_of(word: &[u8]) -> Option<bool>
    ensures { result ≡ forms.read_state word.now }
{
    if word == b"open".as_slice() {
        Some(false)
    } else if word == b"closed".as_slice() {
        Some(true)
    } else {
        None
    }
}

/// Returns whether the next word says that an auction is closed, and the words after it.
fn next_state<'a>(mut words: Words<'a>) -> Option<(bool, Words<'a>)>
    ensures { result ≡ forms.next_state words.entry }
{
    let word = words.next()?;
    let closed = state_of(word)?;
    Some((closed, words))
}

/// Returns the board that the words after `quote` give.
fn quote_of(count: u32, words: Words<'_>) -> Option<Said>
    ensures { result ≡ forms.quote_of count words.entry }
{
    let (bid, words) = next_price(words)?;
    let (ask, words) = next_price(words)?;
    let (closed, words) = next_state(words)?;
    let board = Board {
        count,
        bid,
        ask,
        closed,
    };
    ended(Said::Quote(board), words)
}

/// Returns the reply that the words after a position give.
fn placed_of(position: u32, mut words: Words<'_>) -> Option<Said>
    ensures { result ≡ forms.placed_of position words.entry }
{
    let keyword = words.next()?;
    if keyword == b"cash".as_slice() {
        return cash_of(position, words);
    }
    if keyword == b"quote".as_slice() {
        return quote_of(position, words);
    }
    let reply = reply_of(keyword, words)?;
    Some(Said::At(position, reply))
}

/// Returns the bid's fault with a number.
fn fault_at(number: u64) -> Option<BidFault>
    ensures { result ≡ forms.fault_at number }
{
    match number {
        1 => Some(BidFault::Syntax),
        2 => Some(BidFault::TooManyPoints),
        3 => Some(BidFault::TooManyUnits),
        4 => Some(BidFault::Price),
        5 => Some(BidFault::ZeroUnits),
        _ => None,
    }
}

/// Returns the fault that the words after `no bid` give.
fn bid_fault_of(words: Words<'_>) -> Option<Said>
    ensures { result ≡ forms.bid_fault_of words.entry }
{
    let (number, words) = next_within(words, 5)?;
    let fault = fault_at(number)?;
    ended(Said::Fault(RequestFault::Bid(fault)), words)
}

/// Returns the reply that the words after `no` give, if no position precedes it.
fn unplaced_of(mut words: Words<'_>) -> Option<Said>
    ensures { result ≡ forms.unplaced_of words.entry }
{
    let keyword = words.next()?;
    if keyword == b"spent".as_slice() {
        ended(Said::Spent, words)
    } else if keyword == b"syntax".as_slice() {
        ended(Said::Fault(RequestFault::Syntax), words)
    } else if keyword == b"auction".as_slice() {
        ended(Said::Fault(RequestFault::NoSuchAuction), words)
    } else if keyword == b"toolong".as_slice() {
        ended(Said::TooLong, words)
    } else if keyword == b"memory".as_slice() {
        ended(Said::Fault(RequestFault::Memory), words)
    } else if keyword == b"bid".as_slice() {
        bid_fault_of(words)
    } else {
        None
    }
}

/// Returns the reply of a line. Only this function unfolds the definition of its form.
#[tactic(auto, unfolding(crate::specs::ReplyForms::read_said))]
fn said_of(line: &[u8]) -> Option<Said>
    ensures { result ≡ forms.read_said line.now }
{
    let mut words = Words::new(line);
    let first = words.next()?;
    if first == b"bye".as_slice() {
        return ended(Said::Bye, words);
    }
    if first == b"no".as_slice() {
        return unplaced_of(words);
    }
    let position = place_of(first)?;
    placed_of(position, words)
}

/// Reads a reply from a line without its line end. It returns `None` exactly if `print_reply` appends this line for no value
/// in these ranges: positions and counts 0..16777215, prices at most 10001 dollars, units at most 255,
/// holdings -1000000..1000000, cash of at most 18 digits, and standing points within the limits of a bid.
pub fn read_reply(line: &[u8]) -> Option<Said>
    ensures found { IfSome result (λ said. IsSaidText line.now said) }
    ensures only { (said : Said) → IsSaidText line.now said → result ≡ Some said }
{
    said_of(line)
}

/// Returns the reply of a text. Only this function unfolds the definition of its form.
#[tactic(auto, unfolding(crate::specs::ReplyForms::answer_of))]
fn answer_of(text: &[u8]) -> Option<Reply>
    ensures { result ≡ forms.answer_of text.now }
{
    let mut words = Words::new(text);
    let keyword = words.next()?;
    reply_of(keyword, words)
}

/// Reads a reply from a text without a position. It returns `None` exactly if `print_answer` appends this text for no reply
/// in the ranges of `read_reply`.
pub fn read_answer(text: &[u8]) -> Option<Reply>
    ensures exact { result ≡ forms.answer_of text.now }
    ensures found { IfSome result (λ reply. IsReplyText text.now reply) }
    ensures only { (reply : Reply) → IsReplyText text.now reply → result ≡ Some reply }
{
    answer_of(text)
}
