ghost use Rattle.std.specs.Prelude.{◌≡◌, ◌⊎◌, ◌≤◌, ◌∷◌, [], ◌++◌, Ok, Err, Some, None, IfErr, OnOk, is_some, true, map, option_map, length};
ghost use Rattle.json_dialect.specs.Prelude.{fault_of, left_fault, judged, IsRequest, Request};
ghost use Rattle.line_protocol.specs.declared.asking.RequestFault.TheVariants.{Memory};
ghost use Rattle.line_protocol.specs.Requests as asked;
ghost use Rattle.json_dialect.specs.JsonObjects.{object_text};
ghost use Rattle.serde_json.specs.View.{view, items_view, members_view};
ghost use Rattle.json_dialect.specs.JsonRequests as json;

use line_protocol::{Request, RequestFault};
use serde_json::{Map, Value};
use std::alloc::Global;
use std::marker::Model;
use tac_base::{BidDraft, BidFault, Good, Points};

/// The greatest number that is accepted.
const HIGHEST: i64 = 99_999;

/// Returns a whole number in 0..99999.
fn number_of(value: &Value) -> Option<u64>
    ensures { result ≡ json.json_number (view value.now) }
{
    match value.as_i64() {
        Some(number) if 0 <= number && number <= HIGHEST => Some(number as u64),
        _ => None,
    }
}

/// Returns a whole number in -99999..99999.
fn signed_number_of(value: &Value) -> Option<i64>
    ensures { result ≡ json.signed_number_of (view value.now) }
{
    match value.as_i64() {
        Some(number) if -HIGHEST <= number && number <= HIGHEST => Some(number),
        _ => None,
    }
}

/// Returns the good with a number.
fn good_of(value: &Value) -> Result<Good, RequestFault>
    ensures { result ≡ asked.read_good (json.json_number (view value.now)) }
{
    let Some(number) = number_of(value) else {
        return Err(RequestFault::Syntax);
    };
    if 27 < number {
        return Err(RequestFault::NoSuchAuction);
    }
    match Good::new(number as u8) {
        Ok(good) => Ok(good),
        Err(_) => Err(RequestFault::NoSuchAuction),
    }
}

/// A point as it was read, before any check of its limits.
#[derive(Drop)]
struct ReadPoint {
    units: i64,
    price: u64,
}

impl Model for ReadPoint {
    ghost use Rattle.tac_base.specs.declared.bids.Point.{Point};

    ghost Value = { Point };

    ghost view = { λ p. record { units = p.units; price = p.price } };
}

impl ReadPoint {
    /// Adds the point to a bid, or returns the fault that it causes.
    fn add_to(&self, draft: &mut BidDraft) -> Result<(), BidFault>
        ensures fault { IfErr result (λ fault. left_fault (draft.old ++ self.now ∷ []) ≡ Some fault) }
        ensures ok { OnOk result (draft.new ≡ draft.old ++ self.now ∷ []) }
    {
        draft.push(self.units, self.price)
    }
}

/// Returns the point of an array of two numbers.
#[tactic(auto, using(crate::proofs::Views::not_two))]
fn point_of(value: &Value) -> Option<ReadPoint>
    ensures { result ≡ json.json_point (view value.now) }
{
    let items = value.as_array()?;
    if items.len() != 2 {
        return None;
    }
    match items.as_slice() {
        [units, price] => {
            let units = signed_number_of(units)?;
            let price = number_of(price)?;
            Some(ReadPoint { units, price })
        }
        _ => None,
    }
}

/// Returns whether each value is a point.
fn are_points(values: &[Value]) -> bool
    ensures { result ≡ is_some (json.json_points_from (items_view values.now)) }
{
    for value in values {
        if point_of(value).is_none() {
            return false;
        }
    }
    true
}

/// Returns the bid of these points, or the first fault from the left.
fn judged_points(values: &[Value]) -> Result<Points, BidFault>
    requires { is_some (json.json_points_from (items_view values.now)) ≡ true }
    ensures { result ≡ judged (json.json_points_from (items_view values.now)) }
{
    let mut draft = BidDraft::new();
    for value in values {
        let Some(point) = point_of(value) else {
            return Err(BidFault::Syntax);
        };
        if let Err(fault) = point.add_to(&mut draft) {
            return Err(fault);
        }
    }
    draft.finish()
}

/// Returns the bid of an array of points, or its fault; a fault of the form comes first.
fn points_of(value: &Value) -> Result<Points, BidFault>
    ensures { result ≡ judged (json.json_points (view value.now)) }
{
    let Some(values) = value.as_array() else {
        return Err(BidFault::Syntax);
    };
    if are_points(values.as_slice()) {
        judged_points(values.as_slice())
    } else {
        Err(BidFault::Syntax)
    }
}

/// Returns the bid in an auction.
fn bid(word: &str, number: Option<&Value>, points: Option<&Value>) -> Result<Request, RequestFault>
    ensures { result ≡ json.bid word.now (option_map (λ v. view v.now) number.entry) (option_map (λ v. view v.now) points.entry) }
{
    let Some(number) = number else {
        return Err(RequestFault::Syntax);
    };
    let Some(points) = points else {
        return Err(RequestFault::Syntax);
    };
    if word != "bid" {
        return Err(RequestFault::Syntax);
    }
    let good = good_of(number)?;
    match points_of(points) {
        Ok(points) => Ok(Request::Bid { good, points }),
        Err(fault) => Err(RequestFault::Bid(fault)),
    }
}

/// Returns the request of an object with only the member `do`.
fn plain(word: &str) -> Result<Request, RequestFault>
    ensures { result ≡ json.plain word.now }
{
    if word == "cash" {
        Ok(Request::Cash)
    } else if word == "quit" {
        Ok(Request::Quit)
    } else {
        Err(RequestFault::Syntax)
    }
}

/// Returns the request about an auction.
fn about(word: &str, number: Option<&Value>) -> Result<Request, RequestFault>
    ensures { result ≡ json.about word.now (option_map (λ v. view v.now) number.entry) }
{
    let Some(number) = number else {
        return Err(RequestFault::Syntax);
    };
    if word == "withdraw" {
        let good = good_of(number)?;
        Ok(Request::Withdraw { good })
    } else if word == "own" {
        let good = good_of(number)?;
        Ok(Request::Own { good })
    } else if word == "quote" {
        let good = good_of(number)?;
        Ok(Request::Quote { good })
    } else {
        Err(RequestFault::Syntax)
    }
}

/// Returns the request of an object with this many members, by the word at `do`.
fn asked_by(
    word: &str,
    count: usize,
    auction: Option<&Value>,
    points: Option<&Value>,
) -> Result<Request, RequestFault>
    ensures { result ≡ json.asked_by word.now count (option_map (λ v. view v.now) auction.entry) (option_map (λ v. view v.now) points.entry) }
{
    match count {
        1 => plain(word),
        2 => about(word, auction),
        3 => bid(word, auction, points),
        _ => Err(RequestFault::Syntax),
    }
}

/// Returns how many members an object has.
fn count_members(members: &Map<String, Value>) -> usize
    ensures { result ≡ json.count_members (members_view members.now.entries) }
{
    members.len()
}

/// Returns the request of a value, or its fault.
fn asked_by_value(value: &Value) -> Result<Request, RequestFault>
    ensures { result ≡ json.asked_by_value (Some (view value.now)) }
{
    let Some(members) = value.as_object() else {
        return Err(RequestFault::Syntax);
    };
    let count = count_members(members);
    let Some(word) = value.get("do").and_then(Value::as_str) else {
        return Err(RequestFault::Syntax);
    };
    asked_by(word, count, value.get("auction"), value.get("points"))
}

/// Returns the request of a line, or the first fault; `Memory` means that a memory allocation failed.
pub(crate) fn read_line(alloc: Global, line: &[u8]) -> Result<Request, RequestFault>
    ensures { (result ≡ json.asks_json line.now) ⊎ (result ≡ Err Memory) }
{
    match Value::from_slice(alloc, line) {
        Ok(value) => asked_by_value(&value),
        Err(error) => if error.is_memory() {
            Err(RequestFault::Memory)
        } else {
            Err(RequestFault::Syntax)
        },
    }
}

/// The law of requests: the plain object of a request in range is read as that request.
pub fn one_json_request()
    ensures { (request : Request) → IsRequest request → json.asks_json (object_text request) ≡ Ok request }
{}
