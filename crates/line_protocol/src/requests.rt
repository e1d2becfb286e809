ghost use Rattle.std.specs.Prelude.{◌≡◌, ◌∷◌, [], ◌⊎◌, ℕ, List, Some, Ok, Err, IfOk};
ghost use Rattle.line_protocol.specs.Prelude.{numeral, points_of, judged};
ghost use Rattle.line_protocol.specs.declared.asking.Request.{Request};
ghost use Rattle.line_protocol.specs.Requests as asked;
ghost use Rattle.line_protocol.specs.RequestForms as forms;

use crate::{Request, RequestFault};
use bid_strings::read_points;
use tac_base::{Good, read_numeral};
use text_forms::Words;

/// Returns the good whose number the numeral gives.
fn good_of(word: &[u8]) -> Result<Good, RequestFault>
    ensures { result ≡ asked.read_good (numeral 5 word.now) }
{
    match read_numeral(word, 5) {
        None => Err(RequestFault::Syntax),
        Some(number) => good_at(number),
    }
}

/// Returns the good with a number.
fn good_at(number: u64) -> Result<Good, RequestFault>
    ensures { result ≡ asked.read_good (Some number) }
{
    if 27 < number {
        return Err(RequestFault::NoSuchAuction);
    }
    match Good::new(number as u8) {
        Ok(good) => Ok(good),
        Err(_) => Err(RequestFault::NoSuchAuction),
    }
}

/// Returns the request of a line of one word.
fn plain_of(keyword: &[u8]) -> Result<Request, RequestFault>
    ensures { result ≡ asked.plain_of keyword.now }
{
    if keyword == b"cash".as_slice() {
        Ok(Request::Cash)
    } else if keyword == b"quit".as_slice() {
        Ok(Request::Quit)
    } else {
        Err(RequestFault::Syntax)
    }
}

/// Returns the request of a line of a keyword and a number.
fn about_of(keyword: &[u8], number: &[u8]) -> Result<Request, RequestFault>
    ensures { result ≡ asked.about_of keyword.now (asked.read_good (numeral 5 number.now)) }
{
    if keyword == b"withdraw".as_slice() {
        let good = good_of(number)?;
        Ok(Request::Withdraw { good })
    } else if keyword == b"own".as_slice() {
        let good = good_of(number)?;
        Ok(Request::Own { good })
    } else if keyword == b"quote".as_slice() {
        let good = good_of(number)?;
        Ok(Request::Quote { good })
    } else {
        Err(RequestFault::Syntax)
    }
}

/// Returns the bid of a text of points in the auction of a good.
fn with_points(good: Good, points: &[u8]) -> Result<Request, RequestFault>
    ensures { result ≡ asked.with_points good (judged (points_of points.now)) }
{
    match read_points(points) {
        Ok(points) => Ok(Request::Bid { good, points }),
        Err(fault) => Err(RequestFault::Bid(fault)),
    }
}

/// Returns the request of a line of a keyword, a number and more text.
fn bid_of(keyword: &[u8], number: &[u8], points: &[u8]) -> Result<Request, RequestFault>
    ensures { result ≡ asked.bid_request keyword.now (asked.read_good (numeral 5 number.now)) points.now }
{
    if keyword == b"bid".as_slice() {
        let good = good_of(number)?;
        with_points(good, points)
    } else {
        Err(RequestFault::Syntax)
    }
}

/// Reads a request from a line without its line end, or returns the first fault: of the form of the line, then of the number
/// of the good, then of the points. This project defines the requests and their forms.
pub fn read_request(line: &[u8]) -> Result<Request, RequestFault>
    ensures exact { result ≡ asked.request_of line.now }
    // A line that is read is the text of its request, in range.
    ensures found { IfOk result (λ request. forms.IsRequestText line.now request) }
{
    request_of(line)
}

/// Returns the request of a line. Only this function unfolds the definition of a request.
#[tactic(auto, unfolding(crate::specs::Requests::request_of))]
fn request_of(line: &[u8]) -> Result<Request, RequestFault>
    ensures { result ≡ asked.request_of line.now }
{
    let mut words = Words::new(line);
    let Some(keyword) = words.next() else {
        return Err(RequestFault::Syntax);
    };
    let Some(number) = words.next() else {
        return plain_of(keyword);
    };
    match words.rest() {
        None => about_of(keyword, number),
        Some(points) => bid_of(keyword, number, points),
    }
}

/// The law of requests. If a line has one of the forms, its number and its points determine the result; any other line is
/// `Syntax`. A line that is read is the text of its request, and each text of a request is read as that request.
pub fn one_request()
    ensures formed { (form : forms.Form) → forms.IsForm form → asked.request_of (forms.form_text form) ≡ forms.answer_to form }
    ensures syntax { (line : List ℕ) → (asked.request_of line ≡ Err asked.syntax) ⊎ forms.HasForm line }
    ensures found { (line : List ℕ) (request : Request) → asked.request_of line ≡ Ok request → forms.IsRequestText line request }
    ensures only { (line : List ℕ) (request : Request) → forms.IsRequestText line request → asked.request_of line ≡ Ok request }
{}
