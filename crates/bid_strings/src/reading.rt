ghost use Rattle.std.specs.Prelude.{◌≡◌, ◌+◌, ◌-◌, ◌<◌, ◌≤◌, ◌==◌, ◌&&◌, nat_le, List, ℕ, Some, None, Ok, IfOk, IfErr, OnOk, [], ◌∷◌, ◌++◌, is_some, length, slice_index};
ghost use Rattle.bid_strings.specs.Prelude.{fault_of, left_fault, Point};
ghost use Rattle.bid_strings.specs.BidForm as bid_form;
ghost use Rattle.bid_strings.specs.Spelling.{spelling, IsBidString};

use std::marker::Model;
use tac_base::{BidDraft, BidFault, Points, read_numeral, read_signed};
use text_forms::Words;

/// A point as it was written, before any check of its limits.
#[derive(Debug, Drop)]
struct WrittenPoint {
    units: i64,
    price: u64,
}

impl Model for WrittenPoint {
    ghost use Rattle.tac_base.specs.declared.bids.Point.{Point};

    ghost Value = { Point };

    ghost view = { λ p. record { units = p.units; price = p.price } };
}

impl WrittenPoint {
    /// Adds the point to a bid, or returns the fault that it causes.
    fn add_to(&self, draft: &mut BidDraft) -> Result<(), BidFault>
        ensures fault { IfErr result (λ fault. left_fault (draft.old ++ self.now ∷ []) ≡ Some fault) }
        ensures ok { OnOk result (draft.new ≡ draft.old ++ self.now ∷ []) }
    {
        draft.push(self.units, self.price)
    }
}

/// Reads a bid from a text of points, each with units and a price in dollars, as `((2 150) (1 100))`. Returns `Syntax`
/// if the text lacks this form, and otherwise the first fault from the left, if any. This project defines form and limits.
pub fn read_points(text: &[u8]) -> Result<Points, BidFault>
    ensures exact { result ≡ bid_form.judged (bid_form.points_of text.now) }
    // A text that is read is the spelling of its points.
    ensures spelled { IfOk result (λ points. text.now ≡ spelling points) }
{
    points_of(text)
}

/// The law of bid strings: a text has the form of some points exactly if it is their spelling. So the printed text of a
/// bid is read as that bid.
pub fn one_spelling()
    ensures found { (text : List ℕ) (points : List Point) → bid_form.points_of text ≡ Some points → IsBidString text points }
    ensures only { (text : List ℕ) (points : List Point) → IsBidString text points → bid_form.points_of text ≡ Some points }
    ensures bids { (points : List Point) → fault_of points ≡ None → bid_form.judged (bid_form.points_of (spelling points)) ≡ Ok points }
{}

/// Reads the points of a text. Only this function unfolds the definition of its form.
#[tactic(auto, unfolding(crate::specs::BidForm::points_of))]
fn points_of(text: &[u8]) -> Result<Points, BidFault>
    ensures { result ≡ bid_form.judged (bid_form.points_of text.now) }
{
    if is_between(text) {
        points_in(Words::new(&text[1..text.len() - 1]))
    } else {
        Err(BidFault::Syntax)
    }
}

/// Returns whether the text is in parentheses.
fn is_between(text: &[u8]) -> bool
    ensures { result ≡ (nat_le 2 (length text.now) && (slice_index text.now 0 == 40 && bid_form.last text.now == 41)) }
{
    2 <= text.len() && text[0] == b'(' && text[text.len() - 1] == b')'
}

/// Returns the bid of the words, or what is wrong with them.
fn points_in(mut words: Words<'_>) -> Result<Points, BidFault>
    ensures { result ≡ bid_form.judged (bid_form.points_from words.entry) }
{
    let mut draft = BidDraft::new();
    while let Some(left) = words.next() {
        let Some(right) = words.next() else {
            return Err(BidFault::Syntax);
        };
        let Some(point) = point_of(left, right) else {
            return Err(BidFault::Syntax);
        };
        if let Err(fault) = point.add_to(&mut draft) {
            return Err(refusal(fault, words));
        }
    }
    finished(draft)
}

/// Returns the bid of the draft, or what is wrong with it.
fn finished(draft: BidDraft) -> Result<Points, BidFault>
    ensures { result ≡ bid_form.verdict draft (fault_of draft) }
{
    draft.finish()
}

/// Returns the point of two words: `(` and its units, its price and `)`.
#[tactic(auto, unfolding(crate::specs::BidForm::point_of))]
fn point_of(left: &[u8], right: &[u8]) -> Option<WrittenPoint>
    ensures { result ≡ bid_form.point_of left.now right.now }
{
    if left.is_empty() || right.is_empty() {
        return None;
    }
    if left[0] != b'(' || right[right.len() - 1] != b')' {
        return None;
    }
    let units = read_signed(&left[1..], 5)?;
    let price = read_numeral(&right[..right.len() - 1], 5)?;
    Some(WrittenPoint { units, price })
}

/// Returns the fault of a text in which a point has a fault and these words follow: `Syntax` if they lack the form.
fn refusal(fault: BidFault, words: Words<'_>) -> BidFault
    ensures { result ≡ bid_form.form_fault fault (bid_form.points_from words.entry) }
{
    if are_points(words) {
        fault
    } else {
        BidFault::Syntax
    }
}

/// Returns whether the words have the form of points.
fn are_points(mut words: Words<'_>) -> bool
    ensures { result ≡ is_some (bid_form.points_from words.entry) }
{
    while let Some(left) = words.next() {
        let Some(right) = words.next() else {
            return false;
        };
        if point_of(left, right).is_none() {
            return false;
        }
    }
    true
}
