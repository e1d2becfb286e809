ghost use Rattle.std.specs.List.{list_all, list_any};
ghost use Rattle.std.specs.Hash as fed;
ghost use Rattle.std.specs.Cmp.{partial_equiv_from_equiv};
ghost use Rattle.std.specs.Cmp.Lexicographic.{nat_list_eq_equiv};
ghost use Rattle.std.specs.Cmp.Rules.{hashing};
ghost use Rattle.std.proofs.Common.{rules, ◌≡◌, ◌≤◌, ◌<◌, ◌-◌, ◌↔◌, ◌==◌, ◌∷◌, ◌++◌, length, replicate, IsTrue, IsOk, IfOk, IfSome, IfNone, Some, None, OnOk, [], false, if◌then◌else◌, bytes_eq};
ghost use Rattle.game_text.specs.SeatWords as seats;

use std::alloc::AllocError;
use std::hash::{Hash, Hasher};
use std::marker::Model;
use tac_base::OutOfRange;
use tac_base::limits::AGENTS;
use text_forms::{Reason, Words};

/// The word with which an agent takes its seat: 1 to 16 bytes of `a`..`z`, `0`..`9`. The project defines it.
#[derive(Clone, Copy, Debug)]
pub struct SeatWord {
    bytes: [u8; 16],
    len: u8,
}

impl Model for SeatWord {
    ghost use Rattle.std.specs.Prelude.{ℕ, ◌-◌, ◌++◌, List, length, replicate, take};
    ghost use Rattle.game_text.specs.{IsPadded, padded_again};

    ghost Value = { List ℕ };

    ghost view = { λ w. take w.len w.bytes };

    ghost invariant = { λ w. IsPadded w.bytes w.len };

    ghost inverse = { λ word. record { bytes = word ++ replicate (16 - length word) 0; len = length word } };

    ghost inverse_ok = { λ w h. padded_again (λ bytes len. record { bytes = bytes; len = len }) w.bytes w.len h };
}

/// Words are equal exactly if their bytes are.
impl PartialEq for SeatWord {
    ghost eq = { bytes_eq };

    ghost laws = { partial_equiv_from_equiv nat_list_eq_equiv };

    fn eq(&self, other: &Self) -> bool {
        self.as_slice() == other.as_slice()
    }
}

impl Eq for SeatWord {
    ghost laws = { nat_list_eq_equiv };
}

impl Hash for SeatWord {
    ghost hash_input = { λ word. fed.slice fed.u8 word };

    ghost respects_eq = { Prim.search (hashing, rules) };

    fn hash<H: Hasher>(&self, state: &mut H) {
        self.as_slice().hash(state);
    }
}

fn is_seat_byte(byte: u8) -> bool
    ensures { result ≡ seats.is_seat_byte byte }
{
    byte.is_ascii_lowercase() || byte.is_ascii_digit()
}

fn all_seat_bytes(text: &[u8]) -> bool
    ensures { result ≡ list_all seats.is_seat_byte text.now }
{
    text.iter().all(|b| is_seat_byte(*b))
}

fn is_seat_word(text: &[u8]) -> bool
    ensures { result ≡ seats.is_seat_word text.now }
{
    0 < text.len() && text.len() <= 16 && all_seat_bytes(text)
}

/// Returns the bytes of a short text, followed by zeros.
fn padded(text: &[u8]) -> [u8; 16]
    requires { length text.now ≤ 16 }
    ensures { result ≡ text.now ++ replicate (16 - length text.now) 0 }
{
    let mut bytes = [0; 16];
    bytes[..text.len()].copy_from_slice(text);
    bytes
}

/// Returns the seat word with a text, which must have the form of one.
fn seat_word(text: &[u8]) -> SeatWord
    requires { IsTrue (seats.is_seat_word text.now) }
    ensures { result ≡ text.now }
{
    SeatWord::new(text).unwrap()
}

impl SeatWord {
    /// Returns the seat word of a text, or `OutOfRange` exactly if the text does not have its form.
    pub fn new(text: &[u8]) -> Result<Self, OutOfRange>
        ensures form { IsOk result ↔ IsTrue (seats.is_seat_word text.now) }
        ensures value { IfOk result (λ word. word ≡ text.now) }
    {
        if is_seat_word(text) {
            Ok(SeatWord {
                bytes: padded(text),
                len: text.len() as u8,
            })
        } else {
            Err(OutOfRange)
        }
    }

    /// Returns the words `seat0` to `seat7`.
    pub fn numbered() -> [Self; 8]
        ensures { result ≡ seats.numbered_seats }
    {
        [
            seat_word(b"seat0"),
            seat_word(b"seat1"),
            seat_word(b"seat2"),
            seat_word(b"seat3"),
            seat_word(b"seat4"),
            seat_word(b"seat5"),
            seat_word(b"seat6"),
            seat_word(b"seat7"),
        ]
    }

    /// Returns the bytes of the word.
    pub fn as_slice(&self) -> &[u8]
        ensures value { result.now ≡ self.now }
        ensures form { IsTrue (seats.is_seat_word self.now) }
    {
        &self.bytes[..self.len as usize]
    }
}

/// Takes the next word, if it is a seat word.
fn next_seat(words: &mut Words<'_>) -> Option<SeatWord>
    requires { 0 < length words.old }
    ensures found { IfSome result (λ seat. (words.old ≡ seat ∷ words.new) × IsTrue (seats.is_seat_word seat)) }
    ensures none { IfNone result (list_all seats.is_seat_word words.old ≡ false) }
{
    match words.next() {
        None => None,
        Some(word) => SeatWord::new(word).ok(),
    }
}

/// Returns the eight words that are left, if each is a seat word.
fn all_seats(mut words: Words<'_>) -> Option<[SeatWord; 8]>
    requires { length words ≡ AGENTS }
    ensures { result ≡ (if list_all seats.is_seat_word words.entry then Some words.entry else None) }
{
    let Some(first) = next_seat(&mut words) else {
        return None;
    };
    let mut seats = [first; 8];
    for i in 1..8usize {
        let Some(seat) = next_seat(&mut words) else {
            return None;
        };
        seats[i] = seat;
    }
    Some(seats)
}

/// Returns whether the word is among the words.
fn contains(words: &[SeatWord], word: &[u8]) -> bool
    ensures { result ≡ list_any (λ other. bytes_eq other word.now) words.now }
{
    words.iter().any(|other| other.as_slice() == word)
}

/// Returns whether no word occurs twice.
fn are_distinct(words: &[SeatWord]) -> bool
    ensures { result ≡ seats.are_distinct words.now }
{
    for (i, word) in words.iter().enumerate() {
        if contains(&words[i + 1..], word.as_slice()) {
            return false;
        }
    }
    true
}

/// Returns the seat words of a line, or the first reason that applies.
#[tactic(auto, unfolding(crate::specs::SeatWords::seats_of))]
pub(crate) fn seats_of(line: &[u8]) -> Result<[SeatWord; 8], Reason>
    ensures { result ≡ seats.seats_of line.now }
{
    let mut words = Words::new(line);
    let Some(first) = words.next() else {
        return Err(Reason::Keyword);
    };
    if first != b"words".as_slice() {
        return Err(Reason::Keyword);
    }
    if words.count() != 8 {
        return Err(Reason::WordCount);
    }
    let Some(seats) = all_seats(words) else {
        return Err(Reason::Spelling);
    };
    if are_distinct(&seats) {
        Ok(seats)
    } else {
        Err(Reason::Repeated)
    }
}

/// Appends the line of the seat words. After an error the text may end within it.
pub(crate) fn print_seats(words: &[SeatWord; 8], out: &mut Vec<u8>) -> Result<(), AllocError>
    ensures { OnOk result (out.new.items ≡ out.old.items ++ (seats.seats_text words.now ++ 10 ∷ [])) }
{
    out.extend_from_slice(b"words")?;
    for word in words {
        print_word(word, out)?;
    }
    out.push(b'\n')?;
    Ok(())
}

/// Appends a word after a space. After an error the text may end within it.
fn print_word(word: &SeatWord, out: &mut Vec<u8>) -> Result<(), AllocError>
    ensures { OnOk result (out.new.items ≡ out.old.items ++ 32 ∷ word.now) }
{
    out.push(b' ')?;
    out.extend_from_slice(word.as_slice())?;
    Ok(())
}
