ghost use Rattle.std.specs.Prelude.{◌≡◌, ◌+◌, ◌<◌, ◌≤◌, [], ◌∷◌, ◌++◌, length, IfOk, IfSome, IsTrue, OnOk, OnErr};
ghost use Rattle.std.specs.Fmt.{signed_decimal};
ghost use Rattle.text_forms.specs.{GoesOn, words_of};
ghost use Rattle.text_forms.specs.Rows as rows;

use crate::{Reason, Words};
use std::alloc::AllocError;
use tac_base::limits::CASH_DIGITS;
use tac_base::{Text, print_signed, read_numeral, read_signed};

/// How many digits a numeral of a row may have.
#[derive(Clone, Copy, Debug, PartialEq, Eq)]
pub enum Digits {
    /// At most ten.
    Ten,
    /// At most 18, for an amount of cash.
    Eighteen,
}

impl Digits {
    /// Returns the most digits.
    pub fn most(self) -> u8
        ensures value { result ≡ rows.most_digits self }
        ensures bound { result ≤ CASH_DIGITS }
    {
        match self {
            Digits::Ten => 10,
            Digits::Eighteen => CASH_DIGITS,
        }
    }
}

/// The numbers that a place of a row admits: numerals of at most this many digits, signed or not, in a range.
#[derive(Clone, Copy, Debug, PartialEq, Eq)]
pub struct Column {
    pub signed: bool,
    pub digits: Digits,
    pub low: i64,
    pub high: i64,
}

impl Column {
    /// Returns the column of the unsigned numerals of at most ten digits in a range.
    pub fn within(low: u32, high: u32) -> Self
        ensures { result ≡ rows.within low high }
    {
        Column {
            signed: false,
            digits: Digits::Ten,
            low: i64::from(low),
            high: i64::from(high),
        }
    }
}

/// Returns the number of a word in a column.
fn number_of(column: &Column, word: &[u8]) -> Option<i64>
    ensures { result ≡ rows.number_in_column column.now word.now }
{
    if column.signed {
        read_signed(word, column.digits.most())
    } else {
        Some(read_numeral(word, column.digits.most())? as i64)
    }
}

/// Returns the numbers of the words, each in its column.
fn numbers_of<const N: usize>(columns: &[Column; N], mut words: Words<'_>) -> Option<[i64; N]>
    ensures { result ≡ rows.numbers_of columns.now words.entry }
{
    let mut numbers = [0; N];
    for (i, column) in columns.iter().enumerate() {
        let Some(word) = words.next() else {
            return None;
        };
        numbers[i] = number_of(column, word)?;
    }
    Some(numbers)
}

/// Returns whether a number is in the range of its column.
fn is_in(column: &Column, number: i64) -> bool
    ensures { result ≡ rows.is_in column.now number }
{
    column.low <= number && number <= column.high
}

/// Returns whether each number is in the range of its column.
fn all_in(columns: &[Column], numbers: &[i64]) -> bool
    ensures { result ≡ rows.all_in columns.now numbers.now }
{
    columns
        .iter()
        .zip(numbers)
        .all(|(column, number)| is_in(column, *number))
}

/// Returns the numbers, or the reason why the words are not numbers of the row.
fn in_range<const N: usize>(
    columns: &[Column; N],
    numbers: Option<[i64; N]>,
) -> Result<[i64; N], Reason>
    ensures value { result ≡ rows.in_range columns.now numbers.entry }
    ensures range { IfOk result (λ numbers. IsTrue (rows.all_in columns.now numbers)) }
{
    match numbers {
        None => Err(Reason::Spelling),
        Some(numbers) => {
            if all_in(columns, &numbers) {
                Ok(numbers)
            } else {
                Err(Reason::OutOfRange)
            }
        }
    }
}

/// Returns the numbers of a line with a keyword and a number for each column, or the first reason that applies.
#[tactic(auto, unfolding(crate::specs::Rows::row))]
pub fn read_row<const N: usize>(
    line: &[u8],
    keyword: &[u8],
    columns: &[Column; N],
) -> Result<[i64; N], Reason>
    ensures value { result ≡ rows.row keyword.now columns.now line.now }
    ensures range { IfOk result (λ numbers. IsTrue (rows.all_in columns.now numbers)) }
{
    let mut words = Words::new(line);
    let Some(first) = words.next() else {
        return Err(Reason::Keyword);
    };
    if first != keyword {
        return Err(Reason::Keyword);
    }
    if words.count() != N {
        return Err(Reason::WordCount);
    }
    in_range(columns, numbers_of(columns, words))
}

/// Appends a number after a space. After an error the text is unchanged.
fn print_number(out: &mut Vec<u8>, number: i64) -> Result<(), AllocError>
    ensures added { OnOk result (out.new.items ≡ out.old.items ++ 32 ∷ signed_decimal number) }
    ensures kept { OnErr result (out.new.items ≡ out.old.items) }
{
    let mut text = Text::new();
    text.push(b' ');
    print_signed(number, &mut text);
    out.extend_from_slice(text.as_slice())?;
    Ok(())
}

/// Appends a line of a keyword and numbers, with its line end.
/// After an error the text may end within the line.
pub fn print_row(out: &mut Vec<u8>, keyword: &[u8], numbers: &[i64]) -> Result<(), AllocError>
    ensures added { OnOk result (out.new.items ≡ out.old.items ++ (rows.row_text keyword.now numbers.now ++ 10 ∷ [])) }
    ensures part { OnErr result (GoesOn out.old.items out.new.items) }
{
    out.extend_from_slice(keyword)?;
    for number in numbers {
        print_number(out, *number)?;
    }
    out.push(b'\n')?;
    Ok(())
}
