ghost use Rattle.std.specs.Prelude.{◌≡◌, ◌<◌, ◌==◌, pos, ◌≤ℤ◌, slice_index_or, length, map, unsigned_abs, IsTrue};
ghost use Rattle.std.specs.List.{list_all, list_any};
ghost use Rattle.game_text.specs.ClosingOrders as orders;
ghost use Rattle.text_forms.specs.Rows as rows;

use crate::numbers::byte_at;
use tac_base::Good;
use text_forms::{Column, Reason, read_row};

/// Returns whether the good is among the goods.
fn contains(goods: &[Good], good: Good) -> bool
    ensures { result ≡ list_any (λ other. other == good) goods.now }
{
    goods.iter().any(|other| *other == good)
}

/// Returns whether no good occurs twice.
fn is_distinct(goods: &[Good]) -> bool
    ensures { result ≡ orders.is_distinct goods.now }
{
    for (i, good) in goods.iter().enumerate() {
        if contains(&goods[i + 1..], *good) {
            return false;
        }
    }
    true
}

/// Returns the good with the i-th number.
fn good_at(numbers: &[i64], i: usize) -> Good
    requires index { i < length numbers.now }
    requires low { pos 0 ≤ℤ slice_index_or numbers.now i (pos 0) }
    requires high { slice_index_or numbers.now i (pos 0) ≤ℤ pos 27 }
    ensures { result ≡ unsigned_abs (slice_index_or numbers.now i (pos 0)) }
{
    Good::new(byte_at(numbers, i)).unwrap()
}

/// Returns the goods with a row's numbers.
fn goods_of(numbers: &[i64]) -> [Good; 8]
    requires count { length numbers.now ≡ 8 }
    requires range { IsTrue (list_all (λ n. rows.is_in (rows.within 8 15) n) numbers.now) }
    ensures { result ≡ map unsigned_abs numbers.now }
{
    let mut goods = [Good::default(); 8];
    for i in 0..8 {
        goods[i] = good_at(numbers, i);
    }
    goods
}

fn order_from(numbers: &[i64]) -> Result<[Good; 8], Reason>
    requires count { length numbers.now ≡ 8 }
    requires range { IsTrue (rows.all_in orders.order_columns numbers.now) }
    ensures { result ≡ orders.order_from numbers.now }
{
    let order = goods_of(numbers);
    if is_distinct(&order) {
        Ok(order)
    } else {
        Err(Reason::Repeated)
    }
}

/// Returns the closing order of a line, or the first reason that applies.
#[tactic(auto, unfolding(crate::specs::ClosingOrders::order_of))]
pub(crate) fn order_of(line: &[u8]) -> Result<[Good; 8], Reason>
    ensures { result ≡ orders.order_of line.now }
{
    let numbers = read_row(line, b"close", &[Column::within(8, 15); 8])?;
    order_from(&numbers)
}

/// Returns the numbers of the closing order's line.
pub(crate) fn order_numbers(order: &[Good; 8]) -> [i64; 8]
    ensures { result ≡ map pos order.now }
{
    let mut numbers = [0; 8];
    for (i, good) in order.iter().enumerate() {
        numbers[i] = i64::from(good.get());
    }
    numbers
}
