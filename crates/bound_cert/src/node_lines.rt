ghost use Rattle.std.specs.Prelude.{◌≡◌, map, unsigned_abs, IsTrue};
ghost use Rattle.std.specs.List.{list_all};
ghost use Rattle.text_forms.specs.Rows as rows;
ghost use Rattle.text_forms.specs.Words.{words_of};
ghost use Rattle.bound_cert.specs.NodeLines as nodes;

use packages::Prices;
use tac_base::limits::DUAL_PRICE;
use text_forms::{Column, Reason, Words, read_row};

/// The content of a node's line.
#[derive(Clone, Copy)]
pub(crate) enum NodeLine {
    Leaf(Prices),
    Split { client: u8, feature: u8 },
}

/// Returns whether the first word of a line is `leaf`.
fn is_leaf(line: &[u8]) -> bool
    ensures { result ≡ nodes.is_leaf (words_of line.now) }
{
    match Words::new(line).next() {
        None => false,
        Some(first) => first == b"leaf".as_slice(),
    }
}

/// Returns the prices of a row.
fn prices_of(numbers: &[i64; 28]) -> Prices
    requires { IsTrue (list_all (λ n. rows.is_in (rows.within 0 DUAL_PRICE) n) numbers.now) }
    ensures { result ≡ map unsigned_abs numbers.now }
{
    let mut dollars = [0; 28];
    for (good, number) in numbers.iter().enumerate() {
        dollars[good] = *number as u16;
    }
    Prices { dollars }
}

/// Returns the columns of a leaf's line.
fn leaf_columns() -> [Column; 28]
    ensures { result ≡ nodes.leaf_columns }
{
    [Column::within(0, u32::from(DUAL_PRICE)); 28]
}

/// Returns the leaf of a line, or the first reason that applies.
fn leaf_of(line: &[u8]) -> Result<NodeLine, Reason>
    ensures { result ≡ nodes.leaf_of line.now }
{
    let numbers = read_row(line, b"leaf", &leaf_columns())?;
    Ok(NodeLine::Leaf(prices_of(&numbers)))
}

/// Returns the split of a line, or the first reason that applies.
fn split_of(line: &[u8]) -> Result<NodeLine, Reason>
    ensures { result ≡ nodes.split_of line.now }
{
    let columns = [Column::within(0, 7), Column::within(0, 3)];
    let numbers = read_row(line, b"split", &columns)?;
    Ok(NodeLine::Split {
        client: numbers[0] as u8,
        feature: numbers[1] as u8,
    })
}

/// Returns the content of a node's line, or the first reason that applies.
pub(crate) fn node_line_of(line: &[u8]) -> Result<NodeLine, Reason>
    ensures { result ≡ nodes.node_line_of line.now }
{
    if is_leaf(line) {
        leaf_of(line)
    } else {
        split_of(line)
    }
}
