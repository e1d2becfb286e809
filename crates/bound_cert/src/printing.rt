ghost use Rattle.std.specs.Prelude.{◌≡◌, ◌+◌, ◌++◌, ◌≤◌, [], ◌∷◌, pos, map, length, OnOk, IfOk, Ok};
ghost use Rattle.bound_cert.specs.{TEXT_BYTES, text_of, parts_of, leaf_text, split_text, cert_of, tree_lines, forest_lines, cert_text, tree_of, forest_of};

use crate::trees::{Cert, CertNode};
use packages::Prices;
use std::alloc::{AllocError, Global};
use tac_base::Memory;
use text_forms::print_row;

/// Returns the numbers of a leaf's line.
fn leaf_numbers(prices: &Prices) -> [i64; 28]
    ensures { result ≡ map pos prices.now }
{
    let mut numbers = [0; 28];
    for (good, price) in prices.dollars.iter().enumerate() {
        numbers[good] = i64::from(*price);
    }
    numbers
}

/// Appends the line of a leaf. After an error the text may end within it.
fn print_leaf(prices: &Prices, out: &mut Vec<u8>) -> Result<(), AllocError>
    ensures { OnOk result (out.new.items ≡ out.old.items ++ (leaf_text prices.now ++ 10 ∷ [])) }
{
    print_row(out, b"leaf", &leaf_numbers(prices))
}

/// Appends the line of a split. After an error the text may end within it.
fn print_split(client: u8, feature: u8, out: &mut Vec<u8>) -> Result<(), AllocError>
    ensures { OnOk result (out.new.items ≡ out.old.items ++ (split_text client feature ++ 10 ∷ [])) }
{
    print_row(out, b"split", &[i64::from(client), i64::from(feature)])
}

/// Appends the lines of a part of a certificate. After an error the text may end within them.
#[cycle(printing)]
#[tactic(auto, using(crate::proofs::Views::views))]
fn print_node(node: &CertNode, out: &mut Vec<u8>) -> Result<(), AllocError>
    ensures { OnOk result (out.new.items ≡ out.old.items ++ text_of (tree_lines (tree_of node.now))) }
{
    match node {
        CertNode::Leaf(prices) => print_leaf(prices, out),
        CertNode::Split {
            client,
            feature,
            children,
        } => {
            print_split(*client, *feature, out)?;
            print_children(children, out)
        }
    }
}

/// Appends the lines of the children of a split. After an error the text may end within them.
#[cycle(printing)]
#[tactic(auto, using(crate::proofs::Views::views))]
fn print_children(children: &Vec<CertNode>, out: &mut Vec<u8>) -> Result<(), AllocError>
    ensures { OnOk result (out.new.items ≡ out.old.items ++ text_of (forest_lines (forest_of children.now.items))) }
{
    for child in children {
        print_node(child, out)?;
    }
    Ok(())
}

/// Returns the text of a certificate. `Memory` leaves no text.
pub fn print_cert(alloc: Global, cert: &Cert) -> Result<Vec<u8>, Memory>
    ensures text { IfOk result (λ text. text.items ≡ cert_text (tree_of cert.now.root)) }
    // The text has a line for each leaf and each split, and each line has its line end.
    ensures lines { IfOk result (λ text. length (parts_of 10 text.items) ≡ length (tree_lines (tree_of cert.now.root)) + 1) }
    // If the text is within the limit of reading, reading it gives the same certificate.
    ensures again { IfOk result (λ text. length text.items ≤ TEXT_BYTES → cert_of text.items ≡ Ok (tree_of cert.now.root)) }
{
    let mut out = Vec::new(alloc);
    print_node(&cert.root, &mut out)?;
    Ok(out)
}
