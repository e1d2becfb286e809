ghost use Rattle.std.specs.Prelude.{◌≡◌, ◌≤◌, ◌<◌, ◌↔◌, length, IfOk, Ok, Err};
ghost use Rattle.bound_cert.specs.{IsCertReading, cert_text, Tree, IsCertificate, tree_of, forest_of};
ghost use Rattle.bound_cert.specs.Reading as reading;

use crate::faults::CertFault;
use crate::node_lines::{NodeLine, node_line_of};
use crate::trees::{Cert, CertNode};
use packages::value_count;
use std::alloc::Global;
use tac_base::limits::{CERTIFICATE_DEPTH, TEXT_BYTES};
use text_forms::{TextLines, at_line};

/// Returns the number of the next line, its content, and the lines after it.
fn node_line_in<'a>(lines: TextLines<'a>) -> Result<(u32, NodeLine, TextLines<'a>), CertFault>
    ensures { result ≡ reading.node_line_in lines.entry }
{
    let (line, left) = lines.due()?;
    let (node, left) = at_line(&line, node_line_of(line.bytes()), left)?;
    Ok((line.number(), node, left))
}

/// Reads a node and all below it, at most this many levels of splits, and also returns the lines after it.
#[cycle(reading)]
fn read_node<'a>(
    alloc: Global,
    level: u8,
    lines: TextLines<'a>,
) -> Result<(CertNode, TextLines<'a>), CertFault>
    ensures { IsCertReading (λ x. (tree_of x.0, x.1)) result (reading.tree_in level lines.entry) }
{
    let (number, node, left) = node_line_in(lines)?;
    match node {
        NodeLine::Leaf(prices) => Ok((CertNode::Leaf(prices), left)),
        NodeLine::Split { client, feature } => {
            if level == 0 {
                return Err(CertFault::Line {
                    line: number,
                    reason: 8,
                });
            }
            let (children, left) = read_children(alloc, level - 1, value_count(feature), left)?;
            Ok((
                CertNode::Split {
                    client,
                    feature,
                    children,
                },
                left,
            ))
        }
    }
}

/// Reads this many consecutive nodes, and returns them with the lines after them.
#[cycle(reading)]
fn read_children<'a>(
    alloc: Global,
    level: u8,
    count: u8,
    lines: TextLines<'a>,
) -> Result<(Vec<CertNode>, TextLines<'a>), CertFault>
    ensures { IsCertReading (λ x. (forest_of x.0.items, x.1)) result (reading.forest_by (reading.tree_in level) count lines.entry) }
{
    let mut children = Vec::new(alloc);
    let mut left = lines;
    for _i in 0..count {
        let (child, after) = read_node(alloc, level, left)?;
        if children.push(child).is_err() {
            return Err(CertFault::Memory);
        }
        left = after;
    }
    Ok((children, left))
}

/// Reads a node and all below it; no line may be left then.
fn root_in(alloc: Global, lines: TextLines<'_>) -> Result<CertNode, CertFault>
    ensures { IsCertReading tree_of result (reading.root_in lines.entry) }
{
    let (root, left) = read_node(alloc, CERTIFICATE_DEPTH, lines)?;
    left.finish()?;
    Ok(root)
}

/// Returns the root of the certificate in a text.
fn root_of(alloc: Global, text: &[u8]) -> Result<CertNode, CertFault>
    ensures exact { IsCertReading tree_of result (reading.cert_of text.now) }
    ensures too_long { (result ≡ Err CertFault.TooLong) ↔ (TEXT_BYTES < length text.now) }
{
    if text.len() > TEXT_BYTES as usize {
        return Err(CertFault::TooLong);
    }
    root_in(alloc, TextLines::new(text))
}

/// Reads a certificate from its text. It is at most 32 splits deep, whatever the text is.
pub fn read_cert(alloc: Global, text: &[u8]) -> Result<Cert, CertFault>
    // The result is the certificate, or the first bad line and its reason, unless an allocation failed.
    ensures exact { IsCertReading (λ cert. tree_of cert.root) result (reading.cert_of text.now) }
    ensures too_long { (result ≡ Err CertFault.TooLong) ↔ (TEXT_BYTES < length text.now) }
    // The text is the canonical text of the certificate.
    ensures same { IfOk result (λ cert. text.now ≡ cert_text (tree_of cert.root)) }
    // Each text of a certificate is read as that certificate.
    ensures only { (tree : Tree) → IsCertificate tree → length text.now ≤ TEXT_BYTES → text.now ≡ cert_text tree → reading.cert_of text.now ≡ Ok tree }
{
    let root = root_of(alloc, text)?;
    Ok(Cert { root })
}
