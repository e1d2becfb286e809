// Parts of a search that are like others: clients to whom all packages are worth the same may be exchanged.
ghost use Rattle.std.specs.Prelude.{◌≡◌, ◌<◌, None, IfSome};
ghost use Rattle.relaxation.specs.Splits.{fixed_at};

use bound_cert::CertNode;
use dual_bound::Choice;
use packages::Prices;
use relaxation::{Split, WorthTable};

/// What may help to search a part. The search tests a certificate from a hint like any other, so a wrong hint costs only time.
#[derive(Clone, Copy)]
pub(crate) enum Hint<'a> {
    /// Nothing is known.
    Nothing,
    /// The part has this value of a split. The parts of lesser values were searched. The worths are those before the split.
    Part {
        before: &'a [CertNode],
        split: Split,
        value: u8,
        worths: &'a WorthTable,
    },
    /// The certificate of a part that is the same except that two clients are exchanged.
    Like {
        node: &'a CertNode,
        one: u8,
        other: u8,
    },
}

/// Whether each package is worth the same to two clients, 0..7.
fn are_alike(worths: &WorthTable, one: u8, other: u8) -> bool
    requires one { one < 8 }
    requires other { other < 8 }
{
    for number in 0..393 {
        let worth = worths.dollars[393 * usize::from(one) + number];
        if worth != worths.dollars[393 * usize::from(other) + number] {
            return false;
        }
    }
    true
}

/// Whether a client, 0..7, is like the one that was split before.
fn is_like(worths: &WorthTable, client: u8, split: Split) -> bool
    requires { client < 8 }
{
    client != split.client && split.client < 8 && are_alike(worths, client, split.client)
}

/// In a part of a split by a client's feature, returns the split by that feature of the first client that is like it and has the feature free.
pub(crate) fn like_split(choice: &Choice, hint: Hint<'_>) -> Option<Split>
    ensures client { IfSome result (λ split. split.client < 8) }
    ensures feature { IfSome result (λ split. split.feature < 4) }
    ensures free { IfSome result (λ split. fixed_at choice.now split.client split.feature ≡ None) }
{
    let Hint::Part { split, worths, .. } = hint else {
        return None;
    };
    let feature = split.feature;
    if feature > 3 {
        return None;
    }
    for client in 0..8 {
        let other = Split { client, feature };
        if !other.is_fixed(&choice.fixed) && is_like(worths, client, split) {
            return Some(other);
        }
    }
    None
}

/// Returns the part of a certificate that has this value, if the certificate splits by this client's feature.
fn part_of(node: &CertNode, split: Split, value: u8) -> Option<&CertNode> {
    match node {
        CertNode::Split {
            client,
            feature,
            children,
        } if *client == split.client && *feature == split.feature => children.get(usize::from(
            value,
        )),
        _ => None,
    }
}

/// Returns the split with two clients exchanged.
fn exchanged(split: Split, one: u8, other: u8) -> Split {
    let client = if split.client == one {
        other
    } else if split.client == other {
        one
    } else {
        split.client
    };
    Split {
        client,
        feature: split.feature,
    }
}

/// Returns what a part of a split with this value is like, if a hint for the split shows it. If two clients are alike, a part in which the
/// first has one value and the second another is like the part with the values exchanged.
fn like_part<'a>(hint: Hint<'a>, split: Split, value: u8) -> Option<Hint<'a>> {
    match hint {
        Hint::Nothing => None,
        Hint::Part {
            before,
            split: last,
            value: last_value,
            worths,
        } => {
            let is_exchange = value < last_value && split.feature == last.feature;
            if !is_exchange || split.client > 7 || !is_like(worths, split.client, last) {
                return None;
            }
            let first = before.get(usize::from(value))?;
            let node = part_of(first, split, last_value)?;
            Some(Hint::Like {
                node,
                one: last.client,
                other: split.client,
            })
        }
        Hint::Like { node, one, other } => {
            let node = part_of(node, exchanged(split, one, other), value)?;
            Some(Hint::Like { node, one, other })
        }
    }
}

/// Returns a hint for the part of a split with this value, once the lesser values are searched. The worths are those before the split.
pub(crate) fn hint_of_part<'a>(
    hint: Hint<'a>,
    split: Split,
    value: u8,
    before: &'a [CertNode],
    worths: &'a WorthTable,
) -> Hint<'a> {
    match like_part(hint, split, value) {
        Some(part) => part,
        None => Hint::Part {
            before,
            split,
            value,
            worths,
        },
    }
}

/// Returns the split of the part that a hint says is like this one, with the clients exchanged, if it is split and the feature is free here.
pub(crate) fn copied_split(choice: &Choice, hint: Hint<'_>) -> Option<Split>
    ensures client { IfSome result (λ split. split.client < 8) }
    ensures feature { IfSome result (λ split. split.feature < 4) }
    ensures free { IfSome result (λ split. fixed_at choice.now split.client split.feature ≡ None) }
{
    let Hint::Like { node, one, other } = hint else {
        return None;
    };
    let CertNode::Split {
        client,
        feature,
        ..
    } = node
    else {
        return None;
    };
    let (client, feature) = (*client, *feature);
    let split = exchanged(Split { client, feature }, one, other);
    if split.client < 8 && split.feature < 4 && !split.is_fixed(&choice.fixed) {
        Some(split)
    } else {
        None
    }
}

/// Returns the prices of the part that a hint says is like this one, if that part is not split.
pub(crate) fn copied_prices<'a>(hint: Hint<'a>) -> Option<&'a Prices> {
    match hint {
        Hint::Like {
            node: CertNode::Leaf(prices),
            ..
        } => Some(prices),
        _ => None,
    }
}
