use std::marker::Model;

/// A price for each good, in whole dollars. This project defines that a price is at most 14001, one more than eight
/// clients' packages can be worth together.
#[derive(Clone, Copy, Debug, PartialEq, Eq)]
pub struct Prices {
    /// For goods 0..27, each 0..14001.
    pub dollars: [u16; 28],
}

impl Model for Prices {
    ghost use Rattle.std.specs.Prelude.{ℕ, List};
    ghost use Rattle.packages.specs.Prices.{ArePrices};

    ghost Value = { List ℕ };

    ghost view = { λ p. p.dollars };

    ghost invariant = { λ p. ArePrices p.dollars };

    ghost inverse = { λ dollars. record { dollars = dollars } };
}
