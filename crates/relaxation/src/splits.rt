// The feature by which a search splits next.
ghost use Rattle.std.specs.Prelude.{◌≡◌, ◌/◌, ◌%◌, ◌<◌, ◌≤◌, None, is_some, IfNone, IfSome};
ghost use Rattle.relaxation.specs.Splits.{fixed_at, IsFull};

use crate::branching::{first_place, greatest};
use crate::charges::charge;
use crate::columns::GOOD_ROWS;
use crate::relaxing::Relaxation;
use crate::rounding::row_of;
use crate::tableau::{Row, TOLERANCE};
use packages::Prices;

/// A number greater than what any split leaves to search.
const MOST_LEFT: f64 = 1.0e30;

/// The unit in dollars of small moves of prices: each good's price moves by a different number of units, 121 to 1,444.
const MOVED: f64 = 0.00001;

/// A number below the margin of any package that is left.
const LEAST_MARGIN: f64 = -1000000.0;

/// A client, 0..7, and a feature of its package, 0..3.
#[derive(Clone, Copy, Debug, PartialEq, Eq)]
pub struct Split {
    pub client: u8,
    pub feature: u8,
}

/// How a search chooses the next split. Accounts differ in which rule leaves fewer parts.
#[derive(Clone, Copy)]
pub enum SplitRule {
    /// The split whose parts are worth least beyond the total.
    LeastLeft,
    /// The split with the greatest branching priority: a trip before a ticket. If clients want the same goods, one replaces another and no
    /// part is worth less until trips are fixed. The worth of parts then does not tell which split is better.
    GreatestPriority,
}

/// What packages cost at whole prices, and the bound that these prices give, both in dollars, up to rounding errors.
#[derive(Clone, Copy)]
struct Priced {
    charges: [f64; 393],
    bound: f64,
}

/// What packages cost at the prices of the relaxation, and after those prices that are not whole move a little up or down.
#[derive(Drop)]
struct Moved {
    at: [f64; 393],
    above: [f64; 393],
    below: [f64; 393],
}

/// The parts of a split that prices leave open. The lesser of two splits leaves less to search.
#[derive(Clone, Copy, PartialEq, Eq, PartialOrd, Ord)]
struct OpenParts {
    /// Whether in some part the ties that keep prices of the relaxation from whole dollars are as many as in all parts together.
    is_tied: bool,
    /// Whether the split gives the prices of the relaxation no more room than they have.
    is_tight: bool,
    /// How many parts are open, at most 21.
    count: u8,
}

impl Split {
    /// Returns the client and the feature at a place 0..31; there are four features for each client.
    fn at(place: usize) -> Split
        requires { place < 32 }
        ensures client { result.client ≡ place / 4 }
        ensures feature { result.feature ≡ place % 4 }
    {
        Split {
            client: (place / 4) as u8,
            feature: (place % 4) as u8,
        }
    }

    /// Returns whether the client's feature has a fixed value. The client must be 0..7 and the feature 0..3.
    pub fn is_fixed(self, fixed: &[[Option<u8>; 4]; 8]) -> bool
        requires client { self.client < 8 }
        requires feature { self.feature < 4 }
        ensures { result ≡ is_some (fixed_at fixed.now self.client self.feature) }
    {
        let values = &fixed[usize::from(self.client)];
        values[usize::from(self.feature)].is_some()
    }
}

impl Relaxation {
    /// Returns the feature of a client to split by next, among those that are not fixed; `None` if all are fixed. The rule selects it. But if
    /// the relaxation is not worth more than a total in dollars, or no feature has a branching priority, it is the one with the fewest parts
    /// open at the prices. `fixed` has a fixed value or `None` for each client 0..7 and feature 0..3.
    #[inline(never)]
    pub fn next_split(
        &self,
        rule: SplitRule,
        fixed: &[[Option<u8>; 4]; 8],
        prices: &Prices,
        total: u32,
    ) -> Option<Split>
        ensures client { IfSome result (λ split. split.client < 8) }
        ensures feature { IfSome result (λ split. split.feature < 4) }
        ensures free { IfSome result (λ split. fixed_at fixed.now split.client split.feature ≡ None) }
        ensures full { IfNone result (IsFull fixed.now) }
    {
        if self.is_worth_more(total) {
            let found = match rule {
                SplitRule::LeastLeft => self.least_split(fixed, prices, f64::from(total)),
                SplitRule::GreatestPriority => self.first_split(fixed),
            };
            if found.is_some() {
                return found;
            }
        }
        self.least_open(fixed, prices, f64::from(total))
    }

    /// Returns the split with the greatest branching priority among those that are not fixed, if one has any.
    fn first_split(&self, fixed: &[[Option<u8>; 4]; 8]) -> Option<Split>
        ensures client { IfSome result (λ split. split.client < 8) }
        ensures feature { IfSome result (λ split. split.feature < 4) }
        ensures free { IfSome result (λ split. fixed_at fixed.now split.client split.feature ≡ None) }
    {
        let mut priorities = self.priorities();
        for _ in 0..32 {
            let place = first_place(&priorities)?;
            priorities[place] = 0.0;
            let split = Split::at(place);
            if !split.is_fixed(fixed) {
                return Some(split);
            }
        }
        None
    }

    /// Returns the split that leaves least to search among those with a branching priority. It looks at those with the greatest priority
    /// first, so that it can soon stop looking at each of the others.
    fn least_split(
        &self,
        fixed: &[[Option<u8>; 4]; 8],
        prices: &Prices,
        total: f64,
    ) -> Option<Split>
        ensures client { IfSome result (λ split. split.client < 8) }
        ensures feature { IfSome result (λ split. split.feature < 4) }
        ensures free { IfSome result (λ split. fixed_at fixed.now split.client split.feature ≡ None) }
    {
        let priced = self.priced(prices);
        let mut best = None;
        let mut least = MOST_LEFT;
        let mut priorities = self.priorities();
        for _ in 0..32 {
            let Some(place) = first_place(&priorities) else {
                return best;
            };
            priorities[place] = 0.0;
            let split = Split::at(place);
            let is_free = !split.is_fixed(fixed);
            if is_free {
                let after = self.after_split(place / 4, place % 4, &priced, total, least);
                if after < least {
                    best = Some(split);
                    least = after;
                }
            }
        }
        best
    }

    /// Returns the split with the fewest parts open. Splits that keep the ties between prices that are not whole come after all others, and
    /// among equal ones those that give the prices no more room.
    fn least_open(&self, fixed: &[[Option<u8>; 4]; 8], prices: &Prices, total: f64) -> Option<Split>
        ensures client { IfSome result (λ split. split.client < 8) }
        ensures feature { IfSome result (λ split. split.feature < 4) }
        ensures free { IfSome result (λ split. fixed_at fixed.now split.client split.feature ≡ None) }
        ensures full { IfNone result (IsFull fixed.now) }
    {
        let priced = self.priced(prices);
        let mut moved = Moved {
            at: [0.0; 393],
            above: [0.0; 393],
            below: [0.0; 393],
        };
        self.charge_moved(&mut moved);
        let mut best = None;
        let mut least = OpenParts {
            is_tied: true,
            is_tight: true,
            count: 21,
        };
        for place in 0..32 {
            let split = Split::at(place);
            if !split.is_fixed(fixed) {
                let open = self.open_parts(place / 4, place % 4, &priced, &moved, total);
                if best.is_none() || open < least {
                    best = Some(split);
                    least = open;
                }
            }
        }
        best
    }

    /// Returns how much a split by a client's feature leaves to search: for each part that whole prices do not bound by a total in
    /// dollars, 1 plus the square of the dollars that its relaxation is worth beyond the total. It looks at no more parts once the
    /// sum has reached `most`.
    fn after_split(
        &self,
        client: usize,
        feature: usize,
        priced: &Priced,
        total: f64,
        most: f64,
    ) -> f64
        requires client { client < 8 }
        requires feature { feature < 4 }
    {
        let bounds = self.bounds_of_parts(client, feature, priced);
        let mut sum = 0.0;
        for value in 0..21 {
            if bounds[usize::from(value)] > total + TOLERANCE && sum < most {
                let more = self.value_of_part(client, feature, value, total) - total;
                if more > TOLERANCE {
                    sum += 1.0 + more * more;
                }
            }
        }
        sum
    }

    /// Returns the parts of a split by a client's feature in which whole prices leave more than a total in dollars.
    fn open_parts(
        &self,
        client: usize,
        feature: usize,
        priced: &Priced,
        moved: &Moved,
        total: f64,
    ) -> OpenParts
        requires client { client < 8 }
        requires feature { feature < 4 }
        ensures { result.count ≤ 21 }
    {
        let mut count = 0;
        for bound in &self.bounds_of_parts(client, feature, priced) {
            if *bound > total + TOLERANCE {
                count += 1;
            }
        }
        let at = self.best_margins(client, feature, &moved.at);
        OpenParts {
            is_tied: !self.unties(client, feature, moved, &at),
            is_tight: !self.gives_room(client, &at),
            count,
        }
    }

    /// Returns whether packages with several values of a client's feature gain as much at the prices of the relaxation as the client gains. Each
    /// such package keeps the prices from moving, and each part of a split excludes those with another value. `at` has each value's best margin.
    fn gives_room(&self, client: usize, at: &[f64; 21]) -> bool
        requires { client < 8 }
    {
        let mut count: u8 = 0;
        for margin in at {
            if *margin > self.tableau.prices[GOOD_ROWS + client] - TOLERANCE {
                count += 1;
            }
        }
        count > 1
    }

    /// Returns whether each part of a split has a smaller bend than all of the client's packages together. A client's gain is convex in the
    /// prices. It bends where the best packages use different goods at prices that are not whole, which keeps these prices from whole dollars.
    fn unties(&self, client: usize, feature: usize, moved: &Moved, at: &[f64; 21]) -> bool
        requires client { client < 8 }
        requires feature { feature < 4 }
    {
        let above = self.best_margins(client, feature, &moved.above);
        let below = self.best_margins(client, feature, &moved.below);
        let best = greatest(at);
        let bend = greatest(&above) + greatest(&below) - 2.0 * best;
        let mut most = 0.0;
        for value in 0..21 {
            let is_best = at[value] > best - TOLERANCE;
            let left = above[value] + below[value] - 2.0 * at[value];
            if is_best && left > most {
                most = left;
            }
        }
        most < bend - TOLERANCE
    }

    /// Stores what packages cost at the prices of the relaxation, and near them.
    fn charge_moved(&self, moved: &mut Moved) {
        let features = &self.worths.features;
        charge(&mut moved.at, features, &self.tableau.prices);
        charge(&mut moved.above, features, &self.prices_moved(MOVED));
        charge(&mut moved.below, features, &self.prices_moved(-MOVED));
    }

    /// Returns the prices of the relaxation after those that are not whole move, each by the square of a different number: sums of squares rarely
    /// agree, so packages that use different goods move apart.
    fn prices_moved(&self, step: f64) -> Row {
        let mut prices = self.tableau.prices;
        let mut weight = 10.0;
        for good in 0..28 {
            weight += 1.0;
            if self.tableau.is_between(good) {
                prices[good] += step * weight * weight;
            }
        }
        prices
    }

    /// Returns what packages cost at whole prices, and the bound that these give, in dollars.
    fn priced(&self, prices: &Prices) -> Priced {
        let mut priced = Priced {
            charges: [0.0; 393],
            bound: self.bound_at(prices),
        };
        charge(&mut priced.charges, &self.worths.features, &row_of(prices));
        priced
    }

    /// Returns the bound that whole prices give in each part of a split by a client's feature, in dollars.
    fn bounds_of_parts(&self, client: usize, feature: usize, priced: &Priced) -> [f64; 21]
        requires client { client < 8 }
        requires feature { feature < 4 }
    {
        let mut margins = self.best_margins(client, feature, &priced.charges);
        let others = priced.bound - greatest(&margins);
        for value in 0..21 {
            margins[value] += others;
        }
        margins
    }

    /// Returns the most that a client's packages with each value of a feature are worth beyond their charges.
    fn best_margins(&self, client: usize, feature: usize, charges: &[f64; 393]) -> [f64; 21]
        requires client { client < 8 }
        requires feature { feature < 4 }
    {
        let mut margins = [LEAST_MARGIN; 21];
        let worths = self.worths.row(client);
        for number in 0..393 {
            let margin = f64::from(worths[number]) - charges[number];
            let value = usize::from(self.worths.features.value_of(number, feature));
            if margin > margins[value] {
                margins[value] = margin;
            }
        }
        margins
    }
}
