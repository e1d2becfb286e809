// The branching priorities of features, and the feature that a dive fixes next.
ghost use Rattle.std.specs.Prelude.{◌≡◌, ◌<◌, false, IfSome, IsTrue};
ghost use Rattle.packages.specs.Features.{values_of};
ghost use Rattle.relaxation.specs.Tables.{IsNarrowedSomewhere};

use crate::relaxing::Relaxation;
use crate::tableau::TOLERANCE;
use packages::value_count;

/// The most basic variables that are pivoted out to estimate the worth of a part of a split.
const MOST_TRIED: u32 = 8;

impl Relaxation {
    /// Returns the branching priority of a client's feature, 0..3: 0 if the feature has one value, and otherwise more for a trip than for a
    /// ticket, and more if no value has a large share.
    fn branching_priority(&self, client: usize, feature: usize) -> f64
        requires { feature < 4 }
    {
        let undecided = 1.0 - greatest(&self.shares(client, feature));
        if undecided < TOLERANCE {
            0.0
        } else if feature == 0 {
            1.0 + undecided
        } else {
            undecided
        }
    }

    /// Returns the branching priority of the client's feature at each place 0..31; there are four features for each client.
    pub(crate) fn priorities(&self) -> [f64; 32] {
        let mut priorities = [0.0; 32];
        for place in 0..32 {
            priorities[place] = self.branching_priority(place / 4, place % 4);
        }
        priorities
    }

    /// Fixes the feature of the greatest branching priority to the value with a share whose part is worth most, and solves what is left,
    /// far enough to tell whether it is worth more than a total in dollars. If it already is not worth more, or there is no such
    /// feature, returns `false` and changes nothing.
    pub fn decide(&mut self, total: u32) -> bool
        ensures decided { IsTrue result → IsNarrowedSomewhere self.old.worths.dollars self.new.worths.dollars }
        ensures undecided { result ≡ false → self.new ≡ self.old }
    {
        if !self.is_worth_more(total) {
            return false;
        }
        let Some(place) = first_place(&self.priorities()) else {
            return false;
        };
        let (client, feature) = (place / 4, place % 4);
        let value = self.best_value(client, feature, f64::from(total));
        self.worths.narrow(client, feature, value);
        self.repair(total);
        true
    }

    /// Returns the value of a client's feature, 0..3, whose part is worth most, among those with a share. Often two values have half a
    /// share each, and only what each of them leaves tells which one to keep.
    fn best_value(&self, client: usize, feature: usize, total: f64) -> u8
        requires client { client < 8 }
        requires feature { feature < 4 }
        ensures { result < values_of feature }
    {
        let shares = self.shares(client, feature);
        let mut found = 0;
        let mut most = -1.0;
        for value in 0..value_count(feature as u8) {
            if shares[usize::from(value)] > TOLERANCE {
                let worth = self.value_of_part(client, feature, value, total);
                if worth > most {
                    most = worth;
                    found = value;
                }
            }
        }
        found
    }

    /// Returns what the relaxation of one part of a split is worth in dollars, computed only as far as it exceeds a total in dollars.
    #[inline(never)]
    pub(crate) fn value_of_part(&self, client: usize, feature: usize, value: u8, total: f64) -> f64
        requires client { client < 8 }
        requires feature { feature < 4 }
    {
        let mut worths = self.worths;
        worths.narrow(client, feature, value);
        let mut tableau = self.tableau;
        tableau.repair(&worths, total, MOST_TRIED);
        tableau.value()
    }
}

/// Returns the place of the greatest branching priority, if one is above 0.
pub(crate) fn first_place(priorities: &[f64; 32]) -> Option<usize>
    ensures { IfSome result (λ place. place < 32) }
{
    let mut found = None;
    let mut most = 0.0;
    for place in 0..32 {
        if priorities[place] > most {
            found = Some(place);
            most = priorities[place];
        }
    }
    found
}

/// Returns the greatest number.
pub(crate) fn greatest(row: &[f64; 21]) -> f64 {
    let mut most = row[0];
    for place in 1..21 {
        most = most.max(row[place]);
    }
    most
}
