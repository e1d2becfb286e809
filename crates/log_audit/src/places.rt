// Records which entries the posts have named.
ghost use Rattle.std.specs.Prelude.{◌≡◌, ℕ, ◌<◌, false, true, length, slice_index_or, slice_set, IfOk};
ghost use Rattle.tac_base.specs.declared.limits.TheConstants.{AUCTION_ENTRIES};
ghost use Rattle.log_audit.specs.Auditing.{place_at};

use std::alloc::{AllocError, Global};
use std::marker::Model;
use tac_base::Good;
use tac_base::limits::AUCTION_ENTRIES as POSITIONS;

/// The number of places: 8,256 positions of each of 28 goods.
const PLACES: usize = 231_168;

/// Which places of entries were named. Contracts see it as a list, the positions of good 0 first.
#[derive(Drop)]
pub(crate) struct Places {
    named: Vec<bool>,
}

impl Model for Places {
    ghost use Rattle.std.specs.Prelude.{◌≡◌, List, Bool, length};

    ghost Value = { List Bool };

    ghost view = { λ p. p.named.items };

    ghost invariant = { λ p. length p.named.items ≡ 231168 };
}

/// The index of the place of an entry in the list.
fn place_of(good: Good, position: u32) -> usize
    requires { position < AUCTION_ENTRIES }
    ensures value { result ≡ place_at good position }
    ensures few { result < 231168 }
{
    usize::from(good.get()) * POSITIONS as usize + position as usize
}

impl Places {
    /// No place is named yet.
    pub(crate) fn new(alloc: Global) -> Result<Places, AllocError>
        ensures { IfOk result (λ places. (k : ℕ) → slice_index_or places k false ≡ false) }
    {
        let mut named = Vec::new(alloc);
        named.resize(PLACES, false)?;
        Ok(Places { named })
    }

    /// Whether the place of this position, which is below 8,256, was named.
    pub(crate) fn is_named(&self, good: Good, position: u32) -> bool
        requires { position < AUCTION_ENTRIES }
        ensures value { result ≡ slice_index_or self.now (place_at good position) false }
        ensures places { length self.now ≡ 231168 }
    {
        self.named[place_of(good, position)]
    }

    /// Names the place of this position, which is below 8,256.
    pub(crate) fn name(&mut self, good: Good, position: u32)
        requires { position < AUCTION_ENTRIES }
        ensures { self.new ≡ slice_set self.old (place_at good position) true }
    {
        self.named[place_of(good, position)] = true;
    }
}
