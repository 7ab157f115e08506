//! Counts of work.

ghost use Rattle.std.specs.Prelude.{◌≡◌, ◌≤◌};
ghost use Rattle.dv_change.specs.Raised.{raised};

use std::marker::Model;

/// The limit of a count.
const MOST: u64 = 9_223_372_036_854_775_807;

/// A count that stays at 9,223,372,036,854,775,807.
#[derive(Debug, Drop)]
pub struct Ticks {
    count: u64,
}

impl Model for Ticks {
    ghost use Rattle.std.specs.Prelude.{ℕ, ◌≤◌};

    ghost Value = { ℕ };

    ghost view = { λ t. t.count };

    ghost invariant = { λ t. t.count ≤ 9223372036854775807 };
}

impl Ticks {
    /// A count of 0.
    pub fn new() -> Self
        ensures { result ≡ 0 }
    {
        Ticks { count: 0 }
    }

    /// Adds `by`; the count stays at its limit, 9,223,372,036,854,775,807.
    pub fn add(&mut self, by: u64)
        ensures { self.new ≡ raised self.old by }
    {
        self.count += by.min(MOST - self.count);
    }

    /// The count.
    pub fn count(&self) -> u64
        ensures count { result ≡ self.now }
        ensures limit { self.now ≤ 9223372036854775807 }
    {
        self.count
    }
}
