ghost use Rattle.std.specs.Prelude.{◌≡◌, ◌+◌, ◌<◌, ◌≤◌, OnOk, OnErr};

use crate::steps::Steps;
use std::marker::Model;
use std::sync::ledger::Ledger;
use thiserror::Error;

/// More steps were asked for than the budget had left.
#[derive(Clone, Copy, Debug, PartialEq, Eq, Error)]
#[error("out of steps")]
pub struct Spent;

/// A number of steps that may be used, and how many of them were. Contracts see these two numbers.
#[derive(Drop)]
pub struct Budget {
    limit: u64,
    used: u64,
}

impl Model for Budget {
    ghost use Rattle.std.specs.Prelude.{◌≤◌};
    ghost use Rattle.eb_bytes.specs.Spending.{Spending};

    ghost Value = { Spending };

    ghost view = { λ b. record { limit = b.limit; used = b.used } };

    ghost invariant = { λ b. b.used ≤ b.limit };
}

impl Budget {
    /// A budget of this many steps, none of them used.
    pub fn new(limit: u64) -> Budget
        ensures { result ≡ record { limit = limit; used = 0 } }
    {
        Budget { limit, used: 0 }
    }

    /// How many steps were used.
    pub fn used(&self) -> u64
        ensures value { result ≡ self.now.used }
        ensures within { self.now.used ≤ self.now.limit }
    {
        self.used
    }

    /// Uses this many steps, and takes them on `steps` too.
    ///
    /// # Errors
    /// `Spent` where so many were not left; the budget has then used its limit, and `steps` rose by what was left.
    pub fn spend<L: Ledger>(&mut self, count: u64, steps: &mut Steps<L>) -> Result<(), Spent>
        ensures ok { OnOk result (self.old.used + count ≤ self.old.limit) }
        ensures used { OnOk result (self.new ≡ record self.old { used = self.old.used + count }) }
        ensures spent { OnErr result (self.old.limit < self.old.used + count) }
        ensures limit { OnErr result (self.new ≡ record self.old { used = self.old.limit }) }
        ensures steps { steps.new + self.old.used ≡ steps.old + self.new.used }
    {
        let left = self.limit - self.used;
        if count > left {
            self.used = self.limit;
            steps.tick(left);
            return Err(Spent);
        }
        self.used += count;
        steps.tick(count);
        Ok(())
    }
}
