ghost use Rattle.std.specs.Prelude.{◌≡◌};
ghost use Rattle.eb_files.specs.Causes.{raised};

use std::marker::Model;

/// How many failures came. The count stays at its type's end.
#[derive(Clone, Copy, Debug, PartialEq, Eq)]
pub struct Faults {
    count: u64,
}

impl Model for Faults {
    ghost use Rattle.std.specs.Prelude.{ℕ, ◌^◌, ◌<◌};

    ghost Value = { ℕ };

    ghost view = { λ f. f.count };

    ghost inverse = { λ n. record { count = n } };
}

impl Faults {
    /// None so far.
    pub fn new() -> Faults
        ensures { result ≡ 0 }
    {
        Faults { count: 0 }
    }

    /// Counts one more.
    pub fn raise(&mut self)
        ensures { self.new ≡ raised self.old }
    {
        self.count = self.count.saturating_add(1);
    }
}
