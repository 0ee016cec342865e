//! How often initialisers were evaluated.

ghost use Rattle.std.specs.Prelude.{◌≡◌};
ghost use Rattle.online_counted.specs.Counted.{risen};

use std::marker::Model;

/// How often initialisers were evaluated. It stands still at 18,446,744,073,709,551,615.
#[derive(Debug, Drop)]
pub struct Evaluations {
    count: u64,
}

impl Model for Evaluations {
    ghost use Rattle.std.specs.Prelude.{ℕ};

    ghost Value = { ℕ };

    ghost view = { λ e. e.count };
}

impl Evaluations {
    /// None so far.
    pub fn none() -> Evaluations
        ensures { result ≡ 0 }
    {
        Evaluations { count: 0 }
    }

    /// How many there were.
    pub fn count(&self) -> u64
        ensures { result ≡ self.now }
    {
        self.count
    }

    /// One more.
    pub(crate) fn rise(&mut self)
        ensures { self.new ≡ risen self.old }
    {
        if self.count < u64::MAX {
            self.count += 1;
        }
    }
}
