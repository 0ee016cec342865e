//! When a search begins anew.

ghost use Rattle.std.specs.Prelude.{◌≡◌, ◌<◌, ◌+◌, IsTrue};

use std::marker::Model;

/// How often a search begins anew at most.
pub const MOST_RESTARTS: u32 = u32::MAX;

/// How many conflicts there are before the first restart.
const FIRST_LIMIT: u32 = 100;

/// When a search begins anew: after so many conflicts as the sequence of Luby, Sinclair and
/// Zuckerman, "Optimal speedup of Las Vegas algorithms" (1993), says. Contracts see how often it
/// may still do so.
#[derive(Drop)]
pub struct Restarts {
    left: u32,
    /// The conflicts since the last restart.
    conflicts: u32,
    /// How many of them are allowed.
    limit: u32,
    /// Where in the sequence the limit stands.
    turn: u32,
    /// The term of the sequence there.
    term: u32,
}

impl Model for Restarts {
    ghost use Rattle.std.specs.Prelude.{ℕ};

    ghost Value = { ℕ };

    ghost view = { λ r. r.left };
}

impl Restarts {
    /// Before the first conflict.
    pub fn new() -> Restarts
        ensures { result ≡ MOST_RESTARTS }
    {
        Restarts {
            left: MOST_RESTARTS,
            conflicts: 0,
            limit: FIRST_LIMIT,
            turn: 1,
            term: 1,
        }
    }

    /// Counts a conflict.
    pub fn count(&mut self)
        ensures { self.new ≡ self.old }
    {
        self.conflicts = self.conflicts.saturating_add(1);
    }

    /// Lets it be time to begin anew.
    pub fn hasten(&mut self)
        ensures { self.new ≡ self.old }
    {
        self.conflicts = self.limit;
    }

    /// Whether it is time to begin anew.
    pub fn is_due(&self) -> bool
        ensures { IsTrue result → 0 < self.now }
    {
        self.left > 0 && self.conflicts >= self.limit
    }

    /// Goes on to the next term of the sequence.
    pub fn take(&mut self)
        requires { 0 < self.old }
        ensures { self.new + 1 ≡ self.old }
    {
        self.left -= 1;
        self.conflicts = 0;
        if self.turn & self.turn.wrapping_neg() == self.term {
            self.turn = self.turn.wrapping_add(1);
            self.term = 1;
        } else {
            self.term = self.term.saturating_mul(2);
        }
        self.limit = self.term.saturating_mul(FIRST_LIMIT);
    }
}
