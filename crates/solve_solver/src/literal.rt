//! A variable with a sign.

ghost use Rattle.std.specs.Prelude.{◌≡◌, ◌↔◌, IsTrue};
ghost use Rattle.solve_solver.specs.Assignment.{negated, signed};

/// A literal of a clause: a variable that is to be true, or one that is to be false.
#[derive(Clone, Copy, Debug, PartialEq, Eq)]
pub struct PLit {
    /// The number of the variable, from 0 on.
    pub var: u32,
    /// Whether the variable is to be true.
    pub plus: bool,
}

impl PLit {
    /// The value of the literal, by that of its variable.
    pub(crate) fn value_by(self, value: bool) -> bool
        ensures { result ≡ signed self value }
    {
        if self.plus { value } else { !value }
    }

    /// Whether this is the same literal.
    pub(crate) fn is_same(self, other: PLit) -> bool
        ensures { IsTrue result ↔ (self ≡ other) }
    {
        self.var == other.var && self.plus == other.plus
    }

    /// The literal that is true where this one is false.
    pub(crate) fn opposite(self) -> PLit
        ensures { result ≡ negated self }
    {
        PLit {
            var: self.var,
            plus: !self.plus,
        }
    }
}
