//! A variable with a sign.

ghost use Rattle.std.specs.Prelude.{◌≡◌};
ghost use Rattle.certify_clauses.specs.Paths.{opposite};

/// A variable that is to be true, or one that is to be false.
#[derive(Clone, Copy, Debug, PartialEq, Eq)]
pub struct Literal {
    /// The number of the variable, from 0 on.
    pub var: u32,
    /// Whether the variable is to be true.
    pub plus: bool,
}

impl Literal {
    /// The literal that is true where this one is false.
    pub fn opposite(self) -> Literal
        ensures { result ≡ opposite self }
    {
        Literal {
            var: self.var,
            plus: !self.plus,
        }
    }
}
