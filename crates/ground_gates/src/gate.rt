//! Gates.

/// A variable, or its negation.
#[derive(Clone, Copy, Debug, PartialEq, Eq, Hash)]
pub struct Literal {
    pub var: u32,
    /// Whether it is the variable itself.
    pub plus: bool,
}

/// What is true by the truth of literals and of earlier gates, which are given by their numbers.
#[derive(Clone, Copy, Debug, PartialEq, Eq, Hash)]
pub enum Gate {
    Yes,
    No,
    Input(Literal),
    Both(u32, u32),
    Either(u32, u32),
}
