//! What a variable of the gates stands for.

/// What a term of an atom is where its variable is a ground term.
#[derive(Clone, Copy, Debug, PartialEq, Eq, Hash)]
pub enum Value {
    /// A ground term, by its number.
    Term(u32),
    /// A number or a text, by the number of its node in the formula's arena.
    Literal(u32),
}

/// What a variable of the gates stands for.
#[derive(Clone, Copy, Debug, PartialEq, Eq, Hash)]
pub enum Input {
    /// The ground term of this number is there.
    There(u32),
    /// Two values are equal.
    Equal(Value, Value),
    /// One number is below the other.
    Less(Value, Value),
    /// A set relation holds of two values.
    Has(u32, Value, Value),
    /// A function to truth values gives true at a value.
    Flag(u32, Value),
    /// A function has a value at a value.
    Present(u32, Value),
}
