//! The literal of `Order`.

/// The literal `x - y <= c`, where `x` and `y` are numbers of variables.
#[derive(Clone, Copy, PartialEq, Eq, Debug)]
pub struct Diff {
    pub x: u32,
    pub y: u32,
    /// From -2^65 to 2^65.
    pub c: i128,
}
