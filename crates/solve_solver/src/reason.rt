//! The clause by which a literal was set.

/// The clause by which a literal was set. It is a hint: what it shows is tried where it is used.
#[derive(Clone, Copy)]
pub enum Reason {
    /// A clause that is given, by its place.
    Given(usize),
    /// A clause that was learned, by its slot.
    Learned(usize),
    /// None that is still there.
    Unknown,
}
