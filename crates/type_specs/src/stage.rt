//! How far models are looked at.

/// What of a model is typed.
#[derive(Clone, Copy, Debug, PartialEq, Eq)]
pub enum Stage {
    /// The types of its fields. Each policy is `none`.
    Types,
    /// Its policies as well.
    Policies,
}
