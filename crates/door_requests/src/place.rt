//! Where a value stands.

/// Where a value stands in a request: the record that is made may be named in a new row alone.
#[derive(Clone, Copy, Debug, PartialEq, Eq)]
pub enum Place {
    Plain,
    NewRow,
}
