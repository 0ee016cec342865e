//! Principals.

use type_schema::{ModelNo, StaticNo};

/// A static principal, or the record of a model with an id. As a member of a set it may be a
/// record of any model.
#[derive(Clone, Copy, Debug, PartialEq, Eq)]
pub enum Principal {
    Static(StaticNo),
    Rec(ModelNo, u64),
}
