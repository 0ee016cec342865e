//! Rights, what they are on, and kinds of principals.

use crate::types::{FieldNo, ModelNo, StaticNo};

/// A right. `Read` and `Write` are on a field, `Create` and `Delete` on a model.
#[derive(Clone, Copy, Debug, PartialEq, Eq)]
pub enum Right {
    Read,
    Write,
    Create,
    Delete,
}

/// What a right is on.
#[derive(Clone, Copy, Debug, PartialEq, Eq)]
pub enum Target {
    Field(ModelNo, FieldNo),
    Model(ModelNo),
}

/// A kind of principals: a static principal, or the records of a model.
#[derive(Clone, Copy, Debug, PartialEq, Eq)]
pub enum Kind {
    Static(StaticNo),
    Model(ModelNo),
}
