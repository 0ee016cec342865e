//! What a command removes.

use type_schema::{FieldNo, ModelNo, StaticNo};

/// What a command removes, and what policies and types of fields may use.
#[derive(Clone, Copy, Debug, PartialEq, Eq)]
pub enum Thing {
    Field(ModelNo, FieldNo),
    Model(ModelNo),
    Static(StaticNo),
}
