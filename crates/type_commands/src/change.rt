//! What a command changes of one model.

use crate::parts::Given;
use type_schema::{FieldInfo, FieldNo};

/// What a command changes of one model. A policy that is not given stays as it is.
#[derive(Drop)]
pub enum Change {
    /// It becomes a principal.
    Principal,
    /// It has one more field, the last.
    Field(FieldInfo),
    /// It has no field of this number.
    WithoutField(FieldNo),
    /// The field has the read and the write policy that are given.
    FieldPolicies(FieldNo, Given, Given),
    /// It has the create and the delete policy that are given.
    Policies(Given, Given),
}
