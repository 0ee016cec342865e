//! Numbers of statics, models and fields, and the types of values.

/// The number of a model, one for all schemas of a script.
pub type ModelNo = u32;

/// The number of a field, one for all schemas of a script.
pub type FieldNo = u32;

/// The number of a static principal, one for all schemas of a script.
pub type StaticNo = u32;

/// A base type.
#[derive(Clone, Copy, Debug, PartialEq, Eq)]
pub enum TBase {
    Bool,
    /// A signed number of 64 bits.
    Int,
    /// UTF-8 of at most 4,096 bytes.
    Text,
    /// The id of a record of the model.
    Id(ModelNo),
}

/// A type of a value.
#[derive(Clone, Copy, Debug, PartialEq, Eq)]
pub enum TTy {
    Plain(TBase),
    /// Ids of records of the model.
    Set(ModelNo),
    /// A value of the base type, or none.
    Opt(TBase),
}
