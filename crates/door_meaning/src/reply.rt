//! Replies.

use data_records::Value;
use sqlite_items::Items;
use text_ast::Name;
use type_schema::Right;

/// What a policy does not allow.
#[derive(Drop)]
pub enum Denial {
    /// A field may not be read, or not be written.
    Field(Name),
    /// A record may not be made, or not be dropped.
    Right(Right),
}

/// What there may be no more of.
#[derive(Clone, Copy, Debug, PartialEq, Eq)]
pub enum Fullness {
    /// 20,000 records.
    Records,
    /// A weight of 33,554,432.
    Weight,
    /// 1,024 sessions.
    Sessions,
}

/// What a line is answered.
#[derive(Drop)]
pub enum Reply {
    /// It was done.
    Done,
    /// The session is at this version.
    Version(u64),
    /// What the field holds.
    Val(Value),
    /// The id of the new record.
    New(u64),
    /// The records that were found, by rising id.
    Ids(Items<u64>),
    /// A line without a token has no reply.
    Quiet,
    /// A policy does not allow the principal of the session.
    Denied(Denial),
    /// The record is not there; or the session has no principal that is.
    NoRecord,
    /// The id in the field names no record.
    Dangling { field: Name, id: u64 },
    /// The field of this record names the record.
    Referenced { model: Name, id: u64, field: Name },
    /// What is given for the field is not of its type, or it is not given just once.
    WrongShape { field: Name },
    /// The session is at an older version than the door.
    Stale { session: u64, door: u64 },
    /// No session has the name.
    NoSession,
    /// A session has the name.
    SessionTaken,
    Full { what: Fullness },
    /// The model has no more ids to give.
    IdsSpent,
    /// The line is no request, as found at this offset.
    BadLine { at: u32 },
    /// The report of a migration.
    Script(Items<u8>),
    /// The name at this offset is of no static, model or field that may stand there.
    Unknown { at: u32 },
    /// The model is not marked as principal.
    NotPrincipal,
}
