//! Requests as they are written.

use data_tree::{FieldLit, Lit, WrittenId};
use sqlite_items::Items;
use text_ast::Txt;
use text_tree::{FilterOp, Named};

/// The session of a request, and the offset of its first word.
#[derive(Drop)]
pub(crate) struct Head {
    pub(crate) session: Named,
    pub(crate) at: u32,
}

/// A record: its model and its id.
#[derive(Drop)]
pub(crate) struct Spot {
    pub(crate) model: Named,
    pub(crate) id: WrittenId,
}

/// A principal as it is written.
#[derive(Drop)]
pub enum Who {
    /// `Visitor`
    Static(Named),
    /// `User @1`
    Record(Named, WrittenId),
}

/// `field: value`, and other comparisons with a value.
#[derive(Drop)]
pub struct Condition {
    pub field: Named,
    pub op: FilterOp,
    pub value: Lit,
}

/// A request. The first name is that of the session; the last part of each variant is the offset of
/// its first token.
#[derive(Drop)]
pub enum Request {
    /// `open a as User @1`
    Open(Named, Who, u32),
    /// `renew a`
    Renew(Named, u32),
    /// `close a`
    Close(Named, u32),
    /// `read a User @1 email`
    Read(Named, Named, WrittenId, Named, u32),
    /// `find a User {isAdmin: true}`
    Find(Named, Named, Items<Condition>, u32),
    /// `write a User @1 email "c@x"`
    Write(Named, Named, WrittenId, Named, Lit, u32),
    /// `create a User {email: "n", manager: self}`
    Create(Named, Named, Items<FieldLit>, u32),
    /// `delete a User @1`
    Delete(Named, Named, WrittenId, u32),
    /// `migrate "t.scm"`
    Migrate(Txt, u32),
}
