//! Typed commands and scripts.

use crate::schemas::{FieldInfo, ModelInfo, Schema, StaticInfo};
use crate::trees::{TInit, TPolicy};
use crate::types::{FieldNo, ModelNo, StaticNo};
use sqlite_items::Items;
use std::rc::Rc;
use text_ast::Txt;

/// A policy that a command may give. One that is not given stays as it is.
type Given = Option<Rc<TPolicy>>;

/// A command. Of two policies, read stands before write, and create before delete. The text of a
/// command that weakens is its reason.
#[derive(Drop)]
pub enum TCommand {
    CreateModel(ModelInfo),
    DeleteModel(ModelNo),
    AddStatic(StaticInfo),
    RemoveStatic(StaticNo),
    AddPrincipal(ModelNo),
    AddField(ModelNo, FieldInfo, Rc<TInit>),
    RemoveField(ModelNo, FieldNo),
    UpdateFieldPolicy(ModelNo, FieldNo, Given, Given),
    WeakenFieldPolicy(ModelNo, FieldNo, Given, Given, Txt),
    UpdatePolicy(ModelNo, Given, Given),
    WeakenPolicy(ModelNo, Given, Given, Txt),
}

/// A script.
#[derive(Drop)]
pub struct TScript {
    /// The schema of the databases that the script may start from.
    pub start: Schema,
    pub commands: Items<TCommand>,
    /// The schema before the first command and after each.
    pub schemas: Items<Schema>,
}
