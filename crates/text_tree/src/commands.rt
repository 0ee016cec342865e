//! Migration scripts.

use crate::models::{FieldDef, ModelDef};
use crate::named::{Named, Reason};
use crate::policies::{Init, Policy};
use sqlite_items::Items;

/// A command of a script. The last part is the offset of its first token. Of two rights, read
/// stands before write and create before delete; one that is not given is `None`.
#[derive(Drop)]
pub enum Command {
    /// `CreateModel(model M {..})`
    CreateModel(ModelDef, u32),
    /// `DeleteModel(M)`
    DeleteModel(Named, u32),
    /// `AddStatic(S)`
    AddStatic(Named, u32),
    /// `RemoveStatic(S)`
    RemoveStatic(Named, u32),
    /// `AddPrincipal(M)`
    AddPrincipal(Named, u32),
    /// `M::AddField(f: T {..}, x -> e)`
    AddField(Named, FieldDef, Named, Init, u32),
    /// `M::RemoveField(f)`
    RemoveField(Named, Named, u32),
    /// `M::UpdateFieldPolicy(f, {read: P, write: P})`
    UpdateFieldPolicy(Named, Named, Option<Policy>, Option<Policy>, u32),
    /// `M::WeakenFieldPolicy(f, {read: P, write: P}, "reason")`
    WeakenFieldPolicy(Named, Named, Option<Policy>, Option<Policy>, Reason, u32),
    /// `M::UpdatePolicy({create: P, delete: P})`
    UpdatePolicy(Named, Option<Policy>, Option<Policy>, u32),
    /// `M::WeakenPolicy({create: P, delete: P}, "reason")`
    WeakenPolicy(Named, Option<Policy>, Option<Policy>, Reason, u32),
}

/// A migration script: its commands in the order of the text.
#[derive(Drop)]
pub struct Script {
    pub commands: Items<Command>,
}
