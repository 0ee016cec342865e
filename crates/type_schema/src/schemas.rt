//! Schemas. The schemas of one script share their policies and initialisers.

use crate::trees::{TInit, TPolicy};
use crate::types::{FieldNo, ModelNo, StaticNo, TTy};
use sqlite_items::Items;
use std::rc::Rc;
use text_ast::Name;

/// A static principal.
#[derive(Drop)]
pub struct StaticInfo {
    pub number: StaticNo,
    pub name: Name,
}

/// A field of a model.
#[derive(Drop)]
pub struct FieldInfo {
    pub number: FieldNo,
    pub name: Name,
    pub ty: TTy,
    pub read: Rc<TPolicy>,
    pub write: Rc<TPolicy>,
}

/// A model, with its fields in order.
#[derive(Drop)]
pub struct ModelInfo {
    pub number: ModelNo,
    pub name: Name,
    /// Whether its records are principals.
    pub principal: bool,
    pub create: Rc<TPolicy>,
    pub delete: Rc<TPolicy>,
    pub fields: Items<FieldInfo>,
}

/// A field that a command removed, by itself or with its model.
#[derive(Clone, Copy)]
pub struct RemovedField {
    pub model: ModelNo,
    pub field: FieldNo,
    pub ty: TTy,
}

/// A schema. Its `next` numbers are free, and so are all above them.
#[derive(Drop)]
pub struct Schema {
    pub statics: Items<StaticInfo>,
    pub models: Items<ModelInfo>,
    pub next_static: u32,
    pub next_model: u32,
    /// One for the fields of all models.
    pub next_field: u32,
    /// The fields that the script added so far, those removed since among them.
    pub added: Items<(ModelNo, FieldNo, Rc<TInit>)>,
    /// The fields that the script removed so far, the latest first. Initialisers may read them.
    pub removed: Items<RemovedField>,
}
