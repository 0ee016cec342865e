//! Copies of schemas. A copy shares the policies and initialisers of what it copies.

ghost use Rattle.std.specs.Prelude.{◌≡◌, IfOk, map};
ghost use Rattle.type_schema.specs.SchemaViews.{static_info_of, field_info_of, model_info_of};
ghost use Rattle.type_schema.specs.SchemaViews.{added_of, schema_of};

use crate::schemas::{FieldInfo, ModelInfo, Schema, StaticInfo};
use crate::trees::TInit;
use crate::types::{FieldNo, ModelNo};
use sqlite_items::Items;
use std::alloc::{AllocError, Global};
use std::rc::Rc;

/// A field that the script added, and its initialiser.
type Added = (ModelNo, FieldNo, Rc<TInit>);

impl StaticInfo {
    /// An equal static.
    pub fn copy(&self, alloc: Global) -> Result<StaticInfo, AllocError>
        ensures { IfOk result (λ copy. static_info_of copy ≡ static_info_of self.now) }
    {
        let name = self.name.copy(alloc)?;
        Ok(StaticInfo {
            number: self.number,
            name,
        })
    }
}

impl FieldInfo {
    /// An equal field.
    pub fn copy(&self, alloc: Global) -> Result<FieldInfo, AllocError>
        ensures { IfOk result (λ copy. field_info_of copy ≡ field_info_of self.now) }
    {
        let name = self.name.copy(alloc)?;
        let read = self.read.clone()?;
        let write = self.write.clone()?;
        Ok(FieldInfo {
            number: self.number,
            name,
            ty: self.ty,
            read,
            write,
        })
    }
}

/// Equal fields, in the same order.
fn copy_fields(alloc: Global, fields: &[FieldInfo]) -> Result<Items<FieldInfo>, AllocError>
    ensures { IfOk result (λ copies. map field_info_of copies ≡ map field_info_of fields.now) }
{
    let mut copies = Vec::new(alloc);
    for field in fields {
        let copy = field.copy(alloc)?;
        copies.push(copy)?;
    }
    Ok(Items::from_vec(copies))
}

impl ModelInfo {
    /// An equal model.
    pub fn copy(&self, alloc: Global) -> Result<ModelInfo, AllocError>
        ensures { IfOk result (λ copy. model_info_of copy ≡ model_info_of self.now) }
    {
        let name = self.name.copy(alloc)?;
        let create = self.create.clone()?;
        let delete = self.delete.clone()?;
        let fields = copy_fields(alloc, self.fields.as_slice())?;
        Ok(ModelInfo {
            number: self.number,
            name,
            principal: self.principal,
            create,
            delete,
            fields,
        })
    }
}

/// Equal statics, in the same order.
fn copy_statics(alloc: Global, statics: &[StaticInfo]) -> Result<Items<StaticInfo>, AllocError>
    ensures { IfOk result (λ copies. map static_info_of copies ≡ map static_info_of statics.now) }
{
    let mut copies = Vec::new(alloc);
    for known in statics {
        let copy = known.copy(alloc)?;
        copies.push(copy)?;
    }
    Ok(Items::from_vec(copies))
}

/// Equal models, in the same order.
fn copy_models(alloc: Global, models: &[ModelInfo]) -> Result<Items<ModelInfo>, AllocError>
    ensures { IfOk result (λ copies. map model_info_of copies ≡ map model_info_of models.now) }
{
    let mut copies = Vec::new(alloc);
    for model in models {
        let copy = model.copy(alloc)?;
        copies.push(copy)?;
    }
    Ok(Items::from_vec(copies))
}

/// The same added fields, in the same order.
fn copy_added(alloc: Global, added: &[Added]) -> Result<Items<Added>, AllocError>
    ensures { IfOk result (λ copies. map added_of copies ≡ map added_of added.now) }
{
    let mut copies = Vec::new(alloc);
    for field in added {
        let init = field.2.clone()?;
        copies.push((field.0, field.1, init))?;
    }
    Ok(Items::from_vec(copies))
}

impl Schema {
    /// An equal schema.
    pub fn copy(&self, alloc: Global) -> Result<Schema, AllocError>
        ensures { IfOk result (λ copy. schema_of copy ≡ schema_of self.now) }
    {
        let statics = copy_statics(alloc, self.statics.as_slice())?;
        let models = copy_models(alloc, self.models.as_slice())?;
        let added = copy_added(alloc, self.added.as_slice())?;
        let removed = Items::from_slice(alloc, self.removed.as_slice())?;
        Ok(Schema {
            statics,
            models,
            next_static: self.next_static,
            next_model: self.next_model,
            next_field: self.next_field,
            added,
            removed,
        })
    }
}
