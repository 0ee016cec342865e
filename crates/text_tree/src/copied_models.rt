//! Copies of specifications.

ghost use Rattle.std.specs.Prelude.{◌≡◌, IfOk};

use crate::copied::{Copied, copy_both, copy_items};
use crate::{FieldDef, ModelDef, Named, Spec};
use std::alloc::{AllocError, Global};

impl Copied for Named {
    fn copy(&self, alloc: Global) -> Result<Named, AllocError> {
        let name = self.name.copy(alloc)?;
        Ok(Named { name, at: self.at })
    }
}

impl Copied for FieldDef {
    fn copy(&self, alloc: Global) -> Result<FieldDef, AllocError> {
        let name = self.name.copy(alloc)?;
        let ty = self.ty.copy(alloc)?;
        let (read, write) = copy_both(alloc, &self.read, &self.write)?;
        Ok(FieldDef {
            name,
            ty,
            read,
            write,
        })
    }
}

impl Copied for ModelDef {
    fn copy(&self, alloc: Global) -> Result<ModelDef, AllocError> {
        let name = self.name.copy(alloc)?;
        let fields = copy_items(alloc, self.fields.as_slice())?;
        let (create, delete) = copy_both(alloc, &self.create, &self.delete)?;
        Ok(ModelDef {
            principal: self.principal,
            name,
            create,
            delete,
            fields,
            at: self.at,
        })
    }
}

impl Copied for Spec {
    fn copy(&self, alloc: Global) -> Result<Spec, AllocError> {
        let statics = copy_items(alloc, self.statics.as_slice())?;
        let models = copy_items(alloc, self.models.as_slice())?;
        Ok(Spec { statics, models })
    }
}
