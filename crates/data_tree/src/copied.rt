//! Copies of trees, offsets included.

ghost use Rattle.std.specs.Prelude.{◌≡◌, IfOk};

use crate::{FieldLit, Lit, RecordLit, TableLit};
use sqlite_items::{Boxed, Items};
use std::alloc::{AllocError, Global};
use text_tree::Copied;

/// An equal value.
#[cycle(copies)]
fn copy_lit(alloc: Global, lit: &Lit) -> Result<Lit, AllocError>
    ensures { IfOk result (λ copy. copy ≡ lit.now) }
{
    match lit {
        Lit::Flag(value, at) => Ok(Lit::Flag(*value, *at)),
        Lit::Num(value, at) => Ok(Lit::Num(*value, *at)),
        Lit::Str(text, at) => {
            let text = text.copy(alloc)?;
            Ok(Lit::Str(text, *at))
        }
        Lit::Id(id, at) => Ok(Lit::Id(*id, *at)),
        Lit::SelfId(at) => Ok(Lit::SelfId(*at)),
        Lit::NoneLit(at) => Ok(Lit::NoneLit(*at)),
        Lit::SomeLit(inner, at) => {
            let inner = copy_lit(alloc, inner.get())?;
            let inner = Boxed::new(alloc, inner)?;
            Ok(Lit::SomeLit(inner, *at))
        }
        Lit::List(items, at) => {
            let items = copy_lits(alloc, items.as_slice())?;
            Ok(Lit::List(items, *at))
        }
    }
}

/// Equal values, in the same order.
#[cycle(copies)]
fn copy_lits(alloc: Global, lits: &[Lit]) -> Result<Items<Lit>, AllocError>
    ensures { IfOk result (λ copies. copies ≡ lits.now) }
{
    let mut copies = Vec::new(alloc);
    for lit in lits {
        let copy = copy_lit(alloc, lit)?;
        copies.push(copy)?;
    }
    Ok(Items::from_vec(copies))
}

/// Equal parts, in the same order.
fn copy_items<T: Copied + Drop>(alloc: Global, items: &[T]) -> Result<Items<T>, AllocError>
    ensures { IfOk result (λ copies. copies ≡ items.now) }
{
    let mut copies = Vec::new(alloc);
    for item in items {
        let copy = item.copy(alloc)?;
        copies.push(copy)?;
    }
    Ok(Items::from_vec(copies))
}

impl Copied for Lit {
    fn copy(&self, alloc: Global) -> Result<Lit, AllocError> {
        copy_lit(alloc, self)
    }
}

impl Copied for FieldLit {
    fn copy(&self, alloc: Global) -> Result<FieldLit, AllocError> {
        let name = self.name.copy(alloc)?;
        let value = self.value.copy(alloc)?;
        Ok(FieldLit { name, value })
    }
}

impl Copied for RecordLit {
    fn copy(&self, alloc: Global) -> Result<RecordLit, AllocError> {
        let fields = copy_items(alloc, self.fields.as_slice())?;
        Ok(RecordLit {
            id: self.id,
            fields,
            end: self.end,
        })
    }
}

impl Copied for TableLit {
    fn copy(&self, alloc: Global) -> Result<TableLit, AllocError> {
        let name = self.name.copy(alloc)?;
        let records = copy_items(alloc, self.records.as_slice())?;
        Ok(TableLit {
            name,
            next: self.next,
            records,
        })
    }
}
