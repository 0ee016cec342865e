//! Copies of schemas.

use crate::tests::name;
use sqlite_items::Items;
use std::alloc::Global;
use std::rc::Rc;
use std::test::Fail;
use type_schema::{FieldInfo, ModelInfo, TBase, TPolicy, TTy};

#[test]
fn a_schema_is_copied(rt: HostRuntime) -> Result<(), Fail> {
    let alloc = rt.alloc();
    let field = FieldInfo {
        number: 3,
        name: name(alloc, b"body")?,
        ty: TTy::Plain(TBase::Text),
        read: Rc::new(alloc, TPolicy::Everyone)?,
        write: Rc::new(alloc, TPolicy::Nobody)?,
    };
    let mut fields = Items::new(alloc);
    fields.push(field)?;
    let model = ModelInfo {
        number: 2,
        name: name(alloc, b"Note")?,
        principal: true,
        create: Rc::new(alloc, TPolicy::Everyone)?,
        delete: Rc::new(alloc, TPolicy::Nobody)?,
        fields,
    };
    let copy = model.copy(alloc)?;
    let wanted: &[u8] = b"Note";
    assert_eq!(rt; copy.name.bytes(), wanted);
    assert_eq!(rt; copy.fields.len(), 1);
    assert!(rt; copy.principal);
    Ok(())
}
