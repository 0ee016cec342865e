//! What no clause says, that the calls succeed where there is memory, and worked rows.

use data_records::Value;
use std::alloc::Global;
use std::rc::Rc;
use std::test::Fail;
use text_ast::{Name, Txt};
use type_schema::{FieldInfo, TPolicy, TTy};

mod built;
mod limits;
mod numbers;
mod printed;
mod records;
mod told;

fn name(alloc: Global, bytes: &[u8]) -> Result<Name, Fail> {
    Ok(Name::make(alloc, bytes)?.ok_or("no name")?)
}

fn text(alloc: Global, bytes: &[u8]) -> Result<Value, Fail> {
    let text = Txt::make(Vec::from_slice(alloc, bytes)?).ok_or("no text")?;
    Ok(Value::Str(text))
}

fn field(alloc: Global, number: u32, word: &[u8], ty: TTy) -> Result<FieldInfo, Fail> {
    Ok(FieldInfo {
        number,
        name: name(alloc, word)?,
        ty,
        read: Rc::new(alloc, TPolicy::Nobody)?,
        write: Rc::new(alloc, TPolicy::Nobody)?,
    })
}
