//! Databases at the limit of their weight, and above it.

ghost use Rattle.std.specs.Prelude.{IfOk};
ghost use Rattle.type_schema.specs.Proper.{IsProper};
ghost use Rattle.type_schema.specs.SchemaViews.{schema_of};

use data_judge::{Limits, Refusal, judge};
use data_records::Limit;
use data_tree::{FieldLit, Lit, RecordLit, TableLit, WrittenId};
use sqlite_items::Items;
use std::alloc::Global;
use std::test::Fail;
use text_ast::{Name, Txt};
use text_parse::parse_spec;
use text_tree::Named;
use type_schema::Schema;
use type_scripts::type_spec;

/// Notes with a body.
fn notes(alloc: Global) -> Result<Schema, Fail>
    ensures { IfOk result (λ s. IsProper (schema_of s)) }
{
    let text = b"model Note {create: public, delete: none, body: Text {read: public, write: none}}";
    let spec = parse_spec(alloc, text)?;
    Ok(type_spec(alloc, &spec)?)
}

fn named(alloc: Global, word: &[u8]) -> Result<Named, Fail> {
    let name = Name::make(alloc, word)?.ok_or("no name")?;
    Ok(Named { name, at: 0 })
}

/// A note with this body.
fn note(alloc: Global, number: u64, body: &Txt) -> Result<RecordLit, Fail> {
    let mut fields = Items::new(alloc);
    fields.push(FieldLit {
        name: named(alloc, b"body")?,
        value: Lit::Str(body.copy(alloc)?, 0),
    })?;
    Ok(RecordLit {
        id: WrittenId { number, at: 0 },
        fields,
        end: 0,
    })
}

/// A text of so many bytes.
fn text(alloc: Global, length: usize) -> Result<Txt, Fail> {
    let bytes = vec![in alloc; b'a'; length]?;
    Ok(Txt::make(bytes).ok_or("no text")?)
}

/// 8,190 notes of the weight 4,097, which is 33,554,430, and one more whose body has so many bytes.
fn heavy(alloc: Global, last: usize) -> Result<TableLit, Fail> {
    let body = text(alloc, 4096)?;
    let mut records = Items::new(alloc);
    for number in 1..8191 {
        records.push(note(alloc, number, &body)?)?;
    }
    let end = text(alloc, last)?;
    records.push(note(alloc, 8191, &end)?)?;
    Ok(TableLit {
        name: named(alloc, b"Note")?,
        next: WrittenId {
            number: 9000,
            at: 0,
        },
        records,
    })
}

#[test]
fn the_weight_is_limited(rt: HostRuntime) -> Result<(), Fail> {
    let alloc = rt.alloc();
    let s = notes(alloc)?;
    let most = [heavy(alloc, 1)?];
    assert!(rt; judge(alloc, Limits::Asked, &most, &s).is_ok());
    let more = [heavy(alloc, 2)?];
    let full = Refusal::Full {
        what: Limit::Weight,
    };
    match judge(alloc, Limits::Asked, &more, &s) {
        Ok(_) => return Err(Fail::new("read")),
        Err(refusal) => assert_eq!(rt; refusal, full),
    }
    assert!(rt; judge(alloc, Limits::Waived, &more, &s).is_ok());
    Ok(())
}
