//! The structure of a database.

ghost use Rattle.std.specs.Prelude.{◌≡◌, [], ◌∷◌, ◌++◌, IfOk, OnOk, flat_map, map};
ghost use Rattle.std.specs.Prelude.{length, option_copied};
ghost use Rattle.std.specs.Option.{option_map_or};
ghost use Rattle.type_schema.specs.SchemaViews.{field_info_of, model_info_of, schema_of};
ghost use Rattle.type_schema.specs.Proper.{model_numbers};
ghost use Rattle.data_meaning.specs.Database.{field_at, ids_of};
ghost use Rattle.data_meaning.specs.Values.{Nothing};
ghost use Rattle.data_meaning.specs.Meaning.{set_of};
ghost use Rattle.data_records.specs.Views.{record_data, value_data};
ghost use Rattle.duty_meaning.specs.Structures as rule;
ghost use Rattle.duty_meaning.specs.Structures.{element_of, entry_of, places_in};
ghost use Rattle.duty_numbering.specs.Numbers.{place_at};
ghost use Rattle.duty_numbering.specs.Elements.{entries_among, pairs_among, pairs_from};
ghost use Rattle.duty_numbering.specs.Elements.{relations_at, sizes_of, tables_at};

use crate::link::Link;
use crate::places::Places;
use data_records::{Database, Record, Value};
use form_formula::{SVal, Structure};
use sqlite_items::Items;
use std::alloc::{AllocError, Global};
use type_schema::{FieldInfo, FieldNo, ModelInfo, ModelNo, Schema, TBase, TTy};

/// The model whose ids the values of a base type are, if they are ids.
fn base_target(b: TBase) -> ModelNo
    ensures { result ≡ rule.base_target b }
{
    match b {
        TBase::Bool | TBase::Int | TBase::Text => 0,
        TBase::Id(m) => m,
    }
}

/// The model whose ids the values of a type are, if they are ids.
fn target_of(t: TTy) -> ModelNo
    ensures { result ≡ rule.target_of t }
{
    match t {
        TTy::Plain(b) | TTy::Opt(b) => base_target(b),
        TTy::Set(m) => m,
    }
}

/// The ids of records.
fn ids_among(alloc: Global, records: &[Record]) -> Result<Vec<u64>, AllocError>
    ensures { IfOk result (λ ids. ids.items ≡ map (λ r. r.id) (map record_data records.now)) }
{
    let mut ids = Vec::new(alloc);
    for record in records {
        ids.push(record.id)?;
    }
    Ok(ids)
}

/// The places of the records of a model.
fn places_of(alloc: Global, database: &Database, model: ModelNo) -> Result<Places<u64>, AllocError>
    ensures { IfOk result (λ places. places ≡ ids_of database.now model) }
{
    let ids = ids_among(alloc, database.records(model))?;
    Places::of(alloc, ids)
}

/// A model with a field, and the model of the ids that it holds.
fn link_of(
    alloc: Global,
    database: &Database,
    source: ModelNo,
    target: ModelNo,
) -> Result<Link<'_>, AllocError>
    ensures database { IfOk result (λ link. link.database.now ≡ database.now) }
    ensures source { IfOk result (λ link. link.source ≡ source) }
    ensures target { IfOk result (λ link. link.target ≡ target) }
{
    let sources = places_of(alloc, database, source)?;
    let targets = places_of(alloc, database, target)?;
    Ok(Link {
        database,
        source,
        target,
        sources,
        targets,
    })
}

impl Link<'_> {
    /// The element that a record with the field is.
    fn source_element(&self, id: u64) -> u32
        ensures { let it = self.now in result ≡ element_of it.database.now it.source id }
    {
        self.sources.place_of(id)
    }

    /// The element that a record is whose id the field may hold.
    fn target_element(&self, id: u64) -> u32
        ensures { let it = self.now in result ≡ element_of it.database.now it.target id }
    {
        self.targets.place_of(id)
    }

    /// What a field of a record holds.
    fn field(&self, id: u64, f: FieldNo) -> Option<&Value>
        ensures { let it = self.now in option_map_or value_data (option_copied result) Nothing
            ≡ field_at it.database.now it.source id f }
    {
        self.database.value(self.source, id, f)
    }
}

/// What a function has where a field holds the value.
fn entry(alloc: Global, link: &Link<'_>, value: &Value) -> Result<Option<SVal>, AllocError>
    ensures { let it = link.now in IfOk result (λ e. e ≡ entry_of it.database.now it.target
        (value_data value.now)) }
{
    match value {
        Value::Flag(b) => Ok(Some(SVal::Flag(*b))),
        Value::Num(n) => Ok(Some(SVal::Num(*n))),
        Value::Str(text) => {
            let text = text.copy(alloc)?;
            Ok(Some(SVal::Str(text)))
        }
        Value::Id(id) => Ok(Some(SVal::Rec(link.target_element(*id)))),
        Value::Ids(_) | Value::Nothing => Ok(None),
        Value::Just(inner) => entry(alloc, link, inner.get()),
    }
}

/// What a function has at a record.
fn entry_at(alloc: Global, link: &Link<'_>, id: u64, f: FieldNo) -> Result<Option<SVal>, AllocError>
    ensures { let it = link.now in IfOk result (λ e. e ≡ entry_of it.database.now it.target
        (field_at it.database.now it.source id f)) }
{
    match link.field(id, f) {
        Some(value) => entry(alloc, link, value),
        None => Ok(None),
    }
}

/// What a function has at each of the records.
fn entries(
    alloc: Global,
    link: &Link<'_>,
    records: &[Record],
    f: FieldNo,
) -> Result<Vec<Option<SVal>>, AllocError>
    ensures { let it = link.now in IfOk result (λ entries. entries.items
        ≡ entries_among it.database.now it.source it.target f
        (map (λ r. r.id) (map record_data records.now))) }
{
    let mut entries = Vec::new(alloc);
    for record in records {
        let entry = entry_at(alloc, link, record.id, f)?;
        entries.push(entry)?;
    }
    Ok(entries)
}

/// The ids in a set. Another value has none.
fn members<'a>(value: Option<&'a Value>) -> &'a [u64]
    ensures { result.now ≡ set_of (option_map_or value_data (option_copied value.entry) Nothing) }
{
    match value {
        Some(Value::Ids(ids)) => ids.as_slice(),
        Some(
            Value::Flag(_)
            | Value::Num(_)
            | Value::Str(_)
            | Value::Id(_)
            | Value::Nothing
            | Value::Just(_),
        )
        | None => &[],
    }
}

/// Puts the record with each of the others last.
fn add_pairs(
    pairs: &mut Vec<(u32, u32)>,
    link: &Link<'_>,
    id: u64,
    others: &[u64],
) -> Result<(), AllocError>
    ensures { let it = link.now in OnOk result (pairs.new.items ≡ pairs.old.items
        ++ pairs_from it.database.now it.source it.target id others.now) }
{
    for other in others {
        pairs.push((link.source_element(id), link.target_element(*other)))?;
    }
    Ok(())
}

/// The pairs of a set relation at the records.
fn pairs(
    alloc: Global,
    link: &Link<'_>,
    records: &[Record],
    f: FieldNo,
) -> Result<Vec<(u32, u32)>, AllocError>
    ensures { let it = link.now in IfOk result (λ pairs. pairs.items
        ≡ pairs_among it.database.now it.source it.target f
        (map (λ r. r.id) (map record_data records.now))) }
{
    let mut pairs = Vec::new(alloc);
    for record in records {
        let others = members(link.field(record.id, f));
        add_pairs(&mut pairs, link, record.id, others)?;
    }
    Ok(pairs)
}

/// What a field of a model has as a function.
fn table_of(
    alloc: Global,
    database: &Database,
    model: ModelNo,
    field: &FieldInfo,
) -> Result<Items<Option<SVal>>, AllocError>
    ensures { IfOk result (λ table. table ≡ rule.entries_of database.now
        (place_at model (field_info_of field.now))) }
{
    let link = link_of(alloc, database, model, target_of(field.ty))?;
    let found = entries(alloc, &link, database.records(model), field.number)?;
    Ok(Items::from_vec(found))
}

/// What a field of a model has as a set relation.
fn relation_of(
    alloc: Global,
    database: &Database,
    model: ModelNo,
    field: &FieldInfo,
) -> Result<Items<(u32, u32)>, AllocError>
    ensures { IfOk result (λ relation. relation ≡ rule.pairs_of database.now
        (place_at model (field_info_of field.now))) }
{
    let link = link_of(alloc, database, model, target_of(field.ty))?;
    let found = pairs(alloc, &link, database.records(model), field.number)?;
    Ok(Items::from_vec(found))
}

/// The functions and set relations of some fields.
#[derive(Drop)]
struct Tables {
    functions: Vec<Items<Option<SVal>>>,
    relations: Vec<Items<(u32, u32)>>,
}

impl Tables {
    /// Puts a field of a model last.
    fn add_field(
        &mut self,
        alloc: Global,
        database: &Database,
        model: ModelNo,
        field: &FieldInfo,
    ) -> Result<(), AllocError>
        ensures functions { OnOk result (self.new.functions.items ≡ self.old.functions.items
            ++ tables_at database.now (place_at model (field_info_of field.now) ∷ [])) }
        ensures relations { OnOk result (self.new.relations.items ≡ self.old.relations.items
            ++ relations_at database.now (place_at model (field_info_of field.now) ∷ [])) }
    {
        match field.ty {
            TTy::Set(_) => {
                let relation = relation_of(alloc, database, model, field)?;
                self.relations.push(relation)?;
            }
            TTy::Plain(_) | TTy::Opt(_) => {
                let table = table_of(alloc, database, model, field)?;
                self.functions.push(table)?;
            }
        }
        Ok(())
    }

    /// Puts the fields of a model last.
    fn add_model(
        &mut self,
        alloc: Global,
        database: &Database,
        model: &ModelInfo,
    ) -> Result<(), AllocError>
        ensures functions { OnOk result (self.new.functions.items ≡ self.old.functions.items
            ++ tables_at database.now (places_in (model_info_of model.now))) }
        ensures relations { OnOk result (self.new.relations.items ≡ self.old.relations.items
            ++ relations_at database.now (places_in (model_info_of model.now))) }
    {
        for field in model.fields.as_slice() {
            self.add_field(alloc, database, model.number, field)?;
        }
        Ok(())
    }
}

/// The functions and set relations of a database.
fn tables_of(alloc: Global, database: &Database, models: &[ModelInfo]) -> Result<Tables, AllocError>
    ensures functions { IfOk result (λ tables. tables.functions.items
        ≡ tables_at database.now (flat_map places_in (map model_info_of models.now))) }
    ensures relations { IfOk result (λ tables. tables.relations.items
        ≡ relations_at database.now (flat_map places_in (map model_info_of models.now))) }
{
    let mut tables = Tables {
        functions: Vec::new(alloc),
        relations: Vec::new(alloc),
    };
    for model in models {
        tables.add_model(alloc, database, model)?;
    }
    Ok(tables)
}

/// How many records a model has. Four thousand million count as memory that is not there.
fn size_of(database: &Database, model: ModelNo) -> Result<u32, AllocError>
    ensures { IfOk result (λ size. size ≡ length (ids_of database.now model)) }
{
    match u32::try_from(database.records(model).len()) {
        Ok(size) => Ok(size),
        Err(_) => Err(AllocError),
    }
}

/// How many records each model has.
fn sizes_of(
    alloc: Global,
    database: &Database,
    models: &[ModelInfo],
) -> Result<Vec<u32>, AllocError>
    ensures { IfOk result (λ sizes. sizes.items
        ≡ sizes_of database.now (model_numbers (map model_info_of models.now))) }
{
    let mut sizes = Vec::new(alloc);
    for model in models {
        let size = size_of(database, model.number)?;
        sizes.push(size)?;
    }
    Ok(sizes)
}

/// The structure of a database over a schema: the elements of a sort are the records of its model
/// by rising id, and a function has what its field holds.
pub fn structure_of(alloc: Global, database: &Database, s: &Schema) -> Result<Structure, AllocError>
    ensures { IfOk result (λ st. st ≡ rule.structure_of (schema_of s.now) database.now) }
{
    let sizes = sizes_of(alloc, database, s.models.as_slice())?;
    let tables = tables_of(alloc, database, s.models.as_slice())?;
    Ok(Structure {
        sizes: Items::from_vec(sizes),
        funs: Items::from_vec(tables.functions),
        sets: Items::from_vec(tables.relations),
    })
}
