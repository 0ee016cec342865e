//! Databases from their texts.

ghost use Rattle.std.specs.Prelude.{IfErr, IfOk, length, map, ◌<◌, ◌^◌, ◌≡◌, ◌≢◌};
ghost use Rattle.data_meaning.specs.Database as plain;
ghost use Rattle.data_meaning.specs.Database.{IsDatabase};
ghost use Rattle.data_judge.specs.declared.limits.Limits.{Limits};
ghost use Rattle.data_read.specs.Reading.{IsRead, IsRefusedAs};
ghost use Rattle.data_records.specs.declared.data_err.Limit.{Limit};
ghost use Rattle.type_schema.specs.Proper.{IsProper, model_numbers};
ghost use Rattle.type_schema.specs.SchemaViews.{schema_of};

use crate::read_err::ReadErr;
use data_judge::{Limits, judge};
use data_parse::parse_data;
use data_records::Database;
use std::alloc::Global;
use type_schema::Schema;

/// The database that a text writes, with or without the limits.
fn read_within(alloc: Global, limits: Limits, text: &[u8], s: &Schema) -> Result<Database, ReadErr>
    requires few { length text.now < 2 ^ 32 }
    requires proper { IsProper (schema_of s.now) }
    ensures ok { IfOk result (λ d. IsRead limits (schema_of s.now) text.now d) }
    ensures only { IfOk result (λ d. (e : plain.Database) →
        IsRead limits (schema_of s.now) text.now e → e ≡ d) }
    ensures database { IfOk result (λ d. IsDatabase (schema_of s.now) d) }
    ensures order { IfOk result (λ d. map (λ t. t.model) d
        ≡ model_numbers (schema_of s.now).models) }
    ensures refused { IfErr result (λ err. err ≢ ReadErr.OutOfMemory →
        IsRefusedAs limits (schema_of s.now) text.now err) }
    ensures none { IfErr result (λ err. err ≢ ReadErr.OutOfMemory →
        (d : plain.Database) → ¬ (IsRead limits (schema_of s.now) text.now d)) }
{
    let tables = parse_data(alloc, text)?;
    Ok(judge(alloc, limits, tables.as_slice(), s)?)
}

/// The database over a schema that a text writes, or why it writes none, and where.
///
/// Models, records, fields and the ids of a set may stand in any order. A model that is not named
/// has no record, and its first record gets the id 1. First come the causes of the parser; then
/// the first part in reading order that breaks a rule: an unknown name, a field that is not given,
/// what stands twice, a wrong shape, a bad id; then the first id in a value that names no record;
/// then a database that holds too much.
pub fn read_database(alloc: Global, text: &[u8], s: &Schema) -> Result<Database, ReadErr>
    requires few { length text.now < 2 ^ 32 }
    requires proper { IsProper (schema_of s.now) }
    ensures ok { IfOk result (λ d. IsRead Limits.Asked (schema_of s.now) text.now d) }
    ensures only { IfOk result (λ d. (e : plain.Database) →
        IsRead Limits.Asked (schema_of s.now) text.now e → e ≡ d) }
    ensures database { IfOk result (λ d. IsDatabase (schema_of s.now) d) }
    ensures order { IfOk result (λ d. map (λ t. t.model) d
        ≡ model_numbers (schema_of s.now).models) }
    ensures refused { IfErr result (λ err. err ≢ ReadErr.OutOfMemory →
        IsRefusedAs Limits.Asked (schema_of s.now) text.now err) }
    ensures none { IfErr result (λ err. err ≢ ReadErr.OutOfMemory →
        (d : plain.Database) → ¬ (IsRead Limits.Asked (schema_of s.now) text.now d)) }
{
    read_within(alloc, Limits::Asked, text, s)
}

/// The same for a text that was kept, however much its database holds: a change of the schema may
/// leave a database above the limits.
pub fn reload_database(alloc: Global, text: &[u8], s: &Schema) -> Result<Database, ReadErr>
    requires few { length text.now < 2 ^ 32 }
    requires proper { IsProper (schema_of s.now) }
    ensures ok { IfOk result (λ d. IsRead Limits.Waived (schema_of s.now) text.now d) }
    ensures only { IfOk result (λ d. (e : plain.Database) →
        IsRead Limits.Waived (schema_of s.now) text.now e → e ≡ d) }
    ensures database { IfOk result (λ d. IsDatabase (schema_of s.now) d) }
    ensures order { IfOk result (λ d. map (λ t. t.model) d
        ≡ model_numbers (schema_of s.now).models) }
    ensures refused { IfErr result (λ err. err ≢ ReadErr.OutOfMemory →
        IsRefusedAs Limits.Waived (schema_of s.now) text.now err) }
    ensures none { IfErr result (λ err. err ≢ ReadErr.OutOfMemory →
        (d : plain.Database) → ¬ (IsRead Limits.Waived (schema_of s.now) text.now d)) }
    ensures full { IfErr result (λ err. (what : Limit) → err ≢ ReadErr.Full what) }
{
    read_within(alloc, Limits::Waived, text, s)
}
