//! The database that trees write, or what is wrong with them first.

ghost use Rattle.std.specs.Prelude.{◌≡◌, IfErr, IfOk, None, map};
ghost use Rattle.data_judge.specs.Limits as spec;
ghost use Rattle.data_judge.specs.InOrder.{AreApartEach};
ghost use Rattle.data_judge.specs.Judged.{IsGiven, IsRefusedFor, Writes};
ghost use Rattle.data_meaning.specs.Database.{IsDatabase};
ghost use Rattle.data_judge.specs.Ranged.{IsRanged};
ghost use Rattle.data_judge.specs.declared.limits.Limits.{Limits};
ghost use Rattle.data_records.specs.Kept.{AreGiven};
ghost use Rattle.data_records.specs.Rising.{AreRising};
ghost use Rattle.data_records.specs.Views.{table_data};
ghost use Rattle.type_schema.specs.Proper.{IsProper, model_numbers};
ghost use Rattle.type_schema.specs.SchemaViews.{schema_of};

use crate::fault::Refusal;
use crate::faults::rule_fault;
use crate::limits::{Limits, are_ranged, excess};
use crate::references::lost;
use crate::tables::tables_of;
use data_records::{Database, Limit, Table};
use data_tree::TableLit;
use std::alloc::Global;
use type_schema::Schema;

/// The tables of what is written, where no part breaks a rule.
fn written(alloc: Global, ts: &[TableLit], s: &Schema) -> Result<Vec<Table>, Refusal>
    requires { AreApartEach (schema_of s.now).models }
    ensures ok { IfOk result (λ tables. Writes (schema_of s.now) ts.now
        (map table_data tables.items)) }
    ensures rising { IfOk result (λ tables. AreRising (map table_data tables.items)) }
    ensures given { IfOk result (λ tables. AreGiven (map table_data tables.items)) }
    ensures refused { IfErr result (λ refusal. (l : Limits) →
        IsRefusedFor l (schema_of s.now) ts.now refusal) }
{
    let models = s.models.as_slice();
    match rule_fault(alloc, models, ts)? {
        Some(fault) => Err(Refusal::Broken(fault)),
        None => Ok(tables_of(alloc, ts, models)?),
    }
}

/// The database, unless an id in a value names no record of it, or it holds too much.
fn checked(
    database: Database,
    excess: Option<Limit>,
    ts: &[TableLit],
    s: &Schema,
) -> Result<Database, Refusal>
    requires writes { Writes (schema_of s.now) ts.now database }
    requires ranged { IsRanged database }
    requires proper { IsProper (schema_of s.now) }
    ensures ok { IfOk result (λ d. (l : Limits) → excess ≡ spec.excess l database →
        IsGiven l (schema_of s.now) ts.now d) }
    ensures database { IfOk result (λ d. IsDatabase (schema_of s.now) d) }
    ensures order { IfOk result (λ d. map (λ t. t.model) d
        ≡ model_numbers (schema_of s.now).models) }
    ensures refused { IfErr result (λ refusal. (l : Limits) → excess ≡ spec.excess l database →
        IsRefusedFor l (schema_of s.now) ts.now refusal) }
{
    match lost(&database, s.models.as_slice(), ts) {
        Some(at) => Err(Refusal::Dangling { at }),
        None => match excess {
            Some(what) => Err(Refusal::Full { what }),
            None => Ok(database),
        },
    }
}

/// The database over the schema that the trees of a text write, or what is wrong with them first:
/// the first part in reading order that breaks a rule, then the first id in a value that names no
/// record, then, where the limits are asked, that there are more than 20,000 records, then that
/// they weigh more than 33,554,432. Its tables are those of the schema's models, in their order;
/// the schema is proper.
pub fn judge(
    alloc: Global,
    limits: Limits,
    ts: &[TableLit],
    s: &Schema,
) -> Result<Database, Refusal>
    requires { IsProper (schema_of s.now) }
    ensures ok { IfOk result (λ d. IsGiven limits (schema_of s.now) ts.now d) }
    ensures database { IfOk result (λ d. IsDatabase (schema_of s.now) d) }
    ensures order { IfOk result (λ d. map (λ t. t.model) d
        ≡ model_numbers (schema_of s.now).models) }
    ensures refused { IfErr result (λ refusal.
        IsRefusedFor limits (schema_of s.now) ts.now refusal) }
{
    let tables = written(alloc, ts, s)?;
    are_ranged(tables.as_slice());
    let excess = excess(limits, tables.as_slice());
    let database = Database::of_tables(tables)?;
    checked(database, excess, ts, s)
}
