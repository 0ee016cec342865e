//! The tables of a start database at the front of a text.

ghost use Rattle.std.specs.Prelude.{◌≡◌, ◌++◌, ◌∷◌, [], OnOk, map};
ghost use Rattle.data_records.specs.Views.{table_data};
ghost use Rattle.data_back.specs.Reading.{ReadsAs};
ghost use Rattle.type_schema.specs.SchemaViews.{model_info_of};
ghost use Rattle.check_report_back.specs.Back.{tables_from};

use crate::access::read_mark;
use data_back::{Scanner, Stop, read_table};
use data_records::Table;
use std::alloc::{AllocError, Global};
use type_schema::ModelInfo;

/// Adds a table at the end.
fn push_table(tables: &mut Vec<Table>, made: Table) -> Result<(), AllocError>
    ensures { OnOk result (tables.new.items ≡ tables.old.items ++ made ∷ []) }
{
    tables.push(made)?;
    Ok(())
}

/// Adds the tables of models.
#[tactic(auto, using(data_back::proofs::Turns::map_one))]
fn push_tables(
    alloc: Global,
    scanner: &mut Scanner<'_>,
    models: &[ModelInfo],
    tables: &mut Vec<Table>,
) -> Result<(), Stop>
    ensures { ReadsAs (λ _. map table_data tables.new.items)
        (tables_from (map table_data tables.old.items) (map model_info_of models.now)
        scanner.old) result scanner.new }
{
    match models {
        [] => Ok(()),
        [info, models @ ..] => {
            let _name = scanner.name()?;
            let _mark = read_mark(scanner)?;
            let made = read_table(alloc, scanner, info)?;
            push_table(tables, made)?;
            push_tables(alloc, scanner, models, tables)
        }
    }
}

/// The tables of models at the front, one after another, each behind a name.
pub(crate) fn read_tables(
    alloc: Global,
    scanner: &mut Scanner<'_>,
    models: &[ModelInfo],
) -> Result<Vec<Table>, Stop>
    ensures { ReadsAs (λ tables. map table_data tables.items)
        (tables_from [] (map model_info_of models.now) scanner.old) result scanner.new }
{
    let mut tables = Vec::new(alloc);
    push_tables(alloc, scanner, models, &mut tables)?;
    Ok(tables)
}
