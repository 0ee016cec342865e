//! The database that a file writes, for `init`.

ghost use Rattle.std.specs.Prelude.{◌≡◌, ◌≢◌, ◌≤◌, ℕ, List, [], ◌∷◌, length, Err, IfOk};
ghost use Rattle.app_files.specs.Stages.{Then};
ghost use Rattle.app_files.specs.declared.stop.Stop.TheVariants as files;
ghost use Rattle.app_flow.specs.Outside.{IsRead};
ghost use Rattle.app_store.specs.Data.{DataOf, DataOfFile};
ghost use Rattle.data_judge.specs.declared.limits.Limits.TheVariants.{Asked};
ghost use Rattle.data_meaning.specs.Database.{IsDatabase, IsInOrder};
ghost use Rattle.data_read.specs.Reading.{IsRefusedAs};
ghost use Rattle.type_schema.specs.Proper.{IsProper};
ghost use Rattle.type_schema.specs.Schema as plain;
ghost use Rattle.type_schema.specs.SchemaViews.{schema_of};

use crate::limits::MOST_DATA_BYTES;
use crate::stop::{StoreRefusal, StoreStop};
use app_files::{NamedText, Refusal, Stop, fetch_within};
use app_flow::Shelf;
use data_read::{ReadErr, read_database};
use data_records::Database;
use std::alloc::Global;
use text_ast::Txt;
use type_schema::Schema;

/// What it comes to that the text of that name writes no database for this cause.
fn refused(alloc: Global, name: &Txt, err: ReadErr) -> StoreStop
    ensures { (s : plain.Schema) (text : List ℕ)
        → (err ≢ ReadErr.OutOfMemory → IsRefusedAs Asked s text err)
        → DataOf name.now s text (Err result) }
{
    let Ok(name) = name.copy(alloc) else {
        return StoreStop::Files(Stop::OutOfMemory);
    };
    match err {
        ReadErr::Syntax(err) => StoreStop::Files(Stop::Refused(Refusal::Text(name, err))),
        ReadErr::OutOfMemory => StoreStop::Files(Stop::OutOfMemory),
        ReadErr::Unknown { .. }
        | ReadErr::Absent { .. }
        | ReadErr::Twice { .. }
        | ReadErr::WrongShape { .. }
        | ReadErr::BadId { .. }
        | ReadErr::Dangling { .. }
        | ReadErr::Full { .. } => StoreStop::Refused(StoreRefusal::Data(name, err)),
    }
}

/// The database that the text writes over the schema.
fn base_of_text(alloc: Global, s: &Schema, text: NamedText<'_>) -> Result<Database, StoreStop>
    requires few { length text.bytes.now ≤ MOST_DATA_BYTES }
    requires proper { IsProper (schema_of s.now) }
    ensures read { DataOf text.entry.name.now (schema_of s.now) text.entry.bytes.now result }
    ensures database { IfOk result (λ d. IsDatabase (schema_of s.now) d) }
    ensures order { IfOk result (λ d. IsInOrder (schema_of s.now) d) }
{
    match read_database(alloc, text.bytes, s) {
        Ok(base) => Ok(base),
        Err(err) => Err(refused(alloc, text.name, err)),
    }
}

/// The database that the file of that name writes over the schema.
pub(crate) fn base_of_file<F: Shelf>(
    alloc: Global,
    shelf: &mut F,
    s: &Schema,
    name: &Txt,
) -> Result<Database, StoreStop>
    requires proper { IsProper (schema_of s.now) }
    ensures read { DataOfFile (F.told shelf.old) name.now (schema_of s.now) result }
    ensures database { IfOk result (λ d. IsDatabase (schema_of s.now) d) }
    ensures order { IfOk result (λ d. IsInOrder (schema_of s.now) d) }
    ensures shelf { IsRead F.told F.calls F.faults shelf.old shelf.new (name.now ∷ []) (result
        ≡ Err (StoreStop.Files files.ReadFault)) }
{
    let text = fetch_within(alloc, shelf, name, MOST_DATA_BYTES)?;
    let bytes = text.as_slice();
    base_of_text(alloc, s, NamedText { name, bytes })
}
