//! What a script makes of what is stored.

ghost use Rattle.std.specs.Prelude.{◌≡◌, ◌+◌, ◌++◌, ◌<◌, IfOk};
ghost use Rattle.type_schema.specs.Script.{IsScript, count, schema_at};
ghost use Rattle.type_schema.specs.SchemaViews.{schema_of, script_of};
ghost use Rattle.store_keeper.specs.Stored.{IsStored, last_version, stored_of};
ghost use Rattle.store_apply.specs.Applied.{IsApplied};
ghost use Rattle.store_apply.specs.Notes.{new_notes};
ghost use Rattle.store_apply.specs.Settling.{MaySettle};

use crate::notes::{add_all_notes, copied_notes};
use crate::settling::settle;
use sqlite_items::Items;
use std::alloc::{AllocError, Global};
use store_keeper::{Note, Stored};
use store_migrate::migrate;
use type_anew::databases_move;
use type_schema::{Schema, TScript};

/// The schema after all commands.
pub fn last_schema(t: &TScript) -> &Schema
    requires { IsScript (script_of t.now) }
    ensures { schema_of result.now ≡ schema_at (script_of t.now) (count (script_of t.now)) }
{
    let schemas = t.schemas.as_slice();
    let last = t.commands.len();
    &schemas[last]
}

/// The notes, and behind them those of the script.
fn all_notes(
    alloc: Global,
    notes: &[Note],
    t: &TScript,
    version: u64,
) -> Result<Items<Note>, AllocError>
    requires { IsScript (script_of t.now) }
    ensures { IfOk result (λ all. all ≡ notes.now ++ new_notes (script_of t.now) version) }
{
    let mut all = copied_notes(alloc, notes)?;
    add_all_notes(alloc, &mut all, t, version)?;
    Ok(Items::from_vec(all))
}

/// What the script makes of what is stored: the last schema, numbered anew; the next version; the
/// database after the script, numbered likewise; and the notes, with one more for each right that
/// the script weakens. The database is copied once. The script starts from the stored schema.
pub fn applied(alloc: Global, s: &Stored, t: &TScript) -> Result<Stored, AllocError>
    requires stored { IsStored (stored_of s.now) }
    requires version { s.now.version < last_version }
    requires script { IsScript (script_of t.now) }
    requires start { schema_at (script_of t.now) 0 ≡ schema_of s.now.schema }
    requires room { MaySettle (schema_at (script_of t.now) (count (script_of t.now))) }
    ensures applied { IfOk result (λ after.
        IsApplied (stored_of s.now) (script_of t.now) (stored_of after)) }
    ensures stored { IfOk result (λ after. IsStored (stored_of after)) }
{
    databases_move();
    let last = last_schema(t);
    let schema = settle(alloc, last)?;
    let mut base = migrate(alloc, t, &s.base)?;
    base.renumber(last);
    let version = s.version + 1;
    let notes = all_notes(alloc, s.notes.as_slice(), t, version)?;
    Ok(Stored::new(schema, version, base, notes))
}
