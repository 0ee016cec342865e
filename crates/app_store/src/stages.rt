//! The stages of each command over the store.

ghost use Rattle.std.specs.Prelude.{◌≡◌, ◌<◌, List, [], ◌∷◌, Err, IfOk, IfSome, None, option_copied};
ghost use Rattle.std.specs.List.{flat_map};
ghost use Rattle.app_files.specs.Stages.{ComesTo, Stopping, Then};
ghost use Rattle.app_files.specs.Answer.{Checks, ScriptOf, SpecOf};
ghost use Rattle.app_files.specs.Loads.{Fetches};
ghost use Rattle.app_files.specs.declared.stop.Stop.TheVariants as files;
ghost use Rattle.app_flow.specs.Outside.{IsRead};
ghost use Rattle.app_store.specs.Answer.{AppliesScript, AsksBase, ChecksHeld, Inits, IsDecision, Runs, Shows, stored_by};
ghost use Rattle.app_store.specs.Calls.{Call, fetched_by, kept_by};
ghost use Rattle.app_store.specs.Ran.{Ran};
ghost use Rattle.app_store.specs.Run.{told_by};
ghost use Rattle.app_store.specs.Stages.{Makes};
ghost use Rattle.app_store.specs.Seen.{command_seen};
ghost use Rattle.check_scripts.specs.Outcomes.{accepted};
ghost use Rattle.check_scripts.specs.Views.{outcome_data};
ghost use Rattle.data_meaning.specs.Database.{IsDatabase, IsInOrder};
ghost use Rattle.type_schema.specs.Script.{IsScript, count, schema_at};
ghost use Rattle.type_schema.specs.SchemaViews.{schema_of, script_of};
ghost use Rattle.store_apply.specs.Settling.{IsRenumbered, MaySettle};
ghost use Rattle.store_keeper.specs.Stored.{IsSettled, IsStored, last_version, stored_of};

use crate::answer::StoreAnswer;
use crate::data::base_of_file;
use crate::stop::StoreStop;
use crate::store::{ask_free, ask_held, ask_rising};
use crate::words::StoreCommand;
use app_files::{Checked, check_file, schema_of_file};
use app_flow::Shelf;
use check_scripts::Outcome;
use data_records::Database;
use std::alloc::{AllocError, Global};
use store_apply::{applied, empty, initial, script_settles, scripts_start, settle, specs_settle};
use store_keeper::{Keeper, Stored};
use text_ast::Txt;
use type_schema::Schema;

/// The schema of the specification in the file of that name, numbered anew.
fn settled_schema<F: Shelf>(alloc: Global, shelf: &mut F, name: &Txt) -> Result<Schema, StoreStop>
    ensures asked { ComesTo (Then (Stopping StoreStop.Files
        (Then (Fetches (F.told shelf.old) name.now) (SpecOf name.now)))
        (λ s. Makes (IsRenumbered s))) schema_of result }
    ensures settled { IfOk result (λ s. IsSettled (schema_of s)) }
    ensures shelf { IsRead F.told F.calls F.faults shelf.old shelf.new (name.now ∷ []) (result
        ≡ Err (StoreStop.Files files.ReadFault)) }
{
    let schema = schema_of_file(alloc, shelf, name)?;
    specs_settle();
    Ok(settle(alloc, &schema)?)
}

/// The database that the file of that name writes over the schema, or, where none is named, that
/// without records.
fn base_over<F: Shelf>(
    alloc: Global,
    shelf: &mut F,
    s: &Schema,
    base_name: Option<&Txt>,
) -> Result<Database, StoreStop>
    requires { IsSettled (schema_of s.now) }
    ensures asked { (calls : List Call) × AsksBase (told_by (F.told shelf.old) None)
        (option_copied base_name.entry) (schema_of s.now) calls result × (flat_map kept_by calls ≡ [])
        × IsRead F.told F.calls F.faults shelf.old shelf.new (flat_map fetched_by calls) (result
        ≡ Err (StoreStop.Files files.ReadFault)) }
    ensures database { IfOk result (λ d. IsDatabase (schema_of s.now) d) }
    ensures order { IfOk result (λ d. IsInOrder (schema_of s.now) d) }
{
    match base_name {
        Some(name) => base_of_file(alloc, shelf, s, name),
        None => Ok(empty(alloc, s)?),
    }
}

/// What is to be stored by `init`.
fn init<F: Shelf, K: Keeper>(
    alloc: Global,
    shelf: &mut F,
    store: &mut K,
    spec: &Txt,
    base_name: Option<&Txt>,
) -> Result<StoreAnswer, StoreStop>
    ensures ran { Ran F.told F.calls F.faults K.told K.calls K.faults
        (Inits (told_by (F.told shelf.old) (K.told store.old)) spec.now (option_copied base_name.entry))
        (λ answer. answer) shelf.old shelf.new store.old store.new result }
    ensures stored { IfOk result (λ answer. IfSome (stored_by answer) IsStored) }
{
    ask_free(alloc, store)?;
    let schema = settled_schema(alloc, shelf, spec)?;
    let base = base_over(alloc, shelf, &schema, base_name)?;
    Ok(StoreAnswer::Initialised(initial(alloc, schema, base)))
}

/// What `check SCRIPT` finds.
fn check_over<F: Shelf, K: Keeper>(
    alloc: Global,
    shelf: &mut F,
    store: &mut K,
    name: &Txt,
) -> Result<StoreAnswer, StoreStop>
    ensures ran { Ran F.told F.calls F.faults K.told K.calls K.faults
        (ChecksHeld (told_by (F.told shelf.old) (K.told store.old)) name.now)
        (λ answer. answer) shelf.old shelf.new store.old store.new result }
    ensures stored { IfOk result (λ answer. IfSome (stored_by answer) IsStored) }
{
    let held = ask_held(alloc, store)?;
    let checked = check_file(alloc, shelf, &held.schema, name)?;
    Ok(StoreAnswer::Checked(checked))
}

/// What is made of a script that was checked over what is stored.
fn decision(alloc: Global, held: &Stored, checked: Checked) -> Result<StoreAnswer, AllocError>
    requires stored { IsStored (stored_of held.now) }
    requires version { held.now.version < last_version }
    requires script { IsScript (script_of checked.script) }
    requires start { schema_at (script_of checked.script) 0 ≡ schema_of held.now.schema }
    requires room { MaySettle (schema_at (script_of checked.script)
        (count (script_of checked.script))) }
    ensures decided { IfOk result (IsDecision (stored_of held.now) checked) }
    ensures stored { IfOk result (λ answer. IfSome (stored_by answer) IsStored) }
{
    let Outcome::Accepted { duties } = checked.outcome else {
        return Ok(StoreAnswer::Checked(checked));
    };
    let after = applied(alloc, held, &checked.script)?;
    Ok(StoreAnswer::Applied(duties, after))
}

/// What is to be stored by `apply SCRIPT`, or what was found where nothing is.
fn apply<F: Shelf, K: Keeper>(
    alloc: Global,
    shelf: &mut F,
    store: &mut K,
    name: &Txt,
) -> Result<StoreAnswer, StoreStop>
    ensures ran { Ran F.told F.calls F.faults K.told K.calls K.faults
        (AppliesScript (told_by (F.told shelf.old) (K.told store.old)) name.now)
        (λ answer. answer) shelf.old shelf.new store.old store.new result }
    ensures stored { IfOk result (λ answer. IfSome (stored_by answer) IsStored) }
{
    let held = ask_rising(alloc, store)?;
    let checked = check_file(alloc, shelf, &held.schema, name)?;
    scripts_start();
    script_settles(&checked.script);
    Ok(decision(alloc, &held, checked)?)
}

/// What `show` shows.
fn show<F: Shelf, K: Keeper>(
    alloc: Global,
    shelf: &mut F,
    store: &mut K,
) -> Result<StoreAnswer, StoreStop>
    ensures ran { Ran F.told F.calls F.faults K.told K.calls K.faults
        (Shows (told_by (F.told shelf.old) (K.told store.old)))
        (λ answer. answer) shelf.old shelf.new store.old store.new result }
    ensures stored { IfOk result (λ answer. IfSome (stored_by answer) IsStored) }
{
    let held = ask_held(alloc, store)?;
    Ok(StoreAnswer::Shown(held))
}

/// What the command comes to before anything is stored.
pub(crate) fn answer_to_command<F: Shelf, K: Keeper>(
    alloc: Global,
    command: StoreCommand<'_>,
    shelf: &mut F,
    store: &mut K,
) -> Result<StoreAnswer, StoreStop>
    ensures ran { Ran F.told F.calls F.faults K.told K.calls K.faults
        (Runs (told_by (F.told shelf.old) (K.told store.old)) (command_seen command.entry))
        (λ answer. answer) shelf.old shelf.new store.old store.new result }
    ensures stored { IfOk result (λ answer. IfSome (stored_by answer) IsStored) }
{
    match command {
        StoreCommand::Init(spec, base_name) => init(alloc, shelf, store, spec, base_name),
        StoreCommand::Check(name) => check_over(alloc, shelf, store, name),
        StoreCommand::Apply(name) => apply(alloc, shelf, store, name),
        StoreCommand::Show => show(alloc, shelf, store),
    }
}
