//! `migrate`: a script is carried out on what the door holds.

ghost use Rattle.std.specs.Prelude.{◌≡◌, ◌≢◌, ◌<◌, ℕ, List, Err, IfOk, map};
ghost use Rattle.std.specs.List.{flat_map};
ghost use Rattle.app_files.specs.declared.stop.Stop.TheVariants as files;
ghost use Rattle.app_flow.specs.Outside.{IsRead};
ghost use Rattle.app_store.specs.Calls.{Call, fetched_by};
ghost use Rattle.app_store.specs.Headline.{IsHeld};
ghost use Rattle.app_store.specs.Told.{IsKept};
ghost use Rattle.door_meaning.specs.Migrates.{IsMigrated, IsMigration, IsStopText};
ghost use Rattle.door_meaning.specs.Migrates.{moved_session};
ghost use Rattle.door_meaning.specs.Replies as plain;
ghost use Rattle.door_meaning.specs.Replies.{reply_data};
ghost use Rattle.door_serve.specs.Doing.{Does};
ghost use Rattle.door_serve.specs.DoorState.{state_of};
ghost use Rattle.door_serve.specs.Moving.{AsksScript, IsCarried, MigrationMayFetch};
ghost use Rattle.store_apply.specs.Applied.{IsApplied};
ghost use Rattle.store_apply.specs.Settling.{MaySettle};
ghost use Rattle.store_keeper.specs.Content.{replaced};
ghost use Rattle.store_keeper.specs.Stored.{IsStored, last_version, stored_of};
ghost use Rattle.store_keeper.specs.declared.keeper.KeepCall.{KeepCall};
ghost use Rattle.type_anew.specs.Room.{IsWithinNumbers};
ghost use Rattle.type_schema.specs.Script.{IsScript, count, schema_at};
ghost use Rattle.type_schema.specs.SchemaViews.{schema_of, script_of};

use crate::door::Door;
use crate::door_err::DoorErr;
use crate::moved::move_sessions;
use app_files::{Checked, Stop, check_file, print_checked};
use app_flow::Shelf;
use app_store::{StoreAnswer, StoreRefusal, StoreStop, print_applied, store_report_of};
use check_scripts::Outcome;
use door_meaning::Reply;
use sqlite_items::Items;
use std::alloc::{AllocError, Global};
use store_apply::{applied, last_schema, script_settles, scripts_start};
use store_keeper::limits::LAST_VERSION;
use store_keeper::{Keeper, Stored};
use text_ast::Txt;
use type_schema::{Schema, TScript};

/// The reply of a report.
fn reported(report: Vec<u8>) -> Reply
    ensures { reply_data result ≡ plain.Script report.items }
{
    Reply::Script(Items::from_vec(report))
}

/// The script in the file of that name over what is stored, which is checked.
fn checked_over<F: Shelf>(
    alloc: Global,
    shelf: &mut F,
    held: &Stored,
    name: &Txt,
) -> Result<Checked, StoreStop>
    requires { IsStored (stored_of held.now) }
    ensures asked { (calls : List Call)
        × AsksScript (F.told shelf.old) (stored_of held.now) name.now calls result
        × IsRead F.told F.calls F.faults shelf.old shelf.new (flat_map fetched_by calls) (result
        ≡ Err (StoreStop.Files files.ReadFault)) }
    ensures rises { IfOk result (λ checked. held.now.version < last_version) }
    ensures script { IfOk result (λ checked. IsScript (script_of checked.script)) }
    ensures start { IfOk result (λ checked. schema_at (script_of checked.script) 0
        ≡ schema_of held.now.schema) }
    ensures room { IfOk result (λ checked. MaySettle (schema_at (script_of checked.script)
        (count (script_of checked.script)))) }
    ensures not_stored { result ≢ Err StoreStop.StoreFault }
{
    if held.version >= LAST_VERSION {
        return Err(StoreStop::Refused(StoreRefusal::IsSpent));
    }
    let checked = check_file(alloc, shelf, &held.schema, name)?;
    scripts_start();
    script_settles(&checked.script);
    Ok(checked)
}

/// The reply where this stopped a script: its report; but a fault or want of memory has none.
fn stopped(alloc: Global, why: StoreStop) -> Result<Reply, DoorErr>
    requires { why ≢ StoreStop.StoreFault }
    ensures replied { IfOk result (λ reply. (text : List ℕ) × IsStopText why text
        × (reply_data reply ≡ plain.Script text)) }
    ensures not_read { result ≡ Err DoorErr.ReadFault → why ≡ StoreStop.Files files.ReadFault }
    ensures not_stored { result ≢ Err DoorErr.StoreFault }
{
    let answer = match why {
        StoreStop::Files(Stop::Refused(refusal)) => StoreAnswer::FilesRefused(refusal),
        StoreStop::Refused(refusal) => StoreAnswer::Refused(refusal),
        StoreStop::Files(Stop::ReadFault) => return Err(DoorErr::ReadFault),
        StoreStop::Files(Stop::OutOfMemory) => return Err(DoorErr::OutOfMemory),
        StoreStop::StoreFault => unreachable!(),
    };
    Ok(reported(store_report_of(alloc, &answer)?))
}

/// What the script makes of what is stored. Its references are noted, so that records are found by
/// them quickly.
fn indexed(alloc: Global, held: &Stored, t: &TScript) -> Result<Stored, AllocError>
    requires stored { IsStored (stored_of held.now) }
    requires version { held.now.version < last_version }
    requires script { IsScript (script_of t.now) }
    requires start { schema_at (script_of t.now) 0 ≡ schema_of held.now.schema }
    requires room { MaySettle (schema_at (script_of t.now) (count (script_of t.now))) }
    ensures applied { IfOk result
        (λ after. IsApplied (stored_of held.now) (script_of t.now) (stored_of after)) }
    ensures stored { IfOk result (λ after. IsStored (stored_of after)) }
{
    let mut after = applied(alloc, held, t)?;
    after.base.index_references(alloc);
    Ok(after)
}

impl Door {
    /// Keeps what a script made of what is stored, whose last schema this is.
    fn move_to(&mut self, after: Stored, last: &Schema)
        requires { IsWithinNumbers (schema_of last.now) }
        ensures stored { self.new.stored ≡ after }
        ensures sessions { self.new.sessions
            ≡ map (moved_session (schema_of last.now)) self.old.sessions }
    {
        move_sessions(&mut self.sessions, last);
        self.stored = after;
    }

    /// Stores what a script makes of what is stored, and keeps it then. The report is made before.
    fn carry_out<K: Keeper>(
        &mut self,
        alloc: Global,
        store: &mut K,
        checked: &Checked,
    ) -> Result<Reply, DoorErr>
        requires held { IsHeld (K.told store.old) (state_of self.old).stored }
        requires rises { (state_of self.old).stored.version < last_version }
        requires script { IsScript (script_of checked.now.script) }
        requires start { schema_at (script_of checked.now.script) 0
            ≡ (state_of self.old).stored.schema }
        requires room { MaySettle (schema_at (script_of checked.now.script)
            (count (script_of checked.now.script))) }
        ensures carried { (made : List KeepCall)
            × IsCarried (IsMigrated (state_of self.old) checked.now) (state_of self.old)
            made result (state_of self.new)
            × IsKept K.calls K.faults store.old store.new made (result ≡ Err DoorErr.StoreFault) }
        ensures stored { IsStored (state_of self.new).stored }
        ensures held { K.told store.new
            ≡ replaced (state_of self.new).stored (K.told store.old) }
        ensures not_read { result ≢ Err DoorErr.ReadFault }
    {
        let Outcome::Accepted { duties } = checked.outcome else {
            return Ok(reported(print_checked(alloc, checked)?));
        };
        let after = indexed(alloc, &self.stored, &checked.script)?;
        let report = print_applied(alloc, duties, after.version)?;
        store.replace(alloc, &after)?;
        self.move_to(after, last_schema(&checked.script));
        Ok(reported(report))
    }

    /// `migrate`
    pub(crate) fn migrate<F: Shelf, K: Keeper>(
        &mut self,
        alloc: Global,
        name: &Txt,
        shelf: &mut F,
        store: &mut K,
    ) -> Result<Reply, DoorErr>
        requires { IsHeld (K.told store.old) (state_of self.old).stored }
        ensures { Does F.told F.calls F.faults K.told K.calls K.faults
            (MigrationMayFetch (state_of self.old) name.now)
            (IsMigration (F.told shelf.old) (state_of self.old) name.now)
            (state_of self.old) shelf.old shelf.new store.old store.new result (state_of self.new) }
    {
        match checked_over(alloc, shelf, &self.stored, name) {
            Ok(checked) => self.carry_out(alloc, store, &checked),
            Err(why) => stopped(alloc, why),
        }
    }
}
