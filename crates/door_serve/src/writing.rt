//! `write`

ghost use Rattle.std.specs.Prelude.{◌≡◌, IfOk, IfSome, IsSomeAnd, OnErr, OnOk};
ghost use Rattle.app_store.specs.Headline.{IsHeld};
ghost use Rattle.data_records.specs.Changed.{IsFitting, with_field};
ghost use Rattle.data_records.specs.Views.{record_data, value_data};
ghost use Rattle.door_meaning.specs.Records.{write_stage};
ghost use Rattle.door_meaning.specs.Sessions.{outcome_of};
ghost use Rattle.door_serve.specs.Changing.{Changes, Keeps};
ghost use Rattle.door_serve.specs.DoorState.{state_of};
ghost use Rattle.store_keeper.specs.Changes.{MayPut, with_put};
ghost use Rattle.store_keeper.specs.declared.keeper.KeepCall.TheVariants.{Put};
ghost use Rattle.type_schema.specs.SchemaViews.{field_info_of, model_info_of};

use crate::door::Door;
use crate::door_err::{DoorErr, ended};
use crate::keeping::keep_record;
use data_records::{Database, Record, databases_stay};
use data_tree::Lit;
use door_judge::{Cell, Setting, record_with, setting_ready};
use door_meaning::Reply;
use std::alloc::Global;
use store_keeper::Keeper;
use text_tree::Named;

/// Stores the record, and then puts the value into its field.
fn set_kept<K: Keeper>(
    alloc: Global,
    base: &mut Database,
    made: &Record,
    set: Setting<'_>,
    store: &mut K,
) -> Result<Reply, DoorErr>
    requires fits { IsFitting base.old set.info.now.number made.now.id
        (field_info_of set.field.now) (value_data set.value) }
    requires may { IfSome (K.told store.old) (λ held. IsSomeAnd held
        (λ s. MayPut s (model_info_of set.info.now) (record_data made.now))) }
    ensures keeps { Keeps K.told K.calls K.faults
        (with_put set.entry.info.now.number (record_data made.now)) Put store.old store.new
        result }
    ensures reply { IfOk result (λ reply. reply ≡ Reply.Done) }
    ensures done { OnOk result (base.new ≡ with_field set.entry.info.now.number made.now.id
        set.entry.field.now.number (value_data set.entry.value) base.old) }
    ensures kept { OnErr result (base.new ≡ base.old) }
{
    keep_record(alloc, set.info, made, store)?;
    base.put_field(set.info.number, made.id, set.field, set.value);
    Ok(Reply::Done)
}

impl Door {
    /// `write`
    pub(crate) fn write<K: Keeper>(
        &mut self,
        alloc: Global,
        session: &Named,
        cell: &Cell<'_>,
        l: &Lit,
        store: &mut K,
    ) -> Result<Reply, DoorErr>
        requires { IsHeld (K.told store.old) (state_of self.old).stored }
        ensures { Changes K.told K.calls K.faults (outcome_of (state_of self.old)
            (write_stage (state_of self.old) session.now cell.now.model.now cell.now.id
            cell.now.field.now l.now)) (state_of self.old) store.old store.new result
            (state_of self.new) }
    {
        databases_stay();
        let who = match self.live(session.name.bytes()) {
            Ok(s) => s.who,
            Err(halt) => return ended(halt),
        };
        let base = &mut self.stored.base;
        let set = match setting_ready(alloc, &self.stored.schema, base, who, cell, l) {
            Ok(set) => set,
            Err(halt) => return ended(halt),
        };
        let made = record_with(alloc, base, cell.id.number, &set)?;
        set_kept(alloc, base, &made, set, store)
    }
}
