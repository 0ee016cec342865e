//! `delete`

ghost use Rattle.std.specs.Prelude.{◌≡◌, IfOk, IfSome, IsSomeAnd, OnErr, OnOk};
ghost use Rattle.app_store.specs.Headline.{IsHeld};
ghost use Rattle.data_records.specs.Removed.{without_record};
ghost use Rattle.door_meaning.specs.Records.{delete_stage};
ghost use Rattle.door_meaning.specs.Sessions.{outcome_of};
ghost use Rattle.door_serve.specs.Changing.{Changes, Keeps};
ghost use Rattle.door_serve.specs.DoorState.{state_of};
ghost use Rattle.store_keeper.specs.Changes.{MayDrop, with_drop};
ghost use Rattle.store_keeper.specs.declared.keeper.KeepCall.TheVariants.{DropRow};
ghost use Rattle.type_schema.specs.SchemaViews.{model_info_of};

use crate::door::Door;
use crate::door_err::{DoorErr, ended};
use crate::keeping::drop_kept;
use data_records::{Database, databases_stay};
use data_tree::WrittenId;
use door_judge::removal_ready;
use door_meaning::Reply;
use std::alloc::Global;
use store_keeper::Keeper;
use text_tree::Named;
use type_schema::ModelInfo;

/// Drops the record from the store, and then from the database.
fn drop_record<K: Keeper>(
    alloc: Global,
    base: &mut Database,
    info: &ModelInfo,
    id: u64,
    store: &mut K,
) -> Result<Reply, DoorErr>
    requires { IfSome (K.told store.old) (λ held. IsSomeAnd held
        (λ s. MayDrop s (model_info_of info.now) id)) }
    ensures keeps { Keeps K.told K.calls K.faults (with_drop info.now.number id) DropRow store.old
        store.new result }
    ensures reply { IfOk result (λ reply. reply ≡ Reply.Done) }
    ensures done { OnOk result (base.new ≡ without_record info.now.number id base.old) }
    ensures kept { OnErr result (base.new ≡ base.old) }
{
    drop_kept(alloc, info, id, store)?;
    base.erase(info.number, id);
    Ok(Reply::Done)
}

impl Door {
    /// `delete`
    pub(crate) fn delete<K: Keeper>(
        &mut self,
        alloc: Global,
        session: &Named,
        model: &Named,
        id: WrittenId,
        store: &mut K,
    ) -> Result<Reply, DoorErr>
        requires { IsHeld (K.told store.old) (state_of self.old).stored }
        ensures { Changes K.told K.calls K.faults (outcome_of (state_of self.old)
            (delete_stage (state_of self.old) session.now model.now id)) (state_of self.old)
            store.old store.new result (state_of self.new) }
    {
        databases_stay();
        let who = match self.live(session.name.bytes()) {
            Ok(s) => s.who,
            Err(halt) => return ended(halt),
        };
        let id = id.number;
        let base = &mut self.stored.base;
        let info = match removal_ready(alloc, &self.stored.schema, base, who, model, id) {
            Ok(info) => info,
            Err(halt) => return ended(halt),
        };
        drop_record(alloc, base, info, id, store)
    }
}
