//! `create`

ghost use Rattle.std.specs.Prelude.{◌≡◌, true, IfSome, IsSomeAnd};
ghost use Rattle.app_store.specs.Headline.{IsHeld};
ghost use Rattle.data_meaning.specs.Database.{has_record};
ghost use Rattle.door_meaning.specs.Records.{create_stage};
ghost use Rattle.door_meaning.specs.Sessions.{outcome_of};
ghost use Rattle.door_serve.specs.Changing.{Changes, Keeps, record_at};
ghost use Rattle.door_serve.specs.DoorState.{state_of};
ghost use Rattle.store_keeper.specs.Changes.{MayPut, with_put};
ghost use Rattle.store_keeper.specs.declared.keeper.KeepCall.TheVariants.{Put};
ghost use Rattle.type_schema.specs.SchemaViews.{model_info_of};

use crate::door::Door;
use crate::door_err::{DoorErr, ended};
use crate::keeping::keep_record;
use data_records::{Database, databases_stay};
use data_tree::FieldLit;
use door_judge::make_record;
use door_meaning::Reply;
use std::alloc::Global;
use store_keeper::Keeper;
use text_tree::Named;
use type_schema::ModelInfo;

/// Stores the record that was made.
fn keep_made<K: Keeper>(
    alloc: Global,
    d: &Database,
    info: &ModelInfo,
    id: u64,
    store: &mut K,
) -> Result<(), DoorErr>
    requires there { has_record d.now info.now.number id ≡ true }
    requires may { IfSome (K.told store.old) (λ held. IsSomeAnd held
        (λ s. IfSome (record_at d.now info.now.number id) (MayPut s (model_info_of info.now)))) }
    ensures { IfSome (record_at d.now info.now.number id) (λ made. Keeps K.told K.calls K.faults
        (with_put info.now.number made) Put store.old store.new result) }
{
    match d.get(info.number, id) {
        Some(made) => keep_record(alloc, info, made, store),
        None => unreachable!(),
    }
}

impl Door {
    /// `create`
    pub(crate) fn create<K: Keeper>(
        &mut self,
        alloc: Global,
        session: &Named,
        model: &Named,
        ws: &[FieldLit],
        store: &mut K,
    ) -> Result<Reply, DoorErr>
        requires { IsHeld (K.told store.old) (state_of self.old).stored }
        ensures { Changes K.told K.calls K.faults (outcome_of (state_of self.old)
            (create_stage (state_of self.old) session.now model.now ws.now)) (state_of self.old)
            store.old store.new result (state_of self.new) }
    {
        databases_stay();
        let who = match self.live(session.name.bytes()) {
            Ok(s) => s.who,
            Err(halt) => return ended(halt),
        };
        let base = &mut self.stored.base;
        let making = match make_record(alloc, &self.stored.schema, base, who, model, ws) {
            Ok(making) => making,
            Err(halt) => return ended(halt),
        };
        let info = making.info;
        if let Err(err) = keep_made(alloc, base, info, making.id, store) {
            base.take_back(info.number);
            return Err(err);
        }
        Ok(Reply::New(making.id))
    }
}
