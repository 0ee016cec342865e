//! The trait of keepers, and what their calls answer.
ghost use Rattle.std.specs.Prelude.{◌≡◌, ℕ, ◌≤◌, List, [], ◌∷◌, Option, IfOk, IfSome, OnErr, OnOk};
ghost use Rattle.std.specs.Prelude.{IsSomeAnd};
ghost use Rattle.std.specs.Option.{option_map};
ghost use Rattle.app_flow.specs.Faults.{Rose};
ghost use Rattle.app_flow.specs.Told.{Appends};
ghost use Rattle.data_records.specs.Views.{record_data};
ghost use Rattle.type_schema.specs.SchemaViews.{model_info_of};
ghost use Rattle.store_keeper.specs.Changes.{MayDrop, MayPut, with_drop, with_put};
ghost use Rattle.store_keeper.specs.Content.{Content, changed, replaced};
ghost use Rattle.store_keeper.specs.Stored.{IsStored, stored_of};
ghost use Rattle.store_keeper.specs.declared.keeper.KeepCall.{KeepCall};
ghost use Rattle.store_keeper.specs.declared.keeper.KeepErr.TheVariants.{OutOfMemory};

use crate::stored::Stored;
use data_records::Record;
use std::alloc::{AllocError, Global};
use thiserror::Error;
use type_schema::ModelInfo;

/// Why a keeper gave no answer.
#[derive(Clone, Copy, Debug, PartialEq, Eq, Error)]
pub enum KeepErr {
    /// The keeper met a fault, which it counted.
    #[error("a fault of the store")]
    Failed,
    /// There was no memory for what is stored.
    #[error("out of memory")]
    OutOfMemory,
}

impl From<AllocError> for KeepErr {
    ghost from_gives = { λ _ error. error ≡ OutOfMemory };

    fn from(_error: AllocError) -> KeepErr {
        KeepErr::OutOfMemory
    }
}

/// A call of a keeper.
#[derive(Clone, Copy, Debug, PartialEq, Eq)]
pub enum KeepCall {
    Load,
    Replace,
    Put,
    DropRow,
}

/// Where a specification and its database are kept.
///
/// After an `Ok` a write is whole, and after an `Err` the keeper holds what it held. `Failed` comes
/// only where the keeper counted a fault, and `OutOfMemory` for want of memory.
pub trait Keeper {
    // What is stored, where the keeper tells it. One that tells it goes on telling it.
    ghost told: { Self → Content };

    // The calls so far, in their order, where the keeper tells them. A keeper may stop telling
    // them, and never begins to.
    ghost calls: { Self → Option (List KeepCall) };

    // How many faults it counted.
    ghost faults: { Self → ℕ };

    /// What is stored, or None where nothing is.
    fn load(&mut self, alloc: Global) -> Result<Option<Stored>, KeepErr>
        ensures found { IfOk result
            (λ found. IfSome (told self.old) (λ held. option_map stored_of found ≡ held)) }
        ensures stored { IfOk result (λ found. IfSome found (λ s. IsStored (stored_of s))) }
        ensures called { Appends (calls self.old) (calls self.new) (KeepCall.Load ∷ []) }
        ensures kept { told self.new ≡ told self.old }
        ensures counted { result ≡ Err KeepErr.Failed → Rose (faults self.old) (faults self.new) }
        ensures never_falls { faults self.old ≤ faults self.new };

    /// Stores this in place of what is stored.
    fn replace(&mut self, alloc: Global, s: &Stored) -> Result<(), KeepErr>
        requires { IsStored (stored_of s.now) }
        ensures done { OnOk result (told self.new ≡ replaced (stored_of s.now) (told self.old)) }
        ensures called { Appends (calls self.old) (calls self.new) (KeepCall.Replace ∷ []) }
        ensures kept { OnErr result (told self.new ≡ told self.old) }
        ensures counted { result ≡ Err KeepErr.Failed → Rose (faults self.old) (faults self.new) }
        ensures never_falls { faults self.old ≤ faults self.new };

    /// Stores a record of a model of the stored schema: a new one under the model's next id, which
    /// is then raised by one, or one that is there, with a value changed.
    fn put(&mut self, alloc: Global, info: &ModelInfo, made: &Record) -> Result<(), KeepErr>
        requires { IfSome (told self.old) (λ held. IsSomeAnd held
            (λ s. MayPut s (model_info_of info.now) (record_data made.now))) }
        ensures done { OnOk result (told self.new
            ≡ changed (with_put info.now.number (record_data made.now)) (told self.old)) }
        ensures called { Appends (calls self.old) (calls self.new) (KeepCall.Put ∷ []) }
        ensures kept { OnErr result (told self.new ≡ told self.old) }
        ensures counted { result ≡ Err KeepErr.Failed → Rose (faults self.old) (faults self.new) }
        ensures never_falls { faults self.old ≤ faults self.new };

    /// Drops the record of a model of the stored schema, which no other record names. Its id is not
    /// given again.
    fn drop_row(&mut self, alloc: Global, info: &ModelInfo, id: u64) -> Result<(), KeepErr>
        requires { IfSome (told self.old) (λ held. IsSomeAnd held
            (λ s. MayDrop s (model_info_of info.now) id)) }
        ensures done { OnOk result (told self.new
            ≡ changed (with_drop info.now.number id) (told self.old)) }
        ensures called { Appends (calls self.old) (calls self.new) (KeepCall.DropRow ∷ []) }
        ensures kept { OnErr result (told self.new ≡ told self.old) }
        ensures counted { result ≡ Err KeepErr.Failed → Rose (faults self.old) (faults self.new) }
        ensures never_falls { faults self.old ≤ faults self.new };
}
