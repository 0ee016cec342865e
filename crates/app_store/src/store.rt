//! What is stored, and whether it allows a command.

ghost use Rattle.std.specs.Prelude.{◌≡◌, ◌≢◌, ◌<◌, ◌∷◌, [], Err, IfOk};
ghost use Rattle.std.specs.Option.{option_map};
ghost use Rattle.app_files.specs.Stages.{ComesTo, Then};
ghost use Rattle.app_store.specs.Store.{Holds, IsFree, Loads, MayRise};
ghost use Rattle.app_store.specs.Told.{IsKept};
ghost use Rattle.store_keeper.specs.Stored.{IsStored, last_version, stored_of};
ghost use Rattle.store_keeper.specs.declared.keeper.KeepCall.TheVariants.{Load};

use crate::stop::{StoreRefusal, StoreStop};
use std::alloc::Global;
use store_keeper::limits::LAST_VERSION;
use store_keeper::{Keeper, Stored};

/// What is stored, or None where nothing is.
fn loaded<K: Keeper>(alloc: Global, store: &mut K) -> Result<Option<Stored>, StoreStop>
    ensures loads { ComesTo (Loads (K.told store.old)) (option_map stored_of) result }
    ensures store { IsKept K.calls K.faults store.old store.new (Load ∷ []) (result
        ≡ Err StoreStop.StoreFault) }
    ensures same { K.told store.new ≡ K.told store.old }
{
    Ok(store.load(alloc)?)
}

/// Nothing may be stored.
fn none_of(held: &Option<Stored>) -> Result<(), StoreStop>
    ensures { IsFree (option_map stored_of held.now) result }
{
    match held {
        Some(_) => Err(StoreStop::Refused(StoreRefusal::IsSet)),
        None => Ok(()),
    }
}

/// Whether nothing is stored.
pub(crate) fn ask_free<K: Keeper>(alloc: Global, store: &mut K) -> Result<(), StoreStop>
    ensures free { Then (Loads (K.told store.old)) IsFree result }
    ensures store { IsKept K.calls K.faults store.old store.new (Load ∷ []) (result
        ≡ Err StoreStop.StoreFault) }
    ensures same { K.told store.new ≡ K.told store.old }
{
    let held = loaded(alloc, store)?;
    none_of(&held)
}

/// What is stored.
pub fn ask_held<K: Keeper>(alloc: Global, store: &mut K) -> Result<Stored, StoreStop>
    ensures held { ComesTo (Then (Loads (K.told store.old)) Holds) stored_of result }
    ensures stored { IfOk result (λ s. IsStored (stored_of s)) }
    ensures store { IsKept K.calls K.faults store.old store.new (Load ∷ []) (result
        ≡ Err StoreStop.StoreFault) }
    ensures same { K.told store.new ≡ K.told store.old }
{
    match loaded(alloc, store)? {
        Some(stored) => Ok(stored),
        None => Err(StoreStop::Refused(StoreRefusal::IsEmpty)),
    }
}

/// What is stored, whose version can rise.
pub(crate) fn ask_rising<K: Keeper>(alloc: Global, store: &mut K) -> Result<Stored, StoreStop>
    ensures held { ComesTo (Then (Then (Loads (K.told store.old)) Holds) MayRise)
        stored_of result }
    ensures stored { IfOk result (λ s. IsStored (stored_of s)) }
    ensures rises { IfOk result (λ s. s.version < last_version) }
    ensures store { IsKept K.calls K.faults store.old store.new (Load ∷ []) (result
        ≡ Err StoreStop.StoreFault) }
    ensures same { K.told store.new ≡ K.told store.old }
{
    let stored = ask_held(alloc, store)?;
    if stored.version < LAST_VERSION {
        Ok(stored)
    } else {
        Err(StoreStop::Refused(StoreRefusal::IsSpent))
    }
}
