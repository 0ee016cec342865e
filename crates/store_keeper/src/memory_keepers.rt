//! Keepers in memory.
ghost use Rattle.std.specs.Prelude.{◌≡◌, ◌≢◌, ◌≤◌, ◌↔◌, [], ◌∷◌, Some, Contains, IfOk, IfSome};
ghost use Rattle.std.specs.Prelude.{IsSomeAnd, OnErr, OnOk};
ghost use Rattle.std.specs.Option.{option_copied, option_map};
ghost use Rattle.app_flow.specs.Faults.{Rose, next_count};
ghost use Rattle.app_flow.specs.Told.{Appends};
ghost use Rattle.data_records.specs.Views.{record_data};
ghost use Rattle.type_schema.specs.SchemaViews.{model_info_of};
ghost use Rattle.store_keeper.specs.Changes.{MayDrop, MayPut, with_drop, with_put};
ghost use Rattle.store_keeper.specs.Keepers.{faults_after};
ghost use Rattle.store_keeper.specs.Stored.{IsStored, stored_of};

use crate::calls::Calls;
use crate::held::Held;
use crate::keeper::{KeepCall, KeepErr, Keeper};
use crate::stored::Stored;
use data_records::Record;
use std::alloc::Global;
use std::marker::Model;
use type_schema::ModelInfo;

/// A keeper that tells what it holds and its calls, and fails where it was told to.
///
/// A call fails whose number, counted from 0, is in its list. Each call is kept, and is without an
/// answer where there is no memory for it.
#[derive(Drop)]
pub struct MemKeeper {
    held: Held,
    failing: Vec<u64>,
    calls: Calls,
    count: u64,
    faults: u64,
}

impl Model for MemKeeper {
    ghost use Rattle.store_keeper.specs.Keepers.{MemKeeperState, mem_keeper_code};
    ghost use Rattle.store_keeper.specs.contracts.keeper.KeepCall as call;
    ghost use Rattle.store_keeper.specs.contracts.stored.Stored as stored;

    ghost Value = { MemKeeperState };

    ghost coded = { mem_keeper_code stored.the_row.coded call.the_row.coded };

    ghost view = { λ k. record {
      stored = k.held;
      failing = k.failing.items;
      calls = k.calls;
      count = k.count;
      faults = k.faults;
    } };
}

impl MemKeeper {
    /// A keeper that holds this.
    pub fn new(alloc: Global, stored: Option<Stored>, failing: Vec<u64>) -> MemKeeper
        requires { IfSome stored (λ s. IsStored (stored_of s)) }
        ensures { result ≡ record {
          stored = stored;
          failing = failing.items;
          calls = Some [];
          count = 0;
          faults = 0;
        } }
    {
        MemKeeper {
            held: Held::new(stored),
            failing,
            calls: Calls::new(alloc),
            count: 0,
            faults: 0,
        }
    }

    /// What it holds.
    pub fn stored(&self) -> Option<&Stored>
        ensures { option_copied result ≡ self.now.stored }
    {
        self.held.stored()
    }

    /// Its calls, in their order, or `None` where there was no memory for one.
    pub fn calls(&self) -> Option<&[KeepCall]>
        ensures { option_copied result ≡ self.now.calls }
    {
        self.calls.made()
    }

    /// How many calls there were.
    pub fn count(&self) -> u64
        ensures { result ≡ self.now.count }
    {
        self.count
    }

    /// How many of them failed.
    pub fn faults(&self) -> u64
        ensures { result ≡ self.now.faults }
    {
        self.faults
    }

    /// Keeps a call, and fails where it is to fail.
    fn begin(&mut self, call: KeepCall) -> Result<(), KeepErr>
        ensures called { Appends self.old.calls self.new.calls (call ∷ []) }
        ensures fails { (result ≡ Err KeepErr.Failed) ↔ Contains self.old.failing self.old.count }
        ensures counted { result ≡ Err KeepErr.Failed → Rose self.old.faults self.new.faults }
        ensures never_falls { self.old.faults ≤ self.new.faults }
        ensures after { self.new ≡ record self.old {
          calls = self.new.calls;
          count = next_count self.old.count;
          faults = faults_after result self.old.faults;
        } }
    {
        let kept = self.calls.push(call);
        let fails = self.failing.contains(&self.count);
        self.count = self.count.saturating_add(1);
        if fails {
            self.faults = self.faults.saturating_add(1);
            return Err(KeepErr::Failed);
        }
        Ok(kept?)
    }
}

impl Keeper for MemKeeper {
    ghost told = { λ keeper. Some (option_map stored_of keeper.stored) };

    ghost calls = { λ keeper. keeper.calls };

    ghost faults = { λ keeper. keeper.faults };

    fn load(&mut self, alloc: Global) -> Result<Option<Stored>, KeepErr>
        ensures found { IfOk result (λ found. option_map stored_of found
            ≡ option_map stored_of self.old.stored) }
        ensures stored { IfOk result (λ found. IfSome found (λ s. IsStored (stored_of s))) }
        ensures called { Appends self.old.calls self.new.calls (KeepCall.Load ∷ []) }
        ensures counted { result ≡ Err KeepErr.Failed → Rose self.old.faults self.new.faults }
        ensures never_falls { self.old.faults ≤ self.new.faults }
        ensures fails { (result ≡ Err KeepErr.Failed) ↔ Contains self.old.failing self.old.count }
        ensures after { self.new ≡ record self.old {
          calls = self.new.calls;
          count = next_count self.old.count;
          faults = faults_after result self.old.faults;
        } }
    {
        self.begin(KeepCall::Load)?;
        Ok(self.held.load(alloc)?)
    }

    fn replace(&mut self, alloc: Global, s: &Stored) -> Result<(), KeepErr>
        requires { IsStored (stored_of s.now) }
        ensures done { OnOk result (option_map stored_of self.new.stored
            ≡ Some (stored_of s.now)) }
        ensures kept { OnErr result (self.new.stored ≡ self.old.stored) }
        ensures called { Appends self.old.calls self.new.calls (KeepCall.Replace ∷ []) }
        ensures counted { result ≡ Err KeepErr.Failed → Rose self.old.faults self.new.faults }
        ensures never_falls { self.old.faults ≤ self.new.faults }
        ensures fails { (result ≡ Err KeepErr.Failed) ↔ Contains self.old.failing self.old.count }
        ensures after { self.new ≡ record self.old {
          stored = self.new.stored;
          calls = self.new.calls;
          count = next_count self.old.count;
          faults = faults_after result self.old.faults;
        } }
    {
        self.begin(KeepCall::Replace)?;
        Ok(self.held.replace(alloc, s)?)
    }

    fn put(&mut self, alloc: Global, info: &ModelInfo, made: &Record) -> Result<(), KeepErr>
        requires { IsSomeAnd (option_map stored_of self.old.stored)
            (λ s. MayPut s (model_info_of info.now) (record_data made.now)) }
        ensures done { OnOk result (option_map stored_of self.new.stored
            ≡ option_map (with_put info.now.number (record_data made.now))
            (option_map stored_of self.old.stored)) }
        ensures kept { OnErr result (self.new.stored ≡ self.old.stored) }
        ensures called { Appends self.old.calls self.new.calls (KeepCall.Put ∷ []) }
        ensures counted { result ≡ Err KeepErr.Failed → Rose self.old.faults self.new.faults }
        ensures never_falls { self.old.faults ≤ self.new.faults }
        ensures fails { (result ≡ Err KeepErr.Failed) ↔ Contains self.old.failing self.old.count }
        ensures after { self.new ≡ record self.old {
          stored = self.new.stored;
          calls = self.new.calls;
          count = next_count self.old.count;
          faults = faults_after result self.old.faults;
        } }
    {
        self.begin(KeepCall::Put)?;
        Ok(self.held.put(alloc, info, made)?)
    }

    fn drop_row(&mut self, _alloc: Global, info: &ModelInfo, id: u64) -> Result<(), KeepErr>
        requires { IsSomeAnd (option_map stored_of self.old.stored)
            (λ s. MayDrop s (model_info_of info.now) id) }
        ensures done { OnOk result (option_map stored_of self.new.stored
            ≡ option_map (with_drop info.now.number id) (option_map stored_of self.old.stored)) }
        ensures kept { OnErr result (self.new.stored ≡ self.old.stored) }
        ensures called { Appends self.old.calls self.new.calls (KeepCall.DropRow ∷ []) }
        ensures counted { result ≡ Err KeepErr.Failed → Rose self.old.faults self.new.faults }
        ensures never_falls { self.old.faults ≤ self.new.faults }
        ensures fails { (result ≡ Err KeepErr.Failed) ↔ Contains self.old.failing self.old.count }
        ensures after { self.new ≡ record self.old {
          stored = self.new.stored;
          calls = self.new.calls;
          count = next_count self.old.count;
          faults = faults_after result self.old.faults;
        } }
    {
        self.begin(KeepCall::DropRow)?;
        self.held.drop_row(info, id);
        Ok(())
    }
}

/// A keeper that tells what it holds and its calls, and never fails.
///
/// Each call is kept, and is without an answer where there is no memory for it.
#[derive(Drop)]
pub struct SureKeeper {
    held: Held,
    calls: Calls,
}

impl Model for SureKeeper {
    ghost use Rattle.store_keeper.specs.Keepers.{SureKeeperState, sure_keeper_code};
    ghost use Rattle.store_keeper.specs.contracts.keeper.KeepCall as call;
    ghost use Rattle.store_keeper.specs.contracts.stored.Stored as stored;

    ghost Value = { SureKeeperState };

    ghost coded = { sure_keeper_code stored.the_row.coded call.the_row.coded };

    ghost view = { λ k. record { stored = k.held; calls = k.calls } };
}

impl SureKeeper {
    /// A keeper that holds this.
    pub fn new(alloc: Global, stored: Option<Stored>) -> SureKeeper
        requires { IfSome stored (λ s. IsStored (stored_of s)) }
        ensures { result ≡ record { stored = stored; calls = Some [] } }
    {
        SureKeeper {
            held: Held::new(stored),
            calls: Calls::new(alloc),
        }
    }

    /// What it holds.
    pub fn stored(&self) -> Option<&Stored>
        ensures { option_copied result ≡ self.now.stored }
    {
        self.held.stored()
    }

    /// Its calls, in their order, or `None` where there was no memory for one.
    pub fn calls(&self) -> Option<&[KeepCall]>
        ensures { option_copied result ≡ self.now.calls }
    {
        self.calls.made()
    }
}

impl Keeper for SureKeeper {
    ghost told = { λ keeper. Some (option_map stored_of keeper.stored) };

    ghost calls = { λ keeper. keeper.calls };

    ghost faults = { λ _. 0 };

    fn load(&mut self, alloc: Global) -> Result<Option<Stored>, KeepErr>
        ensures found { IfOk result (λ found. option_map stored_of found
            ≡ option_map stored_of self.old.stored) }
        ensures stored { IfOk result (λ found. IfSome found (λ s. IsStored (stored_of s))) }
        ensures called { Appends self.old.calls self.new.calls (KeepCall.Load ∷ []) }
        ensures sure { result ≢ Err KeepErr.Failed }
        ensures after { self.new ≡ record self.old { calls = self.new.calls } }
    {
        self.calls.push(KeepCall::Load)?;
        Ok(self.held.load(alloc)?)
    }

    fn replace(&mut self, alloc: Global, s: &Stored) -> Result<(), KeepErr>
        requires { IsStored (stored_of s.now) }
        ensures done { OnOk result (option_map stored_of self.new.stored
            ≡ Some (stored_of s.now)) }
        ensures kept { OnErr result (self.new.stored ≡ self.old.stored) }
        ensures called { Appends self.old.calls self.new.calls (KeepCall.Replace ∷ []) }
        ensures sure { result ≢ Err KeepErr.Failed }
    {
        self.calls.push(KeepCall::Replace)?;
        Ok(self.held.replace(alloc, s)?)
    }

    fn put(&mut self, alloc: Global, info: &ModelInfo, made: &Record) -> Result<(), KeepErr>
        requires { IsSomeAnd (option_map stored_of self.old.stored)
            (λ s. MayPut s (model_info_of info.now) (record_data made.now)) }
        ensures done { OnOk result (option_map stored_of self.new.stored
            ≡ option_map (with_put info.now.number (record_data made.now))
            (option_map stored_of self.old.stored)) }
        ensures kept { OnErr result (self.new.stored ≡ self.old.stored) }
        ensures called { Appends self.old.calls self.new.calls (KeepCall.Put ∷ []) }
        ensures sure { result ≢ Err KeepErr.Failed }
    {
        self.calls.push(KeepCall::Put)?;
        Ok(self.held.put(alloc, info, made)?)
    }

    fn drop_row(&mut self, _alloc: Global, info: &ModelInfo, id: u64) -> Result<(), KeepErr>
        requires { IsSomeAnd (option_map stored_of self.old.stored)
            (λ s. MayDrop s (model_info_of info.now) id) }
        ensures done { OnOk result (option_map stored_of self.new.stored
            ≡ option_map (with_drop info.now.number id) (option_map stored_of self.old.stored)) }
        ensures kept { OnErr result (self.new.stored ≡ self.old.stored) }
        ensures called { Appends self.old.calls self.new.calls (KeepCall.DropRow ∷ []) }
        ensures sure { result ≢ Err KeepErr.Failed }
    {
        self.calls.push(KeepCall::DropRow)?;
        self.held.drop_row(info, id);
        Ok(())
    }
}
