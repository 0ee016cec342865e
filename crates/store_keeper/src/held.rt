//! What a keeper in memory holds.
ghost use Rattle.std.specs.Prelude.{◌≡◌, Some, IfOk, IfSome, IsSomeAnd, OnErr, OnOk};
ghost use Rattle.std.specs.Option.{option_copied, option_map};
ghost use Rattle.data_records.specs.Views.{record_data};
ghost use Rattle.type_schema.specs.SchemaViews.{model_info_of};
ghost use Rattle.store_keeper.specs.Changes.{MayDrop, MayPut, with_drop, with_put};
ghost use Rattle.store_keeper.specs.Stored.{IsStored, stored_of};

use crate::records::{drop_stored, put_stored};
use crate::stored::Stored;
use data_records::Record;
use std::alloc::{AllocError, Global};
use std::marker::Model;
use type_schema::ModelInfo;

/// What is stored, or nothing.
#[derive(Drop)]
pub struct Held {
    stored: Option<Stored>,
}

impl Model for Held {
    ghost use Rattle.std.specs.Coded.{coded_option};
    ghost use Rattle.std.specs.Prelude.{Option, IfSome};
    ghost use Rattle.store_keeper.specs.contracts.stored.Stored.{the_row};
    ghost use Rattle.store_keeper.specs.declared.stored.Stored.{Stored};

    ghost Value = { Option Stored };

    ghost coded = { coded_option the_row.coded };

    ghost use Rattle.store_keeper.specs.Stored.{IsStored, stored_of};

    ghost view = { λ h. h.stored };

    ghost invariant = { λ h. IfSome h.stored (λ s. IsStored (stored_of s)) };
}

impl Held {
    /// This is stored.
    pub fn new(stored: Option<Stored>) -> Held
        requires { IfSome stored (λ s. IsStored (stored_of s)) }
        ensures { result ≡ stored }
    {
        Held { stored }
    }

    /// What is stored.
    pub fn stored(&self) -> Option<&Stored>
        ensures { option_copied result ≡ self.now }
    {
        self.stored.as_ref()
    }

    /// A copy of what is stored.
    pub fn load(&self, alloc: Global) -> Result<Option<Stored>, AllocError>
        ensures found { IfOk result (λ found. option_map stored_of found
            ≡ option_map stored_of self.now) }
        ensures stored { IfOk result (λ found. IfSome found (λ s. IsStored (stored_of s))) }
    {
        match &self.stored {
            Some(stored) => Ok(Some(stored.copy(alloc)?)),
            None => Ok(None),
        }
    }

    /// A copy of this is stored now.
    pub fn replace(&mut self, alloc: Global, s: &Stored) -> Result<(), AllocError>
        requires { IsStored (stored_of s.now) }
        ensures done { OnOk result (option_map stored_of self.new ≡ Some (stored_of s.now)) }
        ensures kept { OnErr result (self.new ≡ self.old) }
    {
        let copy = s.copy(alloc)?;
        self.stored = Some(copy);
        Ok(())
    }

    /// The record is stored now.
    pub fn put(&mut self, alloc: Global, info: &ModelInfo, made: &Record) -> Result<(), AllocError>
        requires { IsSomeAnd (option_map stored_of self.old)
            (λ s. MayPut s (model_info_of info.now) (record_data made.now)) }
        ensures done { OnOk result (option_map stored_of self.new
            ≡ option_map (with_put info.now.number (record_data made.now))
            (option_map stored_of self.old)) }
        ensures kept { OnErr result (self.new ≡ self.old) }
    {
        match &mut self.stored {
            Some(stored) => put_stored(alloc, stored, info, made),
            None => unreachable!(),
        }
    }

    /// The record is stored no more.
    pub fn drop_row(&mut self, info: &ModelInfo, id: u64)
        requires { IsSomeAnd (option_map stored_of self.old)
            (λ s. MayDrop s (model_info_of info.now) id) }
        ensures { option_map stored_of self.new
            ≡ option_map (with_drop info.now.number id) (option_map stored_of self.old) }
    {
        match &mut self.stored {
            Some(stored) => drop_stored(stored, info, id),
            None => unreachable!(),
        }
    }
}
