//! The calls that a keeper in memory got.
ghost use Rattle.std.specs.Prelude.{◌≡◌, [], ◌∷◌, Some};
ghost use Rattle.std.specs.Option.{option_copied};
ghost use Rattle.app_flow.specs.Told.{Appends};

use crate::keeper::KeepCall;
use std::alloc::{AllocError, Global};
use std::marker::Model;

/// The calls, in their order, as long as there was memory for each.
#[derive(Drop)]
pub struct Calls {
    made: Vec<KeepCall>,
    lost: bool,
}

impl Model for Calls {
    ghost use Rattle.std.specs.Prelude.{List, Option, None, Some, if◌then◌else◌};
    ghost use Rattle.store_keeper.specs.declared.keeper.KeepCall.{KeepCall};

    ghost Value = { Option (List KeepCall) };

    ghost view = { λ c. if c.lost then None else Some c.made.items };
}

impl Calls {
    /// No call.
    pub fn new(alloc: Global) -> Calls
        ensures { result ≡ Some [] }
    {
        Calls {
            made: Vec::new(alloc),
            lost: false,
        }
    }

    /// The calls, or `None` where there was no memory for one.
    pub fn made(&self) -> Option<&[KeepCall]>
        ensures { option_copied result ≡ self.now }
    {
        if self.lost {
            return None;
        }
        Some(self.made.as_slice())
    }

    /// Keeps one more call. Where there is no memory for it, no call is told any more.
    pub fn push(&mut self, call: KeepCall) -> Result<(), AllocError>
        ensures { Appends self.old self.new (call ∷ []) }
    {
        let pushed = self.made.push(call).map_err(AllocError::from);
        self.lost |= pushed.is_err();
        pushed
    }
}
