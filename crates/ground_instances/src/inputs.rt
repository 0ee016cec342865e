//! Numbered inputs.

ghost use Rattle.std.specs.Prelude.{◌≡◌, ◌<◌, ◌^◌, [], length, IfOk, OnErr};
ghost use Rattle.ground_instances.specs.Inputs.{IsNumbered};

use crate::input::Input;
use indexmap::IndexSet;
use std::alloc::{AllocError, Global};
use std::marker::Model;

/// What the variables of the gates stand for, by their numbers. Equal inputs are one. Contracts see
/// the list of the inputs.
#[derive(Drop)]
pub struct Inputs {
    inputs: IndexSet<Input>,
}

impl Model for Inputs {
    ghost use Rattle.std.specs.Prelude.{◌<◌, ◌^◌, List, length};
    ghost use Rattle.ground_instances.specs.declared.input.Input.{Input};

    ghost Value = { List Input };

    ghost view = { λ i. i.inputs.keys };

    ghost invariant = { λ i. length i.inputs.keys < 2 ^ 32 };
}

impl Inputs {
    /// No inputs.
    pub(crate) fn new(alloc: Global) -> Result<Inputs, AllocError>
        ensures { IfOk result (λ inputs. inputs ≡ []) }
    {
        Ok(Inputs {
            inputs: IndexSet::new(alloc),
        })
    }

    /// How many inputs there are.
    pub fn len(&self) -> usize
        ensures len { result ≡ length self.now }
        ensures few { result < 2 ^ 32 }
    {
        self.inputs.len()
    }

    /// The inputs.
    pub fn as_slice(&self) -> &[Input]
        ensures { result.now ≡ self.now }
    {
        self.inputs.as_slice()
    }

    /// The number of the input, which is added if there is none equal to it. Four thousand million
    /// inputs count as memory that is not there.
    pub(crate) fn add(&mut self, input: Input) -> Result<u32, AllocError>
        ensures made { IfOk result (IsNumbered self.old input self.new) }
        ensures err { OnErr result (self.new ≡ self.old) }
    {
        if self.inputs.len() >= u32::MAX as usize {
            return Err(AllocError);
        }
        let (place, _) = self.inputs.insert_full(input)?;
        Ok(place as u32)
    }
}
