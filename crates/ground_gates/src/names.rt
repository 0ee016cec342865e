//! Which variable stands for which gate or input.

ghost use Rattle.std.specs.Prelude.{◌≡◌, ◌<◌, ◌^◌, ◌+◌, ◌≤◌, [], length, slice_get, slice_set, ℕ, Some, None, replicate, IfOk, MatchOption};
ghost use Rattle.ground_gates.specs.Names.{HasNoName, IsGateNamed, IsInputAdded, IsNamed, IsOnlyName};

use std::alloc::{AllocError, Global};
use std::marker::Model;

/// What a variable stands for.
#[derive(Clone, Copy)]
pub(crate) enum Owner {
    /// A gate, by its number.
    Gate(u32),
    /// An input, by its number.
    Input(u32),
}

/// Variables from a base on, with what each stands for. Contracts see the base, the list of what
/// they stand for, and for how many gates and inputs there are places.
#[derive(Drop)]
pub(crate) struct Names {
    base: u32,
    owners: Vec<Owner>,
    /// Of each gate and each input which of these variables it has, if it has one.
    gates: Vec<Option<u32>>,
    inputs: Vec<Option<u32>>,
}

impl Model for Names {
    ghost use Rattle.std.specs.Prelude.{length};
    ghost use Rattle.ground_gates.specs.Names.{AreNames, NamesView};

    ghost Value = { NamesView };

    ghost view = { λ n. record {
      base = n.base;
      owners = n.owners.items;
      places = length n.gates.items;
      input_places = length n.inputs.items;
    } };

    ghost invariant = { λ n. AreNames n.base n.owners.items n.gates.items n.inputs.items };
}

/// A table that has nothing at so many numbers.
fn blank(alloc: Global, count: usize) -> Result<Vec<Option<u32>>, AllocError>
    ensures { IfOk result (λ table. table.items ≡ replicate count None) }
{
    let mut table = Vec::with_capacity(alloc, count)?;
    for _done in 0..count {
        table.push(None)?;
    }
    Ok(table)
}

/// What a table has at a number, if it has something.
fn place_in(table: &[Option<u32>], number: u32) -> Option<u32>
    ensures { MatchOption result ((n : ℕ) → slice_get table.now number ≡ Some (Some n) → ⊥)
        (λ n. slice_get table.now number ≡ Some (Some n)) }
{
    if (number as usize) < table.len() {
        table[number as usize]
    } else {
        None
    }
}

/// Notes at a number, if there is one, what a table has there.
fn note_place(table: &mut Vec<Option<u32>>, number: u32, place: u32)
    ensures { table.new.items ≡ slice_set table.old.items number (Some place) }
{
    if (number as usize) < table.len() {
        table[number as usize] = Some(place);
    }
}

impl Names {
    /// No variables yet, with places for so many gates and inputs.
    pub(crate) fn new(
        alloc: Global,
        base: u32,
        gates: usize,
        inputs: usize,
    ) -> Result<Names, AllocError>
        ensures { IfOk result (λ names. names ≡ record {
          base = base;
          owners = [];
          places = gates;
          input_places = inputs;
        }) }
    {
        Ok(Names {
            base,
            owners: Vec::new(alloc),
            gates: blank(alloc, gates)?,
            inputs: blank(alloc, inputs)?,
        })
    }

    /// The number behind the last variable.
    pub(crate) fn end(&self) -> u32
        ensures is { result ≡ self.now.base + length self.now.owners }
        ensures few { length self.now.owners ≤ self.now.places + self.now.input_places }
    {
        self.base + self.owners.len() as u32
    }

    /// The variable of a gate, if it has one.
    pub(crate) fn of_gate(&self, gate: u32) -> Option<u32>
        ensures { MatchOption result (HasNoName self.now (Owner.Gate gate))
            (IsOnlyName self.now (Owner.Gate gate)) }
    {
        match place_in(self.gates.as_slice(), gate) {
            Some(place) => Some(self.base + place),
            None => None,
        }
    }

    /// The variable of an input, if it has one.
    pub(crate) fn of_input(&self, input: u32) -> Option<u32>
        ensures { MatchOption result (HasNoName self.now (Owner.Input input))
            (IsNamed self.now (Owner.Input input)) }
    {
        match place_in(self.inputs.as_slice(), input) {
            Some(place) => Some(self.base + place),
            None => None,
        }
    }

    /// One variable more. Four thousand million variables count as memory that is not there.
    fn next(&self) -> Result<u32, AllocError>
        ensures { IfOk result (λ place. (place ≡ length self.now.owners)
            × (self.now.base + place + 1 < 2 ^ 32)) }
    {
        let place = self.owners.len() as u32;
        if u32::MAX - self.base <= place {
            return Err(AllocError);
        }
        Ok(place)
    }

    /// The variable of a gate, which is added if it has none.
    pub(crate) fn name_gate(&mut self, gate: u32) -> Result<u32, AllocError>
        requires { gate < self.old.places }
        ensures { IfOk result (IsGateNamed gate self.old self.new) }
    {
        if let Some(variable) = self.of_gate(gate) {
            return Ok(variable);
        }
        let place = self.next()?;
        self.owners.push(Owner::Gate(gate))?;
        note_place(&mut self.gates, gate, place);
        Ok(self.base + place)
    }

    /// One variable more, of an input that has none.
    pub(crate) fn add_input(&mut self, input: u32) -> Result<u32, AllocError>
        requires placed { input < self.old.input_places }
        requires none { HasNoName self.old (Owner.Input input) }
        ensures { IfOk result (IsInputAdded input self.old self.new) }
    {
        let place = self.next()?;
        self.owners.push(Owner::Input(input))?;
        note_place(&mut self.inputs, input, place);
        Ok(self.base + place)
    }
}
