//! The functions at values of which inputs speak.

ghost use Rattle.std.specs.Prelude.{◌≡◌, IfOk, OnErr};
ghost use Rattle.ground_instances.specs.Inputs.{AreInputs, IsInput, IsValue};
ghost use Rattle.ground_terms.specs.Nodes.{Extends};
ghost use Rattle.ground_problem.specs.Inputs.{AddsFields, IsFieldAt, IsFieldOf};

use ground_instances::{Input, Value};
use ground_terms::{TermArena, TermNode};
use std::alloc::{AllocError, Global};

/// The number of a function at a value, which is added. At a literal there is none.
fn field_at(terms: &mut TermArena, h: u32, value: Value) -> Result<u32, AllocError>
    requires { IsValue terms.old value }
    ensures { IfOk result (λ id. Extends terms.old terms.new × IsFieldAt terms.new h value id) }
{
    match value {
        Value::Term(t) => {
            let id = terms.add(TermNode::Field(h, t))?;
            Ok(id)
        }
        Value::Literal(_) => Ok(0),
    }
}

/// The number of the function at a value of which an input speaks, which is added.
fn field_of(terms: &mut TermArena, input: Input) -> Result<u32, AllocError>
    requires { IsInput terms.old input }
    ensures { IfOk result (λ id. Extends terms.old terms.new × IsFieldOf terms.new input id) }
{
    match input {
        Input::There(_) | Input::Equal(..) | Input::Less(..) | Input::Has(..) => Ok(0),
        Input::Flag(h, value) | Input::Present(h, value) => {
            let id = field_at(terms, h, value)?;
            Ok(id)
        }
    }
}

/// The numbers of the functions at values of which inputs speak, which are added.
pub(crate) fn fields_of(
    alloc: Global,
    terms: &mut TermArena,
    inputs: &[Input],
) -> Result<Vec<u32>, AllocError>
    requires { AreInputs terms.old inputs.now }
    ensures { IfOk result (λ fields. AddsFields terms.old terms.new inputs.now fields.items) }
{
    let mut fields = Vec::new(alloc);
    for input in inputs {
        let id = field_of(terms, *input)?;
        fields.push(id)?;
    }
    Ok(fields)
}
