//! The set relations of which inputs speak.

ghost use Rattle.std.specs.Prelude.{◌≡◌, ◌++◌, IfOk, OnOk};
ghost use Rattle.std.specs.List.{flat_map};
ghost use Rattle.ground_problem.specs.Inputs.{pairs_in};

use crate::words::PairNode;
use ground_instances::{Input, Value};
use std::alloc::{AllocError, Global};

/// Puts the set relation of which an input speaks, if it speaks of one, at the end of a list.
fn push_pair(input: Input, pairs: &mut Vec<PairNode>) -> Result<(), AllocError>
    ensures { OnOk result (pairs.new.items ≡ pairs.old.items ++ pairs_in input) }
{
    match input {
        Input::Has(relation, Value::Term(holder), Value::Term(member)) => {
            pairs.push(PairNode {
                relation,
                holder,
                member,
            })?;
            Ok(())
        }
        _ => Ok(()),
    }
}

/// The set relations of which inputs speak.
pub(crate) fn pairs_of(alloc: Global, inputs: &[Input]) -> Result<Vec<PairNode>, AllocError>
    ensures { IfOk result (λ pairs. pairs.items ≡ flat_map pairs_in inputs.now) }
{
    let mut pairs = Vec::new(alloc);
    for input in inputs {
        push_pair(*input, &mut pairs)?;
    }
    Ok(pairs)
}
