//! The equalities of which clauses on facts and instances speak.

use ground_instances::Input;
use ground_problem::{FactLiteral, FactNode};
use indexmap::IndexSet;
use std::alloc::{AllocError, Global};

/// Puts a fact behind others, if it is an equality that is not among them.
fn add_fact(fact: FactNode, equalities: &mut IndexSet<FactNode>) -> Result<(), AllocError> {
    match fact {
        FactNode::Same(..) => {
            equalities.insert(fact)?;
            Ok(())
        }
        FactNode::There(_)
        | FactNode::Below(..)
        | FactNode::Raised(_)
        | FactNode::Related(_)
        | FactNode::Empty(_) => Ok(()),
    }
}

/// Puts the equalities of a clause behind others.
fn add_clause(
    clause: &[FactLiteral],
    equalities: &mut IndexSet<FactNode>,
) -> Result<(), AllocError> {
    for literal in clause {
        add_fact(literal.fact, equalities)?;
    }
    Ok(())
}

/// Puts the equality that an input stands for behind others, if it does.
fn add_input(input: Input, equalities: &mut IndexSet<FactNode>) -> Result<(), AllocError> {
    match input {
        Input::Equal(v, u) => add_fact(FactNode::Same(v, u), equalities),
        Input::There(_) | Input::Less(..) | Input::Has(..) | Input::Flag(..) | Input::Present(..) =>
            Ok(()),
    }
}

/// The equalities of which clauses on facts and then inputs speak, each once: the numbers among them
/// have to be ordered, and their texts are to be told apart. In this order they stand among the
/// facts of the formula's clauses, too.
pub(crate) fn equalities_of(
    alloc: Global,
    clauses: &[Vec<FactLiteral>],
    inputs: &[Input],
) -> Result<Vec<FactNode>, AllocError> {
    let mut equalities = IndexSet::new(alloc);
    for clause in clauses {
        add_clause(clause.as_slice(), &mut equalities)?;
    }
    for input in inputs {
        add_input(*input, &mut equalities)?;
    }
    Vec::from_slice(alloc, equalities.as_slice())
}
