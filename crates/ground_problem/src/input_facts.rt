//! The facts that inputs stand for.

ghost use Rattle.std.specs.Prelude.{◌≡◌, ◌++◌, ◌∷◌, [], map, IfOk, OnOk, Some};
ghost use Rattle.form_tables.specs.Facts.{there_of};
ghost use Rattle.ground_problem.specs.InputFacts.{input_facts};
ghost use Rattle.ground_problem.specs.Inputs.{IsFieldOf, RelatesTerms};
ghost use Rattle.ground_problem.specs.Facts.{fact_at, noun_at};

use crate::PairNode;
use crate::facts::FactNode;
use form_formula::Arena;
use ground_instances::{Input, Value};
use ground_terms::TermArena;
use std::alloc::{AllocError, Global};

/// Puts that a value is there at the end, if it is a term.
fn push_there(
    arena: &Arena,
    terms: &TermArena,
    value: Value,
    facts: &mut Vec<FactNode>,
) -> Result<(), AllocError>
    ensures { OnOk result (map (fact_at arena.now terms.now) facts.new.items
        ≡ map (fact_at arena.now terms.now) facts.old.items
        ++ there_of (noun_at arena.now terms.now value)) }
{
    match value {
        Value::Term(id) => {
            facts.push(FactNode::There(id))?;
            Ok(())
        }
        Value::Literal(_) => Ok(()),
    }
}

/// The facts that two values are there, and a further one.
fn facts_of_two(
    alloc: Global,
    arena: &Arena,
    terms: &TermArena,
    a: Value,
    b: Value,
    whole: FactNode,
) -> Result<Vec<FactNode>, AllocError>
    ensures { IfOk result (λ facts. map (fact_at arena.now terms.now) facts.items
        ≡ there_of (noun_at arena.now terms.now a) ++ there_of (noun_at arena.now terms.now b)
        ++ fact_at arena.now terms.now whole ∷ []) }
{
    let mut facts = Vec::new(alloc);
    push_there(arena, terms, a, &mut facts)?;
    push_there(arena, terms, b, &mut facts)?;
    facts.push(whole)?;
    Ok(facts)
}

/// The facts that together say that what an input stands for is so. The function at a value of
/// which it speaks, if it speaks of one, has this number.
pub(crate) fn facts_of(
    alloc: Global,
    arena: &Arena,
    terms: &TermArena,
    input: Input,
    field: u32,
) -> Result<Vec<FactNode>, AllocError>
    requires field { IsFieldOf terms.now input field }
    requires terms { RelatesTerms input }
    ensures { IfOk result (λ facts. input_facts arena.now terms.now input
        ≡ Some (map (fact_at arena.now terms.now) facts.items)) }
{
    match input {
        Input::There(id) => Ok(vec![in alloc; FactNode::There(id)]?),
        Input::Equal(a, b) => facts_of_two(alloc, arena, terms, a, b, FactNode::Same(a, b)),
        Input::Less(a, b) => facts_of_two(alloc, arena, terms, a, b, FactNode::Below(a, b)),
        Input::Has(relation, Value::Term(holder), Value::Term(member)) => {
            let pair = PairNode {
                relation,
                holder,
                member,
            };
            Ok(vec![in alloc; FactNode::Related(pair)]?)
        }
        Input::Flag(_, Value::Term(_)) => {
            Ok(vec![in alloc; FactNode::There(field), FactNode::Raised(field)]?)
        }
        Input::Present(_, Value::Term(_)) => Ok(vec![in alloc; FactNode::There(field)]?),
        Input::Has(..) | Input::Flag(..) | Input::Present(..) => unreachable!(),
    }
}
