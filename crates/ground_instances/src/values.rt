//! Terms of atoms at ground terms.

ghost use Rattle.std.specs.Prelude.{IfOk};
ghost use Rattle.form_formula.specs.Nodes.{IsTerm, term_of};
ghost use Rattle.form_formula.specs.Trees.{bound};
ghost use Rattle.form_formula.specs.declared.node.Node.{Node as AnyNode};
ghost use Rattle.std.specs.Prelude.{List};
ghost use Rattle.ground_terms.specs.Standing.{AreOnes, terms_at};
ghost use Rattle.ground_instances.specs.GroundAtoms.{applied_to, ground_value};
ghost use Rattle.ground_instances.specs.Inputs.{HasValue, IsValue, value_at};
ghost use Rattle.ground_instances.specs.Values.{apply_all};

use crate::input::Value;
use form_formula::{Arena, Node};
use ground_terms::{TermArena, TermNode};
use std::alloc::{AllocError, Global};

/// The ground term of a variable below so many quantifiers, where the variables above are these
/// terms; the constant of its sort if it does not stand above.
fn variable(terms: &mut TermArena, env: &[u32], sort: u32, depth: u32) -> Result<Value, AllocError>
    requires { AreOnes terms.old env.now }
    ensures { IfOk result (λ value. (nodes : List AnyNode) → HasValue nodes terms.old terms.new
        (ground_value (terms_at terms.old env.now) (bound sort depth)) value) }
{
    match env.get(depth as usize) {
        Some(t) => Ok(Value::Term(*t)),
        None => {
            let constant = terms.add(TermNode::Constant(sort))?;
            Ok(Value::Term(constant))
        }
    }
}

/// A function at a value.
fn apply(terms: &mut TermArena, f: u32, value: Value) -> Result<Value, AllocError>
    requires { IsValue terms.old value }
    ensures { IfOk result (λ applied. (nodes : List AnyNode) → HasValue nodes terms.old terms.new
        (applied_to f (value_at nodes terms.old value)) applied) }
{
    match value {
        Value::Term(t) => {
            let id = terms.add(TermNode::Field(f, t))?;
            Ok(Value::Term(id))
        }
        Value::Literal(id) => Ok(Value::Literal(id)),
    }
}

/// Functions at a value, the last of which is the innermost.
fn apply_all(terms: &mut TermArena, functions: Vec<u32>, value: Value) -> Result<Value, AllocError>
    requires { IsValue terms.old value }
    ensures { IfOk result (λ applied. (nodes : List AnyNode) → HasValue nodes terms.old terms.new
        (apply_all functions.items (value_at nodes terms.old value)) applied) }
{
    let mut functions = functions;
    let mut value = value;
    'up: while let Some(f) = functions.pop() {
        value = apply(terms, f, value)?;
    }
    Ok(value)
}

/// What a term is where the variables above are these ground terms.
pub(crate) fn value_of(
    alloc: Global,
    arena: &Arena,
    terms: &mut TermArena,
    env: &[u32],
    id: u32,
) -> Result<Value, AllocError>
    requires term { IsTerm arena.now id }
    requires env { AreOnes terms.old env.now }
    ensures { IfOk result (HasValue arena.now terms.old terms.new (ground_value (terms_at terms.old
        env.now) (term_of arena.now id))) }
{
    let mut functions = Vec::new(alloc);
    let mut at = id;
    'down: loop {
        match arena.node(at) {
            Node::App(f, t) => {
                functions.push(*f)?;
                at = *t;
            }
            Node::Bound(sort, depth) => {
                let value = variable(terms, env, *sort, *depth)?;
                let applied = apply_all(terms, functions, value)?;
                return Ok(applied);
            }
            _ => return Ok(Value::Literal(at)),
        }
    }
}
