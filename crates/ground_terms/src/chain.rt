//! The record terms of terms whose innermost part has a ground term.

ghost use Rattle.std.specs.Prelude.{◌≡◌, ℕ, ◌∷◌, [], ◌++◌, List, reverse, IfOk, OnOk};
ghost use Rattle.std.specs.List.{flat_map};
ghost use Rattle.form_formula.specs.Nodes.{IsTerm, term_of};
ghost use Rattle.form_terms.specs.GroundTerms.{field};
ghost use Rattle.form_terms.specs.Parts.{if_element};
ghost use Rattle.ground_terms.specs.Nodes.{IsOne, term_of as ground_term_of};
ghost use Rattle.ground_terms.specs.Codes.{functions_in, inner_parts, record_parts, code_terms};
ghost use Rattle.ground_terms.specs.Codes.{code_names};
ghost use Rattle.ground_terms.specs.Standing.{AreListed};
ghost use Rattle.ground_terms.specs.Parts.{HasTerm, HaveTerms, ground_name};

use crate::needed::target_of;
use crate::part::{Name, Part};
use crate::{TermArena, TermNode};
use form_formula::{Arena, Node, Signature};
use std::alloc::{AllocError, Global};

/// The functions of a term, the outermost first.
pub(crate) fn functions_of(alloc: Global, arena: &Arena, id: u32) -> Result<Vec<u32>, AllocError>
    requires { IsTerm arena.now id }
    ensures { IfOk result (λ functions. functions.items ≡ functions_in (term_of arena.now id)) }
{
    let mut functions = Vec::new(alloc);
    let mut at = id;
    'down: while let Node::App(f, t) = arena.node(at) {
        functions.push(*f)?;
        at = *t;
    }
    Ok(functions)
}

/// Lists the ground term of a name.
fn list_name(terms: &mut TermArena, name: Name, listed: &mut Vec<u32>) -> Result<u32, AllocError>
    ensures listed { OnOk result (AreListed (ground_name name ∷ []) terms.old terms.new
        listed.old.items listed.new.items) }
    ensures one { IfOk result (λ id. IsOne terms.new id) }
    ensures is { IfOk result (λ id. ground_term_of terms.new id ≡ ground_name name) }
{
    let empty = terms.add(TermNode::Empty)?;
    let id = terms.add(TermNode::Skolem(name.number, name.sort, empty))?;
    listed.push(id)?;
    Ok(id)
}

/// Adds a function at a term, and lists that if it is a record term.
fn list_field(
    signature: &Signature,
    terms: &mut TermArena,
    f: u32,
    at: u32,
    listed: &mut Vec<u32>,
) -> Result<u32, AllocError>
    requires { IsOne terms.old at }
    ensures listed { OnOk result (AreListed (if_element signature.now f (field f (ground_term_of
        terms.old at) ∷ [])) terms.old terms.new listed.old.items listed.new.items) }
    ensures one { IfOk result (λ id. IsOne terms.new id) }
    ensures is { IfOk result (λ id. ground_term_of terms.new id ≡ field f (ground_term_of terms.old
        at)) }
{
    let id = terms.add(TermNode::Field(f, at))?;
    match target_of(signature, f) {
        None => Ok(id),
        Some(_) => {
            listed.push(id)?;
            Ok(id)
        }
    }
}

/// Lists the record terms of functions at a name, the innermost first.
fn list_chain(
    signature: &Signature,
    terms: &mut TermArena,
    functions: Vec<u32>,
    name: Name,
    listed: &mut Vec<u32>,
) -> Result<(), AllocError>
    requires { listed.old.items ≡ [] }
    ensures { OnOk result (AreListed (inner_parts signature.now (ground_name name) functions.items)
        terms.old terms.new [] listed.new.items) }
{
    let mut functions = functions;
    let mut at = list_name(terms, name, listed)?;
    'up: while let Some(f) = functions.pop() {
        at = list_field(signature, terms, f, at, listed)?;
    }
    Ok(())
}

/// Puts the items of one list at the end of another, the last one first.
pub(crate) fn push_reversed(items: Vec<u32>, list: &mut Vec<u32>) -> Result<(), AllocError>
    ensures { OnOk result (list.new.items ≡ list.old.items ++ reverse items.items) }
{
    let mut items = items;
    'items: while let Some(item) = items.pop() {
        list.push(item)?;
    }
    Ok(())
}

// Six beside the allocator: a term where it stands, its name, and the terms and the list that grow.
/// Lists the record terms of a term whose innermost part has this name, the outermost first.
fn list_named(
    alloc: Global,
    arena: &Arena,
    signature: &Signature,
    terms: &mut TermArena,
    id: u32,
    name: Name,
    listed: &mut Vec<u32>,
) -> Result<(), AllocError>
    requires { IsTerm arena.now id }
    ensures { OnOk result (AreListed (record_parts signature.now (ground_name name) (functions_in
        (term_of arena.now id))) terms.old terms.new listed.old.items listed.new.items) }
{
    let functions = functions_of(alloc, arena, id)?;
    let mut found = Vec::new(alloc);
    list_chain(signature, terms, functions, name, &mut found)?;
    push_reversed(found, listed)?;
    Ok(())
}

/// Lists the record terms that a part is.
fn list_terms_of(
    alloc: Global,
    arena: &Arena,
    signature: &Signature,
    terms: &mut TermArena,
    part: &Part,
    listed: &mut Vec<u32>,
) -> Result<(), AllocError>
    requires { HasTerm arena.now part.now }
    ensures { OnOk result (AreListed (code_terms signature.now arena.now part.now) terms.old
        terms.new listed.old.items listed.new.items) }
{
    match part {
        Part::Named(id, name) => list_named(alloc, arena, signature, terms, *id, *name, listed),
        Part::Existential(_) | Part::Universal(_) | Part::Dependent(_) | Part::Literal(_) => Ok(()),
    }
}

/// Lists the record terms of all parts.
pub(crate) fn list_terms(
    alloc: Global,
    arena: &Arena,
    signature: &Signature,
    terms: &mut TermArena,
    parts: &[Part],
    listed: &mut Vec<u32>,
) -> Result<(), AllocError>
    requires { HaveTerms arena.now parts.now }
    ensures { OnOk result (AreListed (flat_map (code_terms signature.now arena.now) parts.now)
        terms.old terms.new listed.old.items listed.new.items) }
{
    for part in parts {
        list_terms_of(alloc, arena, signature, terms, part, listed)?;
    }
    Ok(())
}

/// Lists the ground term of the variable of an `exists`, if it has one.
fn list_name_of(terms: &mut TermArena, part: &Part, listed: &mut Vec<u32>) -> Result<(), AllocError>
    ensures { OnOk result (AreListed (code_names part.now) terms.old terms.new listed.old.items
        listed.new.items) }
{
    match part {
        Part::Existential(variable) => {
            if variable.above.is_empty() {
                let name = Name {
                    number: variable.number,
                    sort: variable.sort,
                };
                list_name(terms, name, listed)?;
                Ok(())
            } else {
                Ok(())
            }
        }
        Part::Named(..) | Part::Universal(_) | Part::Dependent(_) | Part::Literal(_) => Ok(()),
    }
}

/// Lists the ground terms of the variables of all parts.
pub(crate) fn list_names(
    terms: &mut TermArena,
    parts: &[Part],
    listed: &mut Vec<u32>,
) -> Result<(), AllocError>
    ensures { OnOk result (AreListed (flat_map code_names parts.now) terms.old terms.new
        listed.old.items listed.new.items) }
{
    for part in parts {
        list_name_of(terms, part, listed)?;
    }
    Ok(())
}
