//! The sorts that a formula needs.

ghost use Rattle.std.specs.Prelude.{◌≡◌, ◌∷◌, [], ◌<◌, length, IfOk, false, Contains, take};
ghost use Rattle.std.specs.List.{flat_map};
ghost use Rattle.std.specs.Option.{option_to_list};
ghost use Rattle.form_formula.specs.declared.structure.FunSig.{FunSig as AnyFunSig};
ghost use Rattle.form_formula.specs.Nodes.{IsTerm, term_of, formula_of};
ghost use Rattle.form_formula.specs.Trees.{Formula};
ghost use Rattle.form_terms.specs.Parts.{sorts_in, parts_of};
ghost use Rattle.form_terms.specs.GroundTerms.{target_of};
ghost use Rattle.form_terms.specs.Universe.{is_needed};
ghost use Rattle.ground_terms.specs.Codes.{AreMarked, code_sorts, is_marked};
ghost use Rattle.ground_terms.specs.Needed.{AreSpread, AreNeededAfter};
ghost use Rattle.ground_terms.specs.Parts.{AreThinned, HasTerm, HaveTerms};

use crate::part::Part;
use form_formula::{Arena, FunSig, Node, Range, Signature};
use std::alloc::{AllocError, Global};

/// Marks a sort, if there is a place for it.
fn mark(marks: &mut [bool], sort: u32)
    ensures { AreMarked (sort ∷ []) marks.old marks.new }
{
    let place = sort as usize;
    if place < marks.len() {
        marks[place] = true;
    }
}

/// The sort whose elements a function gives, if it gives elements.
pub(crate) fn target_of(signature: &Signature, f: u32) -> Option<u32>
    ensures { result ≡ target_of signature.now f }
{
    match signature.funs.get(f as usize)?.to {
        Range::Rec(sort) => Some(sort),
        Range::Flag | Range::Num | Range::Str => None,
    }
}

/// Marks the sort whose elements a function gives, if it gives elements.
fn mark_target(signature: &Signature, f: u32, marks: &mut [bool])
    ensures { AreMarked (option_to_list (target_of signature.now f)) marks.old marks.new }
{
    if let Some(sort) = target_of(signature, f) {
        mark(marks, sort);
    }
}

/// Marks the sorts of the record terms among a term and its parts.
fn mark_term(arena: &Arena, signature: &Signature, id: u32, marks: &mut [bool])
    requires { IsTerm arena.now id }
    ensures { AreMarked (sorts_in signature.now (term_of arena.now id)) marks.old marks.new }
{
    let mut at = id;
    'down: loop {
        match arena.node(at) {
            Node::App(f, t) => {
                mark_target(signature, *f, marks);
                at = *t;
            }
            Node::Bound(sort, _) => {
                mark(marks, *sort);
                return;
            }
            _ => return,
        }
    }
}

/// Marks the sorts of a part.
fn mark_part(arena: &Arena, signature: &Signature, part: &Part, marks: &mut [bool])
    requires { HasTerm arena.now part.now }
    ensures { AreMarked (code_sorts signature.now arena.now part.now) marks.old marks.new }
{
    match part {
        Part::Existential(variable) => mark(marks, variable.sort),
        Part::Universal(sort) => mark(marks, *sort),
        Part::Named(id, _) | Part::Dependent(id) | Part::Literal(id) => {
            mark_term(arena, signature, *id, marks);
        }
    }
}

/// Marks the sorts of all parts.
fn mark_parts(arena: &Arena, signature: &Signature, parts: &[Part], marks: &mut [bool])
    requires { HaveTerms arena.now parts.now }
    ensures { AreMarked (flat_map (code_sorts signature.now arena.now) parts.now) marks.old
        marks.new }
{
    for part in parts {
        mark_part(arena, signature, part, marks);
    }
}

/// Marks what a function leads to, if it is total and its source is marked in another list.
fn spread_by(fun: &FunSig, from: &[bool], marks: &mut [bool])
    ensures { AreSpread (fun.now ∷ []) from.now marks.old marks.new }
{
    if let Range::Rec(to) = fun.to {
        if !fun.partial && is_marked(from, fun.from) {
            mark(marks, to);
        }
    }
}

/// Marks what total functions lead to from the sorts of another list that are marked.
fn spread(funs: &[FunSig], from: &[bool], marks: &mut [bool])
    ensures { AreSpread funs.now from.now marks.old marks.new }
{
    for fun in funs {
        spread_by(fun, from, marks);
    }
}

/// The marks with those of what total functions lead to from the sorts that are marked.
fn one_round(alloc: Global, funs: &[FunSig], marks: &[bool]) -> Result<Vec<bool>, AllocError>
    ensures { IfOk result (λ next. AreSpread funs.now marks.now marks.now next.items) }
{
    let mut next = Vec::from_slice(alloc, marks)?;
    spread(funs, marks, next.as_mut_slice());
    Ok(next)
}

/// Whether a sort is marked.
pub(crate) fn is_marked(marks: &[bool], sort: u32) -> bool
    ensures { result ≡ is_marked marks.now sort }
{
    marks.get(sort as usize).copied().unwrap_or(false)
}

/// For each sort whether a formula with these parts needs it.
pub(crate) fn needed_sorts(
    alloc: Global,
    arena: &Arena,
    signature: &Signature,
    parts: &[Part],
) -> Result<Vec<bool>, AllocError>
    requires { HaveTerms arena.now parts.now }
    ensures { IfOk result (λ marks. (f : Formula) → AreThinned arena.now (parts_of f) parts.now →
        AreNeededAfter signature.now f signature.now.sorts marks.items) }
{
    let mut marks = vec![in alloc; false; signature.sorts as usize]?;
    mark_parts(arena, signature, parts, marks.as_mut_slice());
    'rounds: for round in 0..signature.sorts {
        let next = one_round(alloc, signature.funs.as_slice(), marks.as_slice())?;
        if next == marks {
            return Ok(marks);
        }
        marks = next;
    }
    Ok(marks)
}
