//! The search for values that meet clauses in which facts are as in a lawful model.

ghost use Rattle.std.specs.Prelude.{◌≡◌, ◌+◌, ◌-◌, ◌^◌, ◌≤◌, ◌<◌, ◌++◌, ℕ, All, Bool, List, None, IfOk, IfSome, OnOk, length, map};
ghost use Rattle.std.specs.List.{range_with_len};
ghost use Rattle.decide_search.specs.Mixed.{Atom as AnyAtom, IsMixed, IsMixture};
ghost use Rattle.decide_search.specs.Problem.{AreBelow, AreSolved, IsNowhere, IsPlainlyMixed, plit_of};
ghost use Rattle.decide_search.specs.Sides.{AreTakenBy};
ghost use Rattle.solve_solver.specs.Clauses.{IsWithin};
ghost use Rattle.decide_search.specs.Texts.{StandOnce};

use crate::atoms::{Lit, atoms_for};
use crate::halves::{halves_of, variable_at};
use crate::problem::{push_clauses, push_copies};
use crate::sides::Reader;
use crate::{Mixture, search_mixed};
use ground_gates::Literal;
use ground_problem::FactNode;
use ground_terms::TermArena;
use solve_solver::limits::TOO_MANY;
use solve_solver::{Atoms, Clauses, PLit};
use std::alloc::{AllocError, Global};
use text_ast::Txt;

/// The numbers from one on, so many.
fn numbers_from(alloc: Global, first: u32, count: u32) -> Result<Vec<u32>, AllocError>
    requires { first + count < 2 ^ 32 }
    ensures { IfOk result (λ numbers. numbers.items ≡ range_with_len first count) }
{
    let mut numbers = Vec::new(alloc);
    for place in 0..count {
        numbers.push(first + place)?;
    }
    Ok(numbers)
}

/// How many terms there are, if these are few.
fn few_terms(terms: &TermArena) -> Result<u32, AllocError>
    ensures is { IfOk result (λ few. few ≡ length terms.now) }
    ensures less { IfOk result (λ few. few < TOO_MANY - 1) }
{
    let count = terms.len();
    if count >= TOO_MANY - 1 {
        return Err(AllocError);
    }
    Ok(count as u32)
}

/// How many texts there are, if these are few.
fn few_texts(texts: &[Txt]) -> Result<u32, AllocError>
    ensures is { IfOk result (λ few. few ≡ length texts.now) }
    ensures less { IfOk result (λ few. few < TOO_MANY - 1) }
{
    let count = texts.len();
    if count >= TOO_MANY - 1 {
        return Err(AllocError);
    }
    Ok(count as u32)
}

/// How many variables there are with those of halves, if these are few.
fn few_variables(vars: u32, halves: &[FactNode]) -> Result<u32, AllocError>
    ensures is { IfOk result (λ few. few ≡ vars + length halves.now) }
    ensures less { IfOk result (λ few. few < TOO_MANY - 1) }
{
    let Some(count) = (vars as usize).checked_add(halves.len()) else {
        return Err(AllocError);
    };
    if count >= TOO_MANY - 1 {
        return Err(AllocError);
    }
    Ok(count as u32)
}

// Six beside the allocator: the solver's problem, and how many terms and texts it is over.
/// Searches for an assignment that meets clauses whose equalities and differences have a model,
/// where so many terms are followed by texts, which are pairwise different.
fn search_checked(
    alloc: Global,
    terms: u32,
    texts: u32,
    vars: u32,
    clauses: Clauses,
    atoms: Atoms<Lit>,
    first: &[PLit],
) -> Result<Option<Mixture>, AllocError>
    requires terms { terms < TOO_MANY - 1 }
    requires texts { texts < TOO_MANY - 1 }
    requires vars { vars < TOO_MANY }
    requires one_each { length atoms ≡ vars }
    requires taken { AreTakenBy terms texts atoms }
    requires within { All (IsWithin vars) clauses.list }
    requires first_in { IsWithin vars first.now }
    ensures none { IfOk result (λ found. found ≡ None → (assignment : List Bool) → IsMixed (terms +
        texts) (range_with_len terms texts) (terms + 1) vars clauses.list atoms assignment → ⊥) }
    ensures some { IfOk result (λ found. IfSome found (IsMixture vars clauses.list)) }
{
    let fixed = numbers_from(alloc, terms, texts)?;
    if clauses.len() >= TOO_MANY {
        return Err(AllocError);
    }
    search_mixed(
        alloc,
        vars,
        clauses,
        atoms,
        first,
        (terms + texts) as usize,
        fixed.as_slice(),
        (terms + 1) as usize,
    )
}

/// Puts clauses at the end of those for the solver, and keeps them no longer.
fn move_clauses(
    alloc: Global,
    clauses: Vec<Vec<Literal>>,
    all: &mut Clauses,
) -> Result<(), AllocError>
    ensures { OnOk result (all.new.list ≡ all.old.list ++ map (map plit_of) (map (λ c. c.items)
        clauses.items)) }
{
    push_clauses(alloc, clauses.as_slice(), all)
}

/// All clauses for the solver.
fn clauses_for(
    alloc: Global,
    clauses: Vec<Vec<Literal>>,
    gates: Vec<Vec<Literal>>,
    links: &[Vec<PLit>],
) -> Result<Clauses, AllocError>
    ensures { IfOk result (λ all. all.list ≡ (map (map plit_of) (map (λ c. c.items) clauses.items)
        ++ map (map plit_of) (map (λ c. c.items) gates.items)) ++ map (λ c. c.items) links.now) }
{
    let mut all = Clauses::new(alloc);
    move_clauses(alloc, clauses, &mut all)?;
    move_clauses(alloc, gates, &mut all)?;
    push_copies(links, &mut all)?;
    Ok(all)
}

/// The facts of which the clauses speak that a search has to meet, which are the first variables.
#[derive(Clone, Copy)]
pub(crate) struct Ground<'a> {
    pub(crate) facts: &'a [FactNode],
    /// How many variables there are.
    pub(crate) vars: u32,
}

/// Whether a fact is tried as true first: that a sort has no element, since the less there is, the
/// better it is read.
fn is_tried_first(fact: FactNode) -> bool {
    match fact {
        FactNode::Empty(_) => true,
        FactNode::Same(..)
        | FactNode::Below(..)
        | FactNode::There(_)
        | FactNode::Raised(_)
        | FactNode::Related(_) => false,
    }
}

/// Puts the value at the end that is tried first of the fact at a place, if one is.
fn try_first(fact: FactNode, place: usize, values: &mut Vec<PLit>) -> Result<(), AllocError>
    ensures { OnOk result ((n : ℕ) → place < n → IsWithin n values.old.items →
        IsWithin n values.new.items) }
{
    if !is_tried_first(fact) {
        return Ok(());
    }
    let var = variable_at(place)?;
    values.push(PLit { var, plus: true })?;
    Ok(())
}

/// The values that are tried first.
fn values_first(alloc: Global, facts: &[FactNode]) -> Result<Vec<PLit>, AllocError>
    ensures { IfOk result (λ values. IsWithin (length facts.now) values.items) }
{
    let mut values = Vec::new(alloc);
    for place in 0..facts.len() {
        try_first(facts[place], place, &mut values)?;
    }
    Ok(values)
}

// Six beside the allocator: what is read, and four lists of which the solver's problem is made.
/// Searches for values that meet clauses, by the halves of equalities of numbers.
fn solve_with(
    alloc: Global,
    reader: Reader<'_>,
    ground: Ground<'_>,
    clauses: Vec<Vec<Literal>>,
    gates: Vec<Vec<Literal>>,
    halves: &[FactNode],
    links: &[Vec<PLit>],
) -> Result<Option<Mixture>, AllocError>
    requires facts { length ground.facts.now ≤ ground.vars }
    requires own { All (λ c. AreBelow ground.vars c.items) clauses.items }
    requires others { All (λ c. AreBelow ground.vars c.items) gates.items }
    requires links { All (IsWithin (ground.vars + length halves.now)) (map (λ c. c.items)
        links.now) }
    ensures none { IfOk result (λ found. found ≡ None → (atoms : List AnyAtom) × IsPlainlyMixed
        reader.entry.signature.now reader.entry.arena.now reader.entry.terms.now
        reader.entry.words.now reader.entry.texts.now ground.entry.vars
        ground.entry.facts.now halves.now (map (λ c. c.items) clauses.items
        ++ map (λ c. c.items) gates.items) (map (λ c. c.items) links.now)
        atoms) }
    ensures some { IfOk result (λ found. IfSome found (AreSolved (map (λ c. c.items)
        clauses.items ++ map (λ c. c.items) gates.items))) }
{
    let terms = few_terms(reader.terms)?;
    let texts = few_texts(reader.texts)?;
    let total = few_variables(ground.vars, halves)?;
    let clauses = clauses_for(alloc, clauses, gates, links)?;
    let atoms = atoms_for(alloc, reader, ground.vars, ground.facts, halves)?;
    let values = values_first(alloc, ground.facts)?;
    search_checked(
        alloc,
        terms,
        texts,
        total,
        clauses,
        atoms,
        values.as_slice(),
    )
}

/// Searches for values that meet clauses in which facts are as in a lawful model; None only where
/// there are no such values and no such model.
pub(crate) fn solve(
    alloc: Global,
    reader: Reader<'_>,
    ground: Ground<'_>,
    clauses: Vec<Vec<Literal>>,
    gates: Vec<Vec<Literal>>,
) -> Result<Option<Mixture>, AllocError>
    requires once { StandOnce reader.texts.now }
    requires facts { length ground.facts.now ≤ ground.vars }
    requires own { All (λ c. AreBelow ground.vars c.items) clauses.items }
    requires others { All (λ c. AreBelow ground.vars c.items) gates.items }
    ensures none { IfOk result (λ found. found ≡ None → IsNowhere reader.entry.signature.now
        reader.entry.arena.now reader.entry.terms.now reader.entry.words.now
        reader.entry.texts.now ground.entry.facts.now (map (λ c. c.items)
        clauses.items ++ map (λ c. c.items) gates.items)) }
    ensures some { IfOk result (λ found. IfSome found (AreSolved (map (λ c. c.items)
        clauses.items ++ map (λ c. c.items) gates.items))) }
{
    let halves = halves_of(alloc, reader, ground.vars, ground.facts)?;
    let facts = halves.facts.as_slice();
    let links = halves.links.as_slice();
    solve_with(alloc, reader, ground, clauses, gates, facts, links)
}
