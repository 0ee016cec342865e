//! The gate of an instance, by the form of its part.

ghost use Rattle.std.specs.Prelude.{◌<◌, ℕ, List, length, IfOk};
ghost use Rattle.form_formula.specs.declared.node.Node.{Node as AnyNode};
ghost use Rattle.form_formula.specs.declared.structure.Signature.{Signature as AnySignature};
ghost use Rattle.ground_instances.specs.declared.shapes.Shape.{Shape};
ghost use Rattle.form_formula.specs.Nodes.{IsFormula, formula_of};
ghost use Rattle.form_formula.specs.Trees.{both, either, exists, forall};
ghost use Rattle.ground_terms.specs.Nodes.{IsOne, term_of};
ghost use Rattle.ground_terms.specs.Standing.{AreOnes};
ghost use Rattle.ground_instances.specs.Instances.{IsGate, IsReady, each_test, one_test, part_test};
ghost use Rattle.ground_instances.specs.Instances.{signed_test};

use crate::atoms::input_of;
use crate::input::Input;
use crate::instance::Above;
use crate::joins::{join_both, join_either};
use crate::lists::list_from;
use crate::work::{Source, Work, number_after};
use ground_terms::{TermNode, of_sort};
use std::alloc::{AllocError, Global};

/// The gate of what is always true, or never.
pub(crate) fn make_constant(work: &mut Work, value: bool) -> Result<Option<u32>, AllocError>
    ensures { IfOk result (λ found. (g : AnySignature) (nodes : List AnyNode) (shapes : List Shape)
        (listed : List ℕ) → IsReady g nodes shapes listed work.old →
        IsGate g nodes shapes listed work.old work.new (λ is_there holds. value) found) }
{
    let gate = work.board.constant(value)?;
    Ok(Some(gate))
}

/// The gate of an atom, or of its negation. What is no atom does not hold.
pub(crate) fn make_atom(
    alloc: Global,
    source: Source<'_>,
    work: &mut Work,
    node: u32,
    plus: bool,
    above: Above<'_>,
) -> Result<Option<u32>, AllocError>
    requires part { IsFormula source.arena.now node }
    requires variables { AreOnes work.old.board.terms above.variables.now }
    requires ready { IsReady source.signature.now source.arena.now source.shapes.now
        source.listed.now work.old }
    ensures { IfOk result (IsGate source.entry.signature.now source.entry.arena.now
        source.entry.shapes.now source.entry.listed.now work.old work.new
        (signed_test plus work.old.board.terms above.entry.variables.now
        (formula_of source.entry.arena.now node))) }
{
    let terms = &mut work.board.terms;
    let found = input_of(alloc, source.arena, terms, above.variables, node)?;
    match found {
        Some(input) => {
            let gate = work.board.input(input, plus)?;
            Ok(Some(gate))
        }
        None => {
            let gate = work.board.constant(!plus)?;
            Ok(Some(gate))
        }
    }
}

/// The gate of a conjunction.
pub(crate) fn make_both(
    alloc: Global,
    source: Source<'_>,
    work: &mut Work,
    a: u32,
    b: u32,
    above: Above<'_>,
) -> Result<Option<u32>, AllocError>
    requires left { IsFormula source.arena.now a }
    requires right { IsFormula source.arena.now b }
    requires within { (a < length source.shapes.now) × (b < length source.shapes.now) }
    requires variables { AreOnes work.old.board.terms above.variables.now }
    requires arguments { AreOnes work.old.board.terms above.arguments.now }
    requires ready { IsReady source.signature.now source.arena.now source.shapes.now
        source.listed.now work.old }
    ensures { IfOk result (IsGate source.entry.signature.now source.entry.arena.now
        source.entry.shapes.now source.entry.listed.now work.old work.new
        (part_test source.entry.signature.now work.old.board.terms source.entry.listed.now
        above.entry.number above.entry.variables.now above.entry.arguments.now
        (both (formula_of source.entry.arena.now a) (formula_of source.entry.arena.now b)))) }
{
    // What waits last is made first, and the numbers of inputs, by which a search goes, follow that
    // order: so the right part is sought first, and the left one, which may be made at once, when
    // that is there.
    let passed = source.shapes[a as usize].quantifiers;
    let number = number_after(above.number, passed)?;
    let right = work.seek(alloc, source, b, Above { number, ..above })?;
    if right.is_none() {
        return Ok(None);
    }
    let left = work.seek(alloc, source, a, above)?;
    let gate = join_both(&mut work.board, left, right)?;
    Ok(gate)
}

/// The gate of a disjunction.
pub(crate) fn make_either(
    alloc: Global,
    source: Source<'_>,
    work: &mut Work,
    a: u32,
    b: u32,
    above: Above<'_>,
) -> Result<Option<u32>, AllocError>
    requires left { IsFormula source.arena.now a }
    requires right { IsFormula source.arena.now b }
    requires within { (a < length source.shapes.now) × (b < length source.shapes.now) }
    requires variables { AreOnes work.old.board.terms above.variables.now }
    requires arguments { AreOnes work.old.board.terms above.arguments.now }
    requires ready { IsReady source.signature.now source.arena.now source.shapes.now
        source.listed.now work.old }
    ensures { IfOk result (IsGate source.entry.signature.now source.entry.arena.now
        source.entry.shapes.now source.entry.listed.now work.old work.new
        (part_test source.entry.signature.now work.old.board.terms source.entry.listed.now
        above.entry.number above.entry.variables.now above.entry.arguments.now
        (either (formula_of source.entry.arena.now a) (formula_of source.entry.arena.now b)))) }
{
    // As with a conjunction.
    let passed = source.shapes[a as usize].quantifiers;
    let number = number_after(above.number, passed)?;
    let right = work.seek(alloc, source, b, Above { number, ..above })?;
    if right.is_none() {
        return Ok(None);
    }
    let left = work.seek(alloc, source, a, above)?;
    let gate = join_either(&mut work.board, left, right)?;
    Ok(gate)
}

/// The gate of an `exists`, which is its own term, if that is there.
pub(crate) fn make_exists(
    alloc: Global,
    source: Source<'_>,
    work: &mut Work,
    sort: u32,
    a: u32,
    above: Above<'_>,
) -> Result<Option<u32>, AllocError>
    requires part { IsFormula source.arena.now a }
    requires within { a < length source.shapes.now }
    requires variables { AreOnes work.old.board.terms above.variables.now }
    requires arguments { AreOnes work.old.board.terms above.arguments.now }
    requires ready { IsReady source.signature.now source.arena.now source.shapes.now
        source.listed.now work.old }
    ensures { IfOk result (IsGate source.entry.signature.now source.entry.arena.now
        source.entry.shapes.now source.entry.listed.now work.old work.new
        (part_test source.entry.signature.now work.old.board.terms source.entry.listed.now
        above.entry.number above.entry.variables.now above.entry.arguments.now
        (exists sort (formula_of source.entry.arena.now a)))) }
{
    let arguments = list_from(&mut work.board.terms, above.arguments)?;
    let t = work
        .board
        .terms
        .add(TermNode::Skolem(above.number, sort, arguments))?;
    let mut variables = Vec::from_slice(alloc, above.variables)?;
    variables.push(t)?;
    let below = Above {
        number: number_after(above.number, 1)?,
        variables: variables.as_slice(),
        arguments: above.arguments,
    };
    let body = work.seek(alloc, source, a, below)?;
    let there = work.board.input(Input::There(t), true)?;
    let gate = join_both(&mut work.board, Some(there), body)?;
    Ok(gate)
}

/// The gate of the body of a `forall` at a term, or that the term is not there.
fn make_one(
    alloc: Global,
    source: Source<'_>,
    work: &mut Work,
    t: u32,
    a: u32,
    above: Above<'_>,
) -> Result<Option<u32>, AllocError>
    requires part { IsFormula source.arena.now a }
    requires within { a < length source.shapes.now }
    requires term { IsOne work.old.board.terms t }
    requires variables { AreOnes work.old.board.terms above.variables.now }
    requires arguments { AreOnes work.old.board.terms above.arguments.now }
    requires ready { IsReady source.signature.now source.arena.now source.shapes.now
        source.listed.now work.old }
    ensures { IfOk result (IsGate source.entry.signature.now source.entry.arena.now
        source.entry.shapes.now source.entry.listed.now work.old work.new
        (one_test source.entry.signature.now work.old.board.terms source.entry.listed.now
        above.entry.number above.entry.variables.now above.entry.arguments.now
        (formula_of source.entry.arena.now a) (term_of work.old.board.terms t))) }
{
    let mut variables = Vec::from_slice(alloc, above.variables)?;
    variables.push(t)?;
    let mut arguments = Vec::from_slice(alloc, above.arguments)?;
    arguments.push(t)?;
    let below = Above {
        number: above.number,
        variables: variables.as_slice(),
        arguments: arguments.as_slice(),
    };
    let body = work.seek(alloc, source, a, below)?;
    let absent = work.board.input(Input::There(t), false)?;
    let gate = join_either(&mut work.board, Some(absent), body)?;
    Ok(gate)
}

/// The gate of a `forall`, which is its body at each term of its sort that is there.
pub(crate) fn make_forall(
    alloc: Global,
    source: Source<'_>,
    work: &mut Work,
    sort: u32,
    a: u32,
    above: Above<'_>,
) -> Result<Option<u32>, AllocError>
    requires part { IsFormula source.arena.now a }
    requires within { a < length source.shapes.now }
    requires variables { AreOnes work.old.board.terms above.variables.now }
    requires arguments { AreOnes work.old.board.terms above.arguments.now }
    requires ready { IsReady source.signature.now source.arena.now source.shapes.now
        source.listed.now work.old }
    ensures { IfOk result (IsGate source.entry.signature.now source.entry.arena.now
        source.entry.shapes.now source.entry.listed.now work.old work.new
        (part_test source.entry.signature.now work.old.board.terms source.entry.listed.now
        above.entry.number above.entry.variables.now above.entry.arguments.now
        (forall sort (formula_of source.entry.arena.now a)))) }
{
    let terms = &work.board.terms;
    let choices = of_sort(alloc, source.signature, terms, source.listed, sort)?;
    let number = number_after(above.number, 1)?;
    let below = Above { number, ..above };
    let gate = make_each(alloc, source, work, choices.as_slice(), a, below)?;
    Ok(gate)
}

/// The gate of the body of a `forall` at each of some terms that is there.
fn make_each(
    alloc: Global,
    source: Source<'_>,
    work: &mut Work,
    choices: &[u32],
    a: u32,
    above: Above<'_>,
) -> Result<Option<u32>, AllocError>
    requires part { IsFormula source.arena.now a }
    requires within { a < length source.shapes.now }
    requires choices { AreOnes work.old.board.terms choices.now }
    requires variables { AreOnes work.old.board.terms above.variables.now }
    requires arguments { AreOnes work.old.board.terms above.arguments.now }
    requires ready { IsReady source.signature.now source.arena.now source.shapes.now
        source.listed.now work.old }
    ensures { IfOk result (IsGate source.entry.signature.now source.entry.arena.now
        source.entry.shapes.now source.entry.listed.now work.old work.new
        (each_test source.entry.signature.now work.old.board.terms source.entry.listed.now
        above.entry.number above.entry.variables.now above.entry.arguments.now
        (formula_of source.entry.arena.now a) choices.now)) }
{
    let yes = work.board.constant(true)?;
    let mut whole = Some(yes);
    for t in choices {
        let one = make_one(alloc, source, work, *t, a, above)?;
        whole = join_both(&mut work.board, whole, one)?;
    }
    Ok(whole)
}
