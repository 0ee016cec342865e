//! The clauses that a gate, or all of some gates, are true.

ghost use Rattle.std.specs.Prelude.{◌≡◌, ◌<◌, ◌≤◌, ℕ, Bool, List, ◌||◌, ◌&&◌, ◌++◌, ◌∷◌, [], map, length, take, true, false, All, IfOk, OnOk, slice_index_or};
ghost use Rattle.std.specs.List.{list_all};
ghost use Rattle.ground_gates.specs.Clauses.{HaveInputsBelow, IsVarBelow, inputs_by, meets_clause};
ghost use Rattle.ground_gates.specs.Gates.{literal_value};
ghost use Rattle.ground_gates.specs.declared.gate.Gate.{Gate as AnyGate};
ghost use Rattle.ground_gates.specs.Literals.{is_false, is_none, is_true};
ghost use Rattle.ground_gates.specs.Meaning.{truth, under};
ghost use Rattle.ground_gates.specs.Names.{end_of};
ghost use Rattle.ground_gates.specs.Said.{AreInputsPlaced, Goes, IsPlacedFor, Says, all_under};
ghost use Rattle.ground_gates.specs.Said.{clauses_in};

use crate::board::Board;
use crate::disjunctions::say_either;
use crate::literals::{off, on};
use crate::parts::push_negations;
use crate::source::Source;
use crate::{Gate, Literal};
use std::alloc::{AllocError, Global};

/// The literals that a variable is false, if there is one.
fn denial(alloc: Global, whole: Option<u32>) -> Result<Vec<Literal>, AllocError>
    ensures { IfOk result (λ literals. literals.items ≡ is_none whole) }
{
    let mut literals = Vec::new(alloc);
    if let Some(variable) = whole {
        literals.push(off(variable))?;
    }
    Ok(literals)
}

/// Puts the clause at the end that a literal is true where a variable is, if there is one.
fn push_literal(
    alloc: Global,
    whole: Option<u32>,
    literal: Literal,
    board: &mut Board,
) -> Result<(), AllocError>
    ensures names { OnOk result (board.new.names ≡ board.old.names) }
    ensures clauses { OnOk result (clauses_in board.new ≡ clauses_in board.old
        ++ (is_none whole ++ literal ∷ []) ∷ []) }
{
    let mut literals = denial(alloc, whole)?;
    literals.push(literal)?;
    board.push(alloc, literals.as_slice())
}

/// Puts the clauses at the end that variables are true where another is, if there is one.
fn push_each(
    alloc: Global,
    whole: Option<u32>,
    facts: &[u32],
    board: &mut Board,
) -> Result<(), AllocError>
    ensures names { OnOk result (board.new.names ≡ board.old.names) }
    ensures clauses { OnOk result (clauses_in board.new ≡ clauses_in board.old
        ++ map (λ x. is_none whole ++ is_true x ∷ []) facts.now) }
{
    for fact in facts {
        push_literal(alloc, whole, on(*fact), board)?;
    }
    Ok(())
}

/// Puts the clause at the end that one of some variables is false where another is true, if there
/// is one.
fn push_some(
    alloc: Global,
    whole: Option<u32>,
    facts: &[u32],
    board: &mut Board,
) -> Result<(), AllocError>
    ensures names { OnOk result (board.new.names ≡ board.old.names) }
    ensures clauses { OnOk result (clauses_in board.new ≡ clauses_in board.old
        ++ (is_none whole ++ map is_false facts.now) ∷ []) }
{
    let mut literals = denial(alloc, whole)?;
    push_negations(facts, &mut literals)?;
    board.push(alloc, literals.as_slice())
}

/// Puts the clauses at the end that what an input's literal says is so where a variable is true, if
/// there is one.
fn say_input(
    alloc: Global,
    source: Source<'_>,
    whole: Option<u32>,
    literal: Literal,
    board: &mut Board,
) -> Result<(), AllocError>
    requires input { literal.var < length source.inputs.now }
    requires placed { AreInputsPlaced (map (λ xs. xs.items) source.inputs.now) board.old }
    requires whole { IsVarBelow (end_of board.old.names) whole }
    ensures { OnOk result ((gates : List AnyGate) (j : ℕ) →
        let inputs = map (λ xs. xs.items) source.entry.inputs.now in
        Says gates inputs j board.old board.new
        (λ w. under whole w (literal_value (inputs_by inputs w) literal))) }
{
    let facts = source.inputs[literal.var as usize].as_slice();
    if literal.plus {
        push_each(alloc, whole, facts, board)?;
    } else {
        push_some(alloc, whole, facts, board)?;
    }
    Ok(())
}

/// Puts the clauses at the end that say that a gate is true where a variable is, if there is one.
/// What they leave to be said is that other gates are, which are put on a stack.
fn say(
    alloc: Global,
    source: Source<'_>,
    whole: Option<u32>,
    gate: u32,
    board: &mut Board,
    stack: &mut Vec<u32>,
) -> Result<(), AllocError>
    requires gate { gate ≤ source.below }
    requires within { gate < length source.gates.now }
    requires inputs { HaveInputsBelow (length source.inputs.now) source.gates.now }
    requires placed { IsPlacedFor source.gates.now (map (λ xs. xs.items) source.inputs.now)
        source.below board.old }
    requires whole { IsVarBelow (end_of board.old.names) whole }
    requires stack { All (λ k. k < source.below) stack.old.items }
    ensures goes { OnOk result (let inputs = map (λ xs. xs.items) source.entry.inputs.now in
        Goes source.entry.gates.now inputs source.entry.below board.old board.new
        (all_under source.entry.gates.now inputs whole (gate ∷ stack.old.items))
        (all_under source.entry.gates.now inputs whole stack.new.items)) }
    ensures stack { OnOk result (All (λ k. k < source.entry.below) stack.new.items) }
{
    // It says that parts have smaller numbers.
    let _count = source.gates.len();
    match source.gates.as_slice()[gate as usize] {
        Gate::Yes => Ok(()),
        Gate::No => {
            let literals = denial(alloc, whole)?;
            board.push(alloc, literals.as_slice())?;
            Ok(())
        }
        Gate::Input(literal) => {
            say_input(alloc, source, whole, literal, board)?;
            Ok(())
        }
        Gate::Either(a, b) => {
            say_either(alloc, source, whole, a, b, board)?;
            Ok(())
        }
        Gate::Both(a, b) => {
            stack.push(b)?;
            stack.push(a)?;
            Ok(())
        }
    }
}

/// Puts the clause at the end that the variable of a gate is true where another is, if there is
/// one.
fn say_named(
    alloc: Global,
    source: Source<'_>,
    whole: Option<u32>,
    gate: u32,
    board: &mut Board,
) -> Result<(), AllocError>
    requires below { gate < source.below }
    requires placed { IsPlacedFor source.gates.now (map (λ xs. xs.items) source.inputs.now)
        source.below board.old }
    requires whole { IsVarBelow (end_of board.old.names) whole }
    ensures { OnOk result ((inputs : List (List ℕ)) → Says source.entry.gates.now inputs
        source.entry.below board.old board.new
        (λ w. under whole w (truth source.entry.gates.now inputs w gate))) }
{
    let variable = board.name_gate(gate)?;
    push_literal(alloc, whole, on(variable), board)?;
    Ok(())
}

/// The same of a gate that is one of several that are to be said: where it is a part of others too,
/// its variable stands for it.
fn say_part(
    alloc: Global,
    source: Source<'_>,
    whole: Option<u32>,
    gate: u32,
    board: &mut Board,
    stack: &mut Vec<u32>,
) -> Result<(), AllocError>
    requires gate { gate < source.below }
    requires inputs { HaveInputsBelow (length source.inputs.now) source.gates.now }
    requires placed { IsPlacedFor source.gates.now (map (λ xs. xs.items) source.inputs.now)
        source.below board.old }
    requires whole { IsVarBelow (end_of board.old.names) whole }
    requires stack { All (λ k. k < source.below) stack.old.items }
    ensures goes { OnOk result (let inputs = map (λ xs. xs.items) source.entry.inputs.now in
        Goes source.entry.gates.now inputs source.entry.below board.old board.new
        (all_under source.entry.gates.now inputs whole (gate ∷ stack.old.items))
        (all_under source.entry.gates.now inputs whole stack.new.items)) }
    ensures stack { OnOk result (All (λ k. k < source.entry.below) stack.new.items) }
{
    if source.is_shared(gate) {
        say_named(alloc, source, whole, gate, board)?;
    } else {
        say(alloc, source, whole, gate, board, stack)?;
    }
    Ok(())
}

/// Puts the clauses at the end that say that the gates of a stack are true where a variable is, if
/// there is one. No more gates are taken apart than there can be.
fn say_stack(
    alloc: Global,
    source: Source<'_>,
    whole: Option<u32>,
    board: &mut Board,
    stack: &mut Vec<u32>,
) -> Result<(), AllocError>
    requires inputs { HaveInputsBelow (length source.inputs.now) source.gates.now }
    requires placed { IsPlacedFor source.gates.now (map (λ xs. xs.items) source.inputs.now)
        source.below board.old }
    requires whole { IsVarBelow (end_of board.old.names) whole }
    requires stack { All (λ k. k < source.below) stack.old.items }
    ensures goes { OnOk result (let inputs = map (λ xs. xs.items) source.entry.inputs.now in
        Goes source.entry.gates.now inputs source.entry.below board.old board.new
        (all_under source.entry.gates.now inputs whole stack.old.items)
        (all_under source.entry.gates.now inputs whole stack.new.items)) }
    ensures stack { OnOk result (All (λ k. k < source.entry.below) stack.new.items) }
{
    for _step in 0..u32::MAX {
        let Some(gate) = stack.pop() else {
            return Ok(());
        };
        say_part(alloc, source, whole, gate, board, stack)?;
    }
    Ok(())
}

/// The same by the variables of the gates alone.
fn say_rest(
    alloc: Global,
    source: Source<'_>,
    whole: Option<u32>,
    board: &mut Board,
    stack: &mut Vec<u32>,
) -> Result<(), AllocError>
    requires placed { IsPlacedFor source.gates.now (map (λ xs. xs.items) source.inputs.now)
        source.below board.old }
    requires whole { IsVarBelow (end_of board.old.names) whole }
    requires stack { All (λ k. k < source.below) stack.old.items }
    ensures goes { OnOk result (let inputs = map (λ xs. xs.items) source.entry.inputs.now in
        Goes source.entry.gates.now inputs source.entry.below board.old board.new
        (all_under source.entry.gates.now inputs whole stack.old.items)
        (all_under source.entry.gates.now inputs whole stack.new.items)) }
    ensures none { OnOk result (stack.new.items ≡ []) }
{
    while let Some(gate) = stack.pop() {
        say_named(alloc, source, whole, gate, board)?;
    }
    Ok(())
}

/// Puts the clauses at the end that say that a gate is true where a variable is, if there is one.
pub(crate) fn say_all(
    alloc: Global,
    source: Source<'_>,
    whole: Option<u32>,
    board: &mut Board,
) -> Result<(), AllocError>
    requires within { source.below < length source.gates.now }
    requires inputs { HaveInputsBelow (length source.inputs.now) source.gates.now }
    requires placed { IsPlacedFor source.gates.now (map (λ xs. xs.items) source.inputs.now)
        source.below board.old }
    requires whole { IsVarBelow (end_of board.old.names) whole }
    ensures { OnOk result (let inputs = map (λ xs. xs.items) source.entry.inputs.now in
        Says source.entry.gates.now inputs source.entry.below board.old board.new
        (λ w. under whole w (truth source.entry.gates.now inputs w source.entry.below))) }
{
    let mut stack = Vec::new(alloc);
    say(alloc, source, whole, source.below, board, &mut stack)?;
    say_stack(alloc, source, whole, board, &mut stack)?;
    say_rest(alloc, source, whole, board, &mut stack)?;
    Ok(())
}
