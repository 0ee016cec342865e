//! The clause that one of two gates is true.

ghost use Rattle.std.specs.Prelude.{◌≡◌, ◌<◌, ◌≤◌, ℕ, Bool, List, ◌||◌, ◌&&◌, ◌++◌, ◌∷◌, [], map, length, true, false, All, IfOk, OnOk, slice_index_or};
ghost use Rattle.std.specs.List.{list_all};
ghost use Rattle.ground_gates.specs.Clauses.{HasVarsBelow, HaveInputsBelow, IsVarBelow, meets_clause};
ghost use Rattle.ground_gates.specs.declared.gate.Gate.{Gate as AnyGate};
ghost use Rattle.ground_gates.specs.Meaning.{input_truth, some_part, truth, under};
ghost use Rattle.ground_gates.specs.Parted.{AreParts};
ghost use Rattle.ground_gates.specs.Names.{end_of};
ghost use Rattle.ground_gates.specs.Said.{AreInputsPlaced, Goes, HasInput, IsPlacedFor, Says, some_of};

use crate::Gate;
use crate::board::Board;
use crate::inputs::{name_input, open_facts};
use crate::literals::on;
use crate::parts::Parts;
use crate::source::Source;
use std::alloc::{AllocError, Global};

/// How many gates are taken apart for a clause at most.
const MOST_PARTS: u32 = 64;

/// One more part: a gate, by its variable.
fn add_named(
    source: Source<'_>,
    gate: u32,
    board: &mut Board,
    parts: &mut Parts,
) -> Result<(), AllocError>
    requires below { gate < source.below }
    requires placed { IsPlacedFor source.gates.now (map (λ xs. xs.items) source.inputs.now)
        source.below board.old }
    requires within { HasVarsBelow (end_of board.old.names) parts.old.literals.items }
    ensures goes { OnOk result ((inputs : List (List ℕ)) → Goes source.entry.gates.now inputs
        source.entry.below board.old board.new
        (λ w. truth source.entry.gates.now inputs w gate
        || some_part source.entry.gates.now inputs w parts.old)
        (λ w. some_part source.entry.gates.now inputs w parts.new)) }
    ensures inputs { OnOk result (parts.new.inputs ≡ parts.old.inputs) }
    ensures stack { OnOk result (parts.new.stack ≡ parts.old.stack) }
    ensures within { OnOk result (HasVarsBelow (end_of board.new.names) parts.new.literals.items) }
{
    let variable = board.name_gate(gate)?;
    parts.literals.push(on(variable))?;
    Ok(())
}

/// Takes a gate apart that is a part. Gives whether it is always true.
fn take(
    source: Source<'_>,
    gate: u32,
    board: &mut Board,
    parts: &mut Parts,
) -> Result<bool, AllocError>
    requires below { gate < source.below }
    requires inputs { HaveInputsBelow (length source.inputs.now) source.gates.now }
    requires placed { IsPlacedFor source.gates.now (map (λ xs. xs.items) source.inputs.now)
        source.below board.old }
    requires are { AreParts (map (λ xs. xs.items) source.inputs.now) source.below parts.old }
    requires within { HasVarsBelow (end_of board.old.names) parts.old.literals.items }
    ensures goes { IfOk result (λ always. let inputs = map (λ xs. xs.items)
        source.entry.inputs.now in Goes source.entry.gates.now inputs
        source.entry.below board.old board.new
        (λ w. truth source.entry.gates.now inputs w gate
        || some_part source.entry.gates.now inputs w parts.old)
        (some_of source.entry.gates.now inputs always parts.new)) }
    ensures are { OnOk result (AreParts (map (λ xs. xs.items) source.entry.inputs.now)
        source.entry.below parts.new) }
    ensures within { OnOk result (HasVarsBelow (end_of board.new.names) parts.new.literals.items) }
{
    // It says that parts have smaller numbers.
    let _count = source.gates.len();
    match source.gates.as_slice()[gate as usize] {
        Gate::Yes => Ok(true),
        Gate::No => Ok(false),
        Gate::Input(literal) => {
            parts.add_input(source.inputs, literal)?;
            Ok(false)
        }
        Gate::Both(..) => {
            add_named(source, gate, board, parts)?;
            Ok(false)
        }
        Gate::Either(a, b) => {
            if source.is_shared(gate) {
                add_named(source, gate, board, parts)?;
            } else {
                parts.add_gates(a, b)?;
            }
            Ok(false)
        }
    }
}

/// Takes the gates apart that are parts, up to so many. Gives whether one part is always true.
fn take_apart(source: Source<'_>, board: &mut Board, parts: &mut Parts) -> Result<bool, AllocError>
    requires inputs { HaveInputsBelow (length source.inputs.now) source.gates.now }
    requires placed { IsPlacedFor source.gates.now (map (λ xs. xs.items) source.inputs.now)
        source.below board.old }
    requires are { AreParts (map (λ xs. xs.items) source.inputs.now) source.below parts.old }
    requires within { HasVarsBelow (end_of board.old.names) parts.old.literals.items }
    ensures goes { IfOk result (λ always. let inputs = map (λ xs. xs.items)
        source.entry.inputs.now in Goes source.entry.gates.now inputs
        source.entry.below board.old board.new
        (λ w. some_part source.entry.gates.now inputs w parts.old)
        (some_of source.entry.gates.now inputs always parts.new)) }
    ensures are { OnOk result (AreParts (map (λ xs. xs.items) source.entry.inputs.now)
        source.entry.below parts.new) }
    ensures within { OnOk result (HasVarsBelow (end_of board.new.names) parts.new.literals.items) }
{
    for _step in 0..MOST_PARTS {
        let Some(gate) = parts.stack.pop() else {
            return Ok(false);
        };
        if take(source, gate, board, parts)? {
            return Ok(true);
        }
    }
    Ok(false)
}

/// Makes parts that are still gates literals of their variables.
fn name_rest(source: Source<'_>, board: &mut Board, parts: &mut Parts) -> Result<(), AllocError>
    requires placed { IsPlacedFor source.gates.now (map (λ xs. xs.items) source.inputs.now)
        source.below board.old }
    requires are { AreParts (map (λ xs. xs.items) source.inputs.now) source.below parts.old }
    requires within { HasVarsBelow (end_of board.old.names) parts.old.literals.items }
    ensures goes { OnOk result (let inputs = map (λ xs. xs.items) source.entry.inputs.now in
        Goes source.entry.gates.now inputs source.entry.below board.old board.new
        (λ w. some_part source.entry.gates.now inputs w parts.old)
        (λ w. some_part source.entry.gates.now inputs w parts.new)) }
    ensures are { OnOk result (AreParts (map (λ xs. xs.items) source.entry.inputs.now)
        source.entry.below parts.new) }
    ensures none { OnOk result (parts.new.stack.items ≡ []) }
    ensures within { OnOk result (HasVarsBelow (end_of board.new.names) parts.new.literals.items) }
{
    while let Some(gate) = parts.stack.pop() {
        add_named(source, gate, board, parts)?;
    }
    Ok(())
}

/// Makes an input a literal: that of a fact, where all others are true beside the literals that
/// there are, and else that of a variable. Gives whether the whole is always true.
fn settle(
    alloc: Global,
    source: Source<'_>,
    input: u32,
    board: &mut Board,
    parts: &mut Parts,
) -> Result<bool, AllocError>
    requires input { input < length source.inputs.now }
    requires placed { AreInputsPlaced (map (λ xs. xs.items) source.inputs.now) board.old }
    requires within { HasVarsBelow (end_of board.old.names) parts.old.literals.items }
    ensures goes { IfOk result (λ always. (gates : List AnyGate) (j : ℕ) →
        let inputs = map (λ xs. xs.items) source.entry.inputs.now in
        Goes gates inputs j board.old board.new
        (λ w. input_truth gates inputs w input || some_part gates inputs w parts.old)
        (some_of gates inputs always parts.new)) }
    ensures inputs { OnOk result (parts.new.inputs ≡ parts.old.inputs) }
    ensures stack { OnOk result (parts.new.stack ≡ parts.old.stack) }
    ensures within { OnOk result (HasVarsBelow (end_of board.new.names) parts.new.literals.items) }
{
    let facts = source.inputs[input as usize].as_slice();
    let others = open_facts(alloc, parts.literals.as_slice(), facts)?;
    match others.as_slice() {
        [] => Ok(true),
        [fact] => {
            parts.literals.push(on(*fact))?;
            Ok(false)
        }
        _ => {
            let variable = name_input(alloc, source, input, board)?;
            parts.literals.push(on(variable))?;
            Ok(false)
        }
    }
}

/// Makes all inputs literals. Gives whether the whole is always true.
fn settle_all(
    alloc: Global,
    source: Source<'_>,
    board: &mut Board,
    parts: &mut Parts,
) -> Result<bool, AllocError>
    requires placed { IsPlacedFor source.gates.now (map (λ xs. xs.items) source.inputs.now)
        source.below board.old }
    requires are { AreParts (map (λ xs. xs.items) source.inputs.now) source.below parts.old }
    requires within { HasVarsBelow (end_of board.old.names) parts.old.literals.items }
    ensures goes { IfOk result (λ always. let inputs = map (λ xs. xs.items)
        source.entry.inputs.now in Goes source.entry.gates.now inputs
        source.entry.below board.old board.new
        (λ w. some_part source.entry.gates.now inputs w parts.old)
        (some_of source.entry.gates.now inputs always parts.new)) }
    ensures stack { OnOk result (parts.new.stack ≡ parts.old.stack) }
    ensures none { IfOk result (λ always. always ≡ false → parts.new.inputs.items ≡ []) }
    ensures within { OnOk result (HasVarsBelow (end_of board.new.names) parts.new.literals.items) }
{
    while let Some(input) = parts.inputs.pop() {
        if settle(alloc, source, input, board, parts)? {
            return Ok(true);
        }
    }
    Ok(false)
}

/// Puts the clause at the end that one of two gates is true where a variable is, if there is one.
pub(crate) fn say_either(
    alloc: Global,
    source: Source<'_>,
    whole: Option<u32>,
    a: u32,
    b: u32,
    board: &mut Board,
) -> Result<(), AllocError>
    requires first { a < source.below }
    requires second { b < source.below }
    requires inputs { HaveInputsBelow (length source.inputs.now) source.gates.now }
    requires placed { IsPlacedFor source.gates.now (map (λ xs. xs.items) source.inputs.now)
        source.below board.old }
    requires whole { IsVarBelow (end_of board.old.names) whole }
    ensures { OnOk result (let inputs = map (λ xs. xs.items) source.entry.inputs.now in
        Says source.entry.gates.now inputs source.entry.below board.old board.new
        (λ w. under whole w (truth source.entry.gates.now inputs w a
        || truth source.entry.gates.now inputs w b))) }
{
    let mut parts = Parts::new(alloc, whole, a, b)?;
    if take_apart(source, board, &mut parts)? {
        return Ok(());
    }
    name_rest(source, board, &mut parts)?;
    if settle_all(alloc, source, board, &mut parts)? {
        return Ok(());
    }
    board.push(alloc, parts.literals.as_slice())?;
    Ok(())
}
