//! Inputs as parts of disjunctions.

ghost use Rattle.std.specs.Prelude.{◌≡◌, ◌<◌, ◌≤◌, ℕ, Bool, List, ◌||◌, ◌++◌, ◌∷◌, [], map, length, take, true, false, All, Contains, IfOk, OnOk, slice_index_or};
ghost use Rattle.std.specs.List.{list_all};
ghost use Rattle.ground_gates.specs.Clauses.{meets_clause};
ghost use Rattle.ground_gates.specs.declared.gate.Gate.{Gate as AnyGate};
ghost use Rattle.ground_gates.specs.Literals.{is_false, is_true};
ghost use Rattle.ground_gates.specs.Meaning.{input_truth, some_part};
ghost use Rattle.ground_gates.specs.Said.{AreInputsPlaced, Goes, HasInput, clauses_in, some_of};

use crate::Literal;
use crate::board::Board;
use crate::literals::{off, on};
use crate::parts::Parts;
use crate::source::Source;
use std::alloc::{AllocError, Global};

/// Whether it is among literals that a variable is false.
fn is_denied(literals: &[Literal], variable: u32) -> bool
    ensures { result ≡ true → Contains literals.now (is_false variable) }
{
    for literal in literals {
        if literal.var == variable && !literal.plus {
            return true;
        }
    }
    false
}

/// The facts of which it is not among literals that they are false: beside these literals the
/// others say nothing.
pub(crate) fn open_facts(
    alloc: Global,
    literals: &[Literal],
    facts: &[u32],
) -> Result<Vec<u32>, AllocError>
    ensures same { IfOk result (λ others. (w : ℕ → Bool) →
        (meets_clause w literals.now || list_all w facts.now)
        ≡ (meets_clause w literals.now || list_all w others.items)) }
    ensures some { IfOk result (λ others. (x : ℕ) → Contains others.items x →
        Contains facts.now x) }
{
    let mut others = Vec::new(alloc);
    for fact in facts {
        if !is_denied(literals, *fact) {
            others.push(*fact)?;
        }
    }
    Ok(others)
}

/// Puts the clauses at the end that facts are true where a variable is.
fn push_facts(
    alloc: Global,
    variable: u32,
    facts: &[u32],
    board: &mut Board,
) -> Result<(), AllocError>
    ensures names { OnOk result (board.new.names ≡ board.old.names) }
    ensures clauses { OnOk result (clauses_in board.new ≡ clauses_in board.old
        ++ map (λ x. is_false variable ∷ is_true x ∷ []) facts.now) }
{
    for fact in facts {
        board.push(alloc, &[off(variable), on(*fact)])?;
    }
    Ok(())
}

/// The variable of an input, which is added, with its clauses, if it has none.
pub(crate) fn name_input(
    alloc: Global,
    source: Source<'_>,
    input: u32,
    board: &mut Board,
) -> Result<u32, AllocError>
    requires input { input < length source.inputs.now }
    requires placed { AreInputsPlaced (map (λ xs. xs.items) source.inputs.now) board.old }
    ensures { IfOk result (λ variable. (gates : List AnyGate) (j : ℕ) →
        HasInput gates (map (λ xs. xs.items) source.entry.inputs.now) j input board.old
        board.new variable) }
{
    if let Some(variable) = board.names.of_input(input) {
        return Ok(variable);
    }
    let variable = board.names.add_input(input)?;
    push_facts(
        alloc,
        variable,
        source.inputs[input as usize].as_slice(),
        board,
    )?;
    Ok(variable)
}
