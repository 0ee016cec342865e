//! Clauses that say that a gate is true.

ghost use Rattle.std.specs.Prelude.{◌≡◌, ◌<◌, ◌+◌, ℕ, length, map, All, IfOk, OnOk};
ghost use Rattle.ground_gates.specs.Clauses.{HaveInputsBelow, IsEncoding};
ghost use Rattle.ground_gates.specs.Encoded.{IsEncodedTo};
ghost use Rattle.ground_gates.specs.Said.{IsPlacedFor};

use crate::board::Board;
use crate::conjunctions::say_all;
use crate::names::Names;
use crate::source::Source;
use crate::uses::uses_of;
use crate::{Gates, Literal};
use std::alloc::{AllocError, Global};

/// Clauses that say that a gate is true. Their own variables are numbered up to an end.
#[derive(Drop)]
pub struct Encoding {
    pub clauses: Vec<Vec<Literal>>,
    pub end: u32,
}

/// Puts the clauses at the end that say of a gate, if it has a variable, that it is true where its
/// variable is.
fn say_named_gate(
    alloc: Global,
    source: Source<'_>,
    gate: u32,
    board: &mut Board,
) -> Result<(), AllocError>
    requires gate { gate < source.below }
    requires within { source.below < length source.gates.now }
    requires inputs { HaveInputsBelow (length source.inputs.now) source.gates.now }
    requires placed { IsPlacedFor source.gates.now (map (λ xs. xs.items) source.inputs.now)
        source.below board.old }
    ensures encoded { OnOk result ((base : ℕ) → let inputs = map (λ xs. xs.items)
        source.entry.inputs.now in
        IsEncodedTo source.entry.gates.now inputs base source.entry.below (gate + 1)
        board.old → IsEncodedTo source.entry.gates.now inputs base source.entry.below gate
        board.new) }
    ensures placed { OnOk result (IsPlacedFor source.entry.gates.now
        (map (λ xs. xs.items) source.entry.inputs.now) source.entry.below board.new) }
{
    let Some(variable) = board.names.of_gate(gate) else {
        return Ok(());
    };
    let own = Source {
        below: gate,
        ..source
    };
    say_all(alloc, own, Some(variable), board)?;
    Ok(())
}

/// Puts the clauses at the end that say of each gate below one, if it has a variable, that it is
/// true where its variable is: from the last gate on, as they may name earlier ones.
fn say_named_gates(alloc: Global, source: Source<'_>, board: &mut Board) -> Result<(), AllocError>
    requires within { source.below < length source.gates.now }
    requires inputs { HaveInputsBelow (length source.inputs.now) source.gates.now }
    requires placed { IsPlacedFor source.gates.now (map (λ xs. xs.items) source.inputs.now)
        source.below board.old }
    ensures { OnOk result ((base : ℕ) → let inputs = map (λ xs. xs.items)
        source.entry.inputs.now in
        IsEncodedTo source.entry.gates.now inputs base source.entry.below source.entry.below
        board.old → IsEncodedTo source.entry.gates.now inputs base source.entry.below 0
        board.new) }
{
    for step in 0..source.below {
        say_named_gate(alloc, source, source.below - 1 - step, board)?;
    }
    Ok(())
}

/// Clauses that say that a gate is true, where each input stands for a list of variables below a
/// base, at which their own variables begin. Four thousand million variables count as memory that
/// is not there.
///
/// Where a variable is true its gate or its input is, and not the other way round (Plaisted and
/// Greenbaum 1986). Gates without a variable are parts of the clauses of those that have one.
pub fn encode(
    alloc: Global,
    gates: &Gates,
    root: u32,
    inputs: &[Vec<u32>],
    base: u32,
) -> Result<Encoding, AllocError>
    requires below { HaveInputsBelow (length inputs.now) gates.now }
    requires variables { All (λ xs. All (λ x. x < base) xs.items) inputs.now }
    requires there { root < length gates.now }
    ensures { IfOk result (λ encoding. IsEncoding base encoding.end
        (map (λ xs. xs.items) inputs.now) gates.now root
        (map (λ c. c.items) encoding.clauses.items)) }
{
    let uses = uses_of(alloc, gates)?;
    let mut board = Board {
        names: Names::new(alloc, base, gates.len(), inputs.len())?,
        clauses: Vec::new(alloc),
    };
    let source = Source {
        gates,
        inputs,
        uses: uses.as_slice(),
        below: root,
    };
    say_all(alloc, source, None, &mut board)?;
    say_named_gates(alloc, source, &mut board)?;
    let end = board.names.end();
    Ok(Encoding {
        clauses: board.clauses,
        end,
    })
}
