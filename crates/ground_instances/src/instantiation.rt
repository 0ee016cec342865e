//! The instances of a formula.

ghost use Rattle.std.specs.Prelude.{◌≡◌, ◌⊎◌, Contains, IfOk, OnOk};
ghost use Rattle.form_formula.specs.Nodes.{IsFormula, formula_of};
ghost use Rattle.ground_terms.specs.TermLists.{terms_in};
ghost use Rattle.ground_instances.specs.Instances.{IsInstance, IsReady};
ghost use Rattle.ground_instances.specs.Made.{AreInstancesOf, GoesOn};

use crate::board::Board;
use crate::dispatch::make;
use crate::inputs::Inputs;
use crate::instance::{Above, Instance, instance_of};
use crate::memo::Memo;
use crate::shapes::shapes_of;
use crate::work::{Source, Work};
use form_formula::{Arena, Signature};
use ground_gates::Gates;
use ground_terms::{TermArena, Terms};
use std::alloc::{AllocError, Global};

/// A formula written out over ground terms, as one gate.
#[derive(Drop)]
pub struct Instances {
    /// The ground terms that the inputs speak of.
    pub terms: TermArena,
    /// The numbers of those over which the formula was written out.
    pub listed: Vec<u32>,
    /// What the variables of the gates stand for.
    pub inputs: Inputs,
    pub gates: Gates,
    /// The gate of the whole formula.
    pub root: u32,
}

/// The instance that was missing last, or else the root.
fn last_missing(missing: &[Instance], root: Instance) -> Instance
    ensures { (result ≡ root) ⊎ Contains missing.now result }
{
    missing.last().copied().unwrap_or(root)
}

/// Takes one step: the gate of the instance that was missing last, or the instances that are
/// missing for it.
fn step(
    alloc: Global,
    source: Source<'_>,
    work: &mut Work,
    root: Instance,
) -> Result<(), AllocError>
    requires root { IsInstance source.arena.now source.shapes.now work.old.board.terms root }
    requires ready { IsReady source.signature.now source.arena.now source.shapes.now
        source.listed.now work.old }
    ensures { OnOk result (GoesOn source.entry.signature.now source.entry.arena.now
        source.entry.shapes.now source.entry.listed.now work.old work.new) }
{
    let instance = last_missing(work.missing.as_slice(), root);
    if work.memo.find(instance).is_some() {
        let waiting = work.missing.len();
        work.missing.truncate(waiting.saturating_sub(1));
        return Ok(());
    }
    let made = make(alloc, source, work, instance)?;
    match made {
        None => Ok(()),
        Some(gate) => {
            work.memo.keep(instance, gate)?;
            Ok(())
        }
    }
}

/// Makes the gate of a formula in negation normal form over ground terms: a `forall` is its body at
/// each term of its sort that is there, and an `exists` is its own term, if that is there. Atoms at
/// ground terms and the existence of terms are inputs, equal ones shared.
///
/// An instance of a part that has no `exists` depends on the terms of its own variables alone, and
/// equal instances are made once; so time goes with the different instances. What waits for the
/// gates of its parts is a list, and nothing recurses. As many steps as there are numbers of 64
/// bits count as memory that is not there.
pub fn instantiate(
    alloc: Global,
    arena: &Arena,
    id: u32,
    signature: &Signature,
    terms: Terms,
) -> Result<Instances, AllocError>
    requires { IsFormula arena.now id }
    ensures { IfOk result (AreInstancesOf signature.now arena.now (formula_of arena.now id)
        (terms_in
        terms)) }
{
    let _nodes = arena.len();
    let shapes = shapes_of(alloc, arena, id)?;
    let (terms, listed) = terms.into_parts();
    let source = Source {
        arena,
        signature,
        shapes: shapes.as_slice(),
        listed: listed.as_slice(),
    };
    let mut work = Work {
        board: Board::new(alloc, terms)?,
        memo: Memo::new(alloc),
        missing: Vec::new(alloc),
    };
    let above = Above {
        number: 0,
        variables: &[],
        arguments: &[],
    };
    let shape = source.shapes[id as usize];
    let root = instance_of(alloc, &mut work.board.terms, shape, id, above)?;
    'steps: for _ in 0..u64::MAX {
        if let Some(gate) = work.memo.find(root) {
            return Ok(finished(work, listed, gate));
        }
        step(alloc, source, &mut work, root)?;
    }
    Err(AllocError)
}

/// The gate of the whole formula, with what it is made of.
fn finished(work: Work, listed: Vec<u32>, root: u32) -> Instances
    ensures terms { result.terms ≡ work.board.terms }
    ensures listed { result.listed.items ≡ listed.items }
    ensures inputs { result.inputs ≡ work.board.inputs }
    ensures gates { result.gates ≡ work.board.gates }
    ensures root { result.root ≡ root }
{
    let Work {
        board,
        memo: _,
        missing: _,
    } = work;
    let Board {
        terms,
        inputs,
        gates,
    } = board;
    Instances {
        terms,
        listed,
        inputs,
        gates,
        root,
    }
}
