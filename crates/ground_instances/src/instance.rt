//! Instances of parts of a formula.

ghost use Rattle.std.specs.Prelude.{◌≡◌, cond, IfOk};
ghost use Rattle.ground_terms.specs.Standing.{AreOnes};
ghost use Rattle.ground_instances.specs.Instances.{IsInstanceOf, IsMasked};
ghost use Rattle.ground_instances.specs.Shapes.{is_in};

use crate::lists::list_from;
use crate::shapes::{Shape, is_in};
use ground_terms::{TermArena, TermNode};
use std::alloc::{AllocError, Global};

/// A part of a formula where its own variables are some ground terms. Equal instances of a part are
/// read alike.
#[derive(Clone, Copy, Debug, PartialEq, Eq, Hash)]
pub(crate) struct Instance {
    /// The number of the part in the formula's arena.
    pub(crate) node: u32,
    /// The number of the part's first quantifier; 0 if it has no `exists`.
    pub(crate) number: u32,
    /// The list of the terms of the variables above, the outermost first, with a constant for each
    /// that does not occur.
    pub(crate) variables: u32,
    /// The list of the terms of the `forall`s above, the outermost first; empty if the part has no
    /// `exists`.
    pub(crate) arguments: u32,
}

/// What stands above a part.
#[derive(Clone, Copy)]
pub(crate) struct Above<'a> {
    /// The number of the part's first quantifier.
    pub(crate) number: u32,
    /// The terms of the variables above, the outermost first.
    pub(crate) variables: &'a [u32],
    /// The terms of the `forall`s above, the outermost first.
    pub(crate) arguments: &'a [u32],
}

/// The term of a variable, or another one if it is not in the mask.
fn pick(mask: u64, place: usize, variable: u32, blank: u32) -> u32
    ensures { result ≡ cond (is_in mask place) variable blank }
{
    if is_in(mask, place) { variable } else { blank }
}

/// The terms of variables, with a constant for each that is not in the mask.
fn masked(
    alloc: Global,
    terms: &mut TermArena,
    mask: u64,
    variables: &[u32],
) -> Result<Vec<u32>, AllocError>
    requires { AreOnes terms.old variables.now }
    ensures { IfOk result (λ kept. IsMasked mask terms.old terms.new variables.now kept.items) }
{
    let blank = terms.add(TermNode::Constant(0))?;
    let mut kept = Vec::new(alloc);
    for (place, variable) in variables.iter().enumerate() {
        let term = pick(mask, place, *variable, blank);
        kept.push(term)?;
    }
    Ok(kept)
}

/// The instance of a part of this shape below what stands above it.
pub(crate) fn instance_of(
    alloc: Global,
    terms: &mut TermArena,
    shape: Shape,
    node: u32,
    above: Above<'_>,
) -> Result<Instance, AllocError>
    requires variables { AreOnes terms.old above.variables.now }
    requires arguments { AreOnes terms.old above.arguments.now }
    ensures { IfOk result (IsInstanceOf shape node above.entry.number above.entry.variables.now
        above.entry.arguments.now terms.old terms.new) }
{
    let kept = masked(alloc, terms, shape.variables, above.variables)?;
    let variables = list_from(terms, kept.as_slice())?;
    if shape.exists {
        let arguments = list_from(terms, above.arguments)?;
        return Ok(Instance {
            node,
            number: above.number,
            variables,
            arguments,
        });
    }
    let arguments = list_from(terms, &[])?;
    Ok(Instance {
        node,
        number: 0,
        variables,
        arguments,
    })
}
