//! The gate of an instance.

ghost use Rattle.std.specs.Prelude.{◌<◌, length, IfOk};
ghost use Rattle.form_formula.specs.Nodes.{IsFormula, formula_of};
ghost use Rattle.ground_terms.specs.Standing.{AreOnes, terms_at};
ghost use Rattle.ground_instances.specs.Instances.{IsGate, IsInstance, IsReady, instance_reading};
ghost use Rattle.ground_instances.specs.Instances.{part_test};

use crate::instance::{Above, Instance};
use crate::leaves::make_leaf;
use crate::lists::items_of;
use crate::make::{make_both, make_either, make_exists, make_forall};
use crate::work::{Source, Work};
use form_formula::Node;
use std::alloc::{AllocError, Global};

/// The gate of a formula, unless the gates of some of its parts are missing.
fn make_node(
    alloc: Global,
    source: Source<'_>,
    work: &mut Work,
    node: u32,
    above: Above<'_>,
) -> Result<Option<u32>, AllocError>
    requires part { IsFormula source.arena.now node }
    requires within { node < length source.shapes.now }
    requires variables { AreOnes work.old.board.terms above.variables.now }
    requires arguments { AreOnes work.old.board.terms above.arguments.now }
    requires ready { IsReady source.signature.now source.arena.now source.shapes.now
        source.listed.now work.old }
    ensures { IfOk result (IsGate source.entry.signature.now source.entry.arena.now
        source.entry.shapes.now source.entry.listed.now work.old work.new
        (part_test source.entry.signature.now work.old.board.terms source.entry.listed.now
        above.entry.number above.entry.variables.now above.entry.arguments.now
        (formula_of source.entry.arena.now node))) }
{
    match source.arena.node(node) {
        Node::And(a, b) => {
            let gate = make_both(alloc, source, work, *a, *b, above)?;
            Ok(gate)
        }
        Node::Or(a, b) => {
            let gate = make_either(alloc, source, work, *a, *b, above)?;
            Ok(gate)
        }
        Node::Exists(sort, a) => {
            let gate = make_exists(alloc, source, work, *sort, *a, above)?;
            Ok(gate)
        }
        Node::Forall(sort, a) => {
            let gate = make_forall(alloc, source, work, *sort, *a, above)?;
            Ok(gate)
        }
        _ => {
            let gate = make_leaf(alloc, source, work, node, above)?;
            Ok(gate)
        }
    }
}

/// The gate of an instance, unless the gates of some of its parts are missing.
pub(crate) fn make(
    alloc: Global,
    source: Source<'_>,
    work: &mut Work,
    instance: Instance,
) -> Result<Option<u32>, AllocError>
    requires instance { IsInstance source.arena.now source.shapes.now work.old.board.terms
        instance }
    requires ready { IsReady source.signature.now source.arena.now source.shapes.now
        source.listed.now work.old }
    ensures { IfOk result (IsGate source.entry.signature.now source.entry.arena.now
        source.entry.shapes.now source.entry.listed.now work.old work.new
        (instance_reading source.entry.signature.now (terms_at work.old.board.terms
        source.entry.listed.now) source.entry.arena.now work.old.board.terms instance)) }
{
    let terms = &work.board.terms;
    let variables = items_of(alloc, terms, instance.variables)?;
    let arguments = items_of(alloc, terms, instance.arguments)?;
    let above = Above {
        number: instance.number,
        variables: variables.as_slice(),
        arguments: arguments.as_slice(),
    };
    let gate = make_node(alloc, source, work, instance.node, above)?;
    Ok(gate)
}
