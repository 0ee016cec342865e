//! The gate of a part that has no parts of its own.

ghost use Rattle.std.specs.Prelude.{◌<◌, length, IfOk};
ghost use Rattle.form_formula.specs.Nodes.{IsFormula, formula_of};
ghost use Rattle.ground_terms.specs.Standing.{AreOnes};
ghost use Rattle.ground_instances.specs.Instances.{IsGate, IsReady, part_test};

use crate::instance::Above;
use crate::make::{make_atom, make_constant};
use crate::work::{Source, Work};
use form_formula::Node;
use std::alloc::{AllocError, Global};

/// The gate of an atom, of its negation, or of what is always true or never; of other parts none is
/// made.
pub(crate) fn make_leaf(
    alloc: Global,
    source: Source<'_>,
    work: &mut Work,
    node: u32,
    above: Above<'_>,
) -> Result<Option<u32>, AllocError>
    requires part { IsFormula source.arena.now node }
    requires variables { AreOnes work.old.board.terms above.variables.now }
    requires ready { IsReady source.signature.now source.arena.now source.shapes.now
        source.listed.now work.old }
    ensures { IfOk result (IsGate source.entry.signature.now source.entry.arena.now
        source.entry.shapes.now source.entry.listed.now work.old work.new
        (part_test source.entry.signature.now work.old.board.terms source.entry.listed.now
        above.entry.number above.entry.variables.now above.entry.arguments.now
        (formula_of source.entry.arena.now node))) }
{
    match source.arena.node(node) {
        Node::And(..) | Node::Or(..) | Node::Exists(..) | Node::Forall(..) => Ok(None),
        Node::Yes => {
            let gate = make_constant(work, true)?;
            Ok(gate)
        }
        Node::Not(a) => {
            let gate = make_atom(alloc, source, work, *a, false, above)?;
            Ok(gate)
        }
        // An atom, or what is false.
        _ => {
            let gate = make_atom(alloc, source, work, node, true, above)?;
            Ok(gate)
        }
    }
}
