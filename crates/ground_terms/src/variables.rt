//! The variables of a formula.

ghost use Rattle.std.specs.Prelude.{◌≡◌, ◌++◌, map, IfOk, OnOk};
ghost use Rattle.form_formula.specs.declared.node.Node.{Node as AnyNode};
ghost use Rattle.form_formula.specs.declared.structure.Signature.{Signature};
ghost use Rattle.std.specs.Prelude.{List};
ghost use Rattle.std.specs.List.{flat_map};
ghost use Rattle.form_formula.specs.Nodes.{IsFormula, formula_of};
ghost use Rattle.form_terms.specs.Universe.{variables_of};
ghost use Rattle.ground_terms.specs.Codes.{code_variables};
ghost use Rattle.ground_terms.specs.Variables.{variable_at};

use crate::part::{Part, Variable};
use crate::walk::parts_of;
use form_formula::Arena;
use sqlite_items::Items;
use std::alloc::{AllocError, Global};

/// Puts the variable of a part, if it has one, at the end of a list.
fn push_variable(
    alloc: Global,
    part: &Part,
    variables: &mut Vec<Variable>,
) -> Result<(), AllocError>
    ensures { OnOk result ((g : Signature) (nodes : List AnyNode) →
        map variable_at variables.new.items ≡ map variable_at variables.old.items
        ++ code_variables g nodes part.now) }
{
    match part {
        Part::Existential(v) => {
            let above = Items::from_slice(alloc, v.above.as_slice())?;
            variables.push(Variable {
                number: v.number,
                sort: v.sort,
                above,
            })?;
            Ok(())
        }
        Part::Universal(_) | Part::Named(..) | Part::Dependent(_) | Part::Literal(_) => Ok(()),
    }
}

/// The variables of parts.
fn variables_in(alloc: Global, parts: &[Part]) -> Result<Vec<Variable>, AllocError>
    ensures { IfOk result (λ found. (g : Signature) (nodes : List AnyNode) →
        map variable_at found.items ≡ flat_map (code_variables g nodes) parts.now) }
{
    let mut variables = Vec::new(alloc);
    for part in parts {
        push_variable(alloc, part, &mut variables)?;
    }
    Ok(variables)
}

/// The variables that the `exists` of a formula bind, in reading order.
///
/// The walk is over the formula as a tree, down to formulas without quantifiers, and without
/// recursion.
pub fn variables_of(alloc: Global, arena: &Arena, id: u32) -> Result<Vec<Variable>, AllocError>
    requires { IsFormula arena.now id }
    ensures { IfOk result (λ found. (g : Signature) →
        map variable_at found.items ≡ variables_of g (formula_of arena.now id)) }
{
    let parts = parts_of(alloc, arena, id)?;
    let variables = variables_in(alloc, parts.as_slice())?;
    Ok(variables)
}
