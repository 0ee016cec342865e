//! The functions that are applied.

ghost use Rattle.std.specs.Prelude.{◌≡◌, ◌==◌, ◌++◌, ◌∷◌, [], IfOk, OnOk};
ghost use Rattle.std.specs.List.{flat_map};
ghost use Rattle.form_formula.specs.Nodes.{IsTerm, term_of};
ghost use Rattle.form_terms.specs.Listing.{unique};
ghost use Rattle.form_terms.specs.Parts.{if_element};
ghost use Rattle.ground_terms.specs.Codes.{element_functions, code_functions};
ghost use Rattle.ground_terms.specs.Parts.{HasTerm, HaveTerms};

use crate::needed::target_of;
use crate::part::Part;
use crate::unique::unique;
use form_formula::{Arena, Node, Signature};
use std::alloc::{AllocError, Global};

/// Puts a function at the end of a list, if it gives elements.
fn push_function(signature: &Signature, f: u32, functions: &mut Vec<u32>) -> Result<(), AllocError>
    ensures { OnOk result (functions.new.items ≡ functions.old.items ++ if_element signature.now f
        (f ∷ [])) }
{
    match target_of(signature, f) {
        None => Ok(()),
        Some(_) => {
            functions.push(f)?;
            Ok(())
        }
    }
}

/// Puts the functions of a term that give elements at the end of a list.
fn push_functions(
    arena: &Arena,
    signature: &Signature,
    id: u32,
    functions: &mut Vec<u32>,
) -> Result<(), AllocError>
    requires { IsTerm arena.now id }
    ensures { OnOk result (functions.new.items ≡ functions.old.items ++ element_functions
        signature.now (term_of arena.now id)) }
{
    let mut at = id;
    'down: while let Node::App(f, t) = arena.node(at) {
        push_function(signature, *f, functions)?;
        at = *t;
    }
    Ok(())
}

/// Puts the functions that a part applies at the end of a list.
fn push_functions_of(
    arena: &Arena,
    signature: &Signature,
    part: &Part,
    functions: &mut Vec<u32>,
) -> Result<(), AllocError>
    requires { HasTerm arena.now part.now }
    ensures { OnOk result (functions.new.items ≡ functions.old.items ++ code_functions
        signature.now arena.now part.now) }
{
    match part {
        Part::Dependent(id) => push_functions(arena, signature, *id, functions),
        Part::Existential(_) | Part::Universal(_) | Part::Named(..) | Part::Literal(_) => Ok(()),
    }
}

/// The functions that the parts apply, each once.
pub(crate) fn applied_functions(
    alloc: Global,
    arena: &Arena,
    signature: &Signature,
    parts: &[Part],
) -> Result<Vec<u32>, AllocError>
    requires { HaveTerms arena.now parts.now }
    ensures { IfOk result (λ functions. functions.items ≡ unique (λ h k. h == k) (flat_map
        (code_functions signature.now arena.now) parts.now)) }
{
    let mut functions = Vec::new(alloc);
    for part in parts {
        push_functions_of(arena, signature, part, &mut functions)?;
    }
    unique(alloc, functions.as_slice(), signature.funs.len())
}
