//! The canonical texts of policies, specifications and scripts.

ghost use Rattle.std.specs.Prelude.{◌≡◌, IfOk};
ghost use Rattle.text_print.specs.Commands.{spelled_script};
ghost use Rattle.text_print.specs.Marks.{text_of_marks};
ghost use Rattle.text_print.specs.Models.{spelled_policy, spelled_spec};

use crate::printer::Printer;
use std::alloc::{AllocError, Global};
use text_tree::{Policy, Script, Spec};

/// The canonical text of a policy.
pub fn print_policy(alloc: Global, policy: &Policy) -> Result<Vec<u8>, AllocError>
    ensures { IfOk result (λ text. text.items ≡ text_of_marks (spelled_policy policy.now)) }
{
    let mut printer = Printer::new(alloc);
    printer.policy(policy)?;
    Ok(printer.into_bytes())
}

/// The canonical text of a specification.
pub fn print_spec(alloc: Global, spec: &Spec) -> Result<Vec<u8>, AllocError>
    ensures { IfOk result (λ text. text.items ≡ text_of_marks (spelled_spec spec.now)) }
{
    let mut printer = Printer::new(alloc);
    printer.spec(spec)?;
    Ok(printer.into_bytes())
}

/// The canonical text of a script.
pub fn print_script(alloc: Global, script: &Script) -> Result<Vec<u8>, AllocError>
    ensures { IfOk result (λ text. text.items ≡ text_of_marks (spelled_script script.now)) }
{
    let mut printer = Printer::new(alloc);
    printer.script(script)?;
    Ok(printer.into_bytes())
}
