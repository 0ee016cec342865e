//! The clauses of obligations, one by one.

ghost use Rattle.std.specs.Prelude.{◌≡◌, Contains, IfOk};
ghost use Rattle.duty_meaning.specs.Duties.{formula_of, obligations_of};
ghost use Rattle.duty_meaning.specs.Over.{IsSignatureOf};
ghost use Rattle.duty_numbering.specs.Numbers.{numbers_of};
ghost use Rattle.type_schema.specs.SchemaViews.{schema_of, script_of};
ghost use Rattle.type_schema.specs.Script.{IsScript};
ghost use Rattle.certify_problem.specs.Grounded.{IsGrounded};
ghost use Rattle.form_formula.specs.NormalForm.{normal_form};

use crate::formulas::Formulas;
use certify_problem::{Grounded, ground_formula};
use duty_meaning::Duty;
use duty_numbering::Numbering;
use form_formula::{Arena, Signature};
use std::alloc::{AllocError, Global};
use type_schema::TScript;

/// What the clauses of a script's obligations are made by.
#[derive(Drop)]
pub struct Grounding<'a, F> {
    /// What makes the formulas.
    pub formulas: &'a F,
    /// The script.
    pub script: &'a TScript,
    /// The numbers of its start schema.
    pub numbering: &'a Numbering,
    /// The signature of its start schema.
    pub signature: &'a Signature,
}

impl<'a, F: Formulas> Grounding<'a, F> {
    /// The clauses of an obligation, or why it has none.
    pub fn grounded(&self, alloc: Global, duty: Duty) -> Result<Grounded, AllocError>
        requires script { IsScript (script_of self.now.script.now) }
        requires numbered { self.now.numbering.now ≡ numbers_of
            (schema_of self.now.script.now.start) }
        requires signature { IsSignatureOf (script_of self.now.script.now).start
            self.now.signature.now }
        requires listed { Contains (obligations_of (script_of self.now.script.now)) duty }
        ensures { IfOk result (IsGrounded self.now.signature.now
            (formula_of (script_of self.now.script.now) duty)
            (normal_form (formula_of (script_of self.now.script.now) duty))) }
    {
        let mut arena = Arena::new(alloc)?;
        let id = self
            .formulas
            .formula(alloc, &mut arena, self.script, self.numbering, duty)?;
        ground_formula(alloc, &mut arena, id, self.signature)
    }
}
