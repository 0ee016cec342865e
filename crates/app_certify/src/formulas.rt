//! The formulas of obligations, for certificates.

ghost use Rattle.std.specs.Prelude.{◌≡◌, [], Contains};
ghost use Rattle.duty_meaning.specs.Duties.{obligations_of};
ghost use Rattle.type_schema.specs.Script.{IsScript};
ghost use Rattle.type_schema.specs.SchemaViews.{script_of};

use certify_scripts::Formulas;
use duty_formulas::{Numbered, duty_formula};
use duty_meaning::Duty;
use duty_numbering::Numbering;
use form_formula::Arena;
use std::alloc::{AllocError, Global};
use type_schema::TScript;

/// What makes each formula as `duty_formula` does.
pub struct DutyFormulas;

impl Formulas for DutyFormulas {
    fn formula(
        &self,
        alloc: Global,
        arena: &mut Arena,
        t: &TScript,
        numbering: &Numbering,
        duty: Duty,
    ) -> Result<u32, AllocError> {
        let of = Numbered {
            script: t,
            numbering,
        };
        match duty_formula(alloc, arena, &of, duty) {
            Ok(id) => Ok(id),
            // No formula of a typed script is too large.
            Err(_) => Err(AllocError),
        }
    }
}
