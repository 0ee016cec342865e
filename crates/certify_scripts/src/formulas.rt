//! What makes the formulas of obligations.

ghost use Rattle.std.specs.Prelude.{◌≡◌, ◌≤◌, ◌*◌, [], Contains, IfOk, length};
ghost use Rattle.duty_meaning.specs.Duties.{formula_of, obligations_of};
ghost use Rattle.form_formula.specs.Nodes.{StandsFor};
ghost use Rattle.type_schema.specs.Script.{IsScript};
ghost use Rattle.type_schema.specs.SchemaViews.{schema_of, script_of};
ghost use Rattle.duty_numbering.specs.Numbers.{numbers_of};
ghost use Rattle.form_formula.specs.declared.limits.TheConstants.{MOST_ARENA_NODES};

use duty_meaning::Duty;
use duty_numbering::Numbering;
use form_formula::Arena;
use std::alloc::{AllocError, Global};
use type_schema::TScript;

/// What makes the formulas of obligations.
pub trait Formulas {
    /// Makes the formula of an obligation of the script, whose start schema has these numbers, in
    /// an arena that is empty, and gives its number. There is room in the arena for the normal
    /// form.
    fn formula(
        &self,
        alloc: Global,
        arena: &mut Arena,
        t: &TScript,
        numbering: &Numbering,
        duty: Duty,
    ) -> Result<u32, AllocError>
        requires empty { arena.old ≡ [] }
        requires script { IsScript (script_of t.now) }
        requires numbered { numbering.now ≡ numbers_of (schema_of t.now.start) }
        requires listed { Contains (obligations_of (script_of t.now)) duty }
        ensures formula { IfOk result (λ id. StandsFor arena.new id (formula_of
            (script_of t.now) duty)) }
        ensures room { IfOk result (λ id. 3 * length arena.new ≤ MOST_ARENA_NODES) };
}
