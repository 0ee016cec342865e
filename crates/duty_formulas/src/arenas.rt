//! The arena in which the formula of an obligation is written.

ghost use Rattle.std.specs.Prelude.{◌≡◌, ◌≤◌, ◌*◌, IfOk, Ok, Err, length};
ghost use Rattle.duty_writer.specs.declared.make_err.MakeErr.TheVariants.{Full};
ghost use Rattle.duty_writer.specs.declared.writer.Mode.TheVariants.{Build};
ghost use Rattle.duty_formulas.specs.Limits.{largest_formula};
ghost use Rattle.form_formula.specs.declared.limits.TheConstants.{MOST_ARENA_NODES};

use crate::limits::LARGEST_FORMULA;
use duty_writer::{MakeErr, Mode, Writer};
use form_formula::Arena;
use form_formula::limits::MOST_ARENA_NODES;
use std::alloc::{AllocError, Global};
use std::mem;

/// What writes into the arena, which is empty until it is put back.
pub(crate) fn writer_over(alloc: Global, arena: &mut Arena) -> Result<Writer, AllocError>
    ensures arena { IfOk result (λ w. w.arena ≡ arena.old) }
    ensures left { IfOk result (λ w. w.left ≡ largest_formula) }
    ensures mode { IfOk result (λ w. w.mode ≡ Build) }
{
    let empty = Arena::new(alloc)?;
    Ok(Writer {
        arena: mem::replace(arena, empty),
        left: LARGEST_FORMULA,
        mode: Mode::Build,
    })
}

/// Puts the arena back that was written into, if it has room for a normal form. An arena without
/// that room counts as memory that is not there.
pub(crate) fn put_back(
    arena: &mut Arena,
    w: Writer,
    made: Result<u32, MakeErr>,
) -> Result<u32, MakeErr>
    ensures made { IfOk result (λ id. made ≡ Ok id) }
    ensures full { result ≡ Err Full → made ≡ Err Full }
    ensures arena { IfOk result (λ id. arena.new ≡ w.arena) }
    ensures room { IfOk result (λ id. 3 * length arena.new ≤ MOST_ARENA_NODES) }
{
    *arena = w.arena;
    let Ok(id) = made else {
        return made;
    };
    if arena.len() > MOST_ARENA_NODES / 3 {
        return Err(MakeErr::OutOfMemory);
    }
    Ok(id)
}
