//! How a theory is asked.
ghost use Rattle.std.specs.Prelude.{◌≡◌, ◌+◌, ◌<◌, ◌≤◌, [], length, IsTrue, All};
ghost use Rattle.solve_theory.specs.Models.{HasModel};

use solve_theory::{LitBuf, Theory};

/// Asserts the literals in turn, and at the end takes all back. Wherever there is no model it asks
/// for the conflict and takes half of what is asserted back.
///
/// Returns how many conflicts there were.
pub fn drive<T: Theory>(theory: &mut T, literals: &[T::Lit], core: &mut LitBuf<u32>) -> usize
    requires empty { T.literals theory.old ≡ [] }
    requires taken { All (λ l. IsTrue (T.takes theory.old l)) literals.now }
    requires room { length literals.now ≤ T.capacity theory.old }
    requires core_room { length literals.now ≤ core.old.capacity }
    ensures list { T.literals theory.new ≡ [] }
    ensures capacity { T.capacity theory.new ≡ T.capacity theory.old }
    ensures takes { T.takes theory.new ≡ T.takes theory.old }
    ensures models { T.models theory.new ≡ T.models theory.old }
    ensures conflicts { result ≤ length literals.now }
    ensures core { core.new.capacity ≡ core.old.capacity }
{
    let mut conflicts = 0;
    for literal in literals {
        if !assert_or_step_back(theory, *literal, core) {
            conflicts += 1;
        }
    }
    let left = theory.asserted();
    theory.undo(left);
    conflicts
}

/// Asserts a literal. Where there is then no model it asks for the conflict and takes half of what
/// is asserted back.
///
/// Returns whether there was a model.
fn assert_or_step_back<T: Theory>(theory: &mut T, literal: T::Lit, core: &mut LitBuf<u32>) -> bool
    requires has_model { HasModel (T.models theory.old) T.meets (T.literals theory.old) }
    requires taken { IsTrue (T.takes theory.old literal) }
    requires room { length (T.literals theory.old) < T.capacity theory.old }
    requires core_room { length (T.literals theory.old) < core.old.capacity }
    ensures has_model { HasModel (T.models theory.new) T.meets (T.literals theory.new) }
    ensures list { length (T.literals theory.new) ≤ length (T.literals theory.old) + 1 }
    ensures capacity { T.capacity theory.new ≡ T.capacity theory.old }
    ensures takes { T.takes theory.new ≡ T.takes theory.old }
    ensures models { T.models theory.new ≡ T.models theory.old }
    ensures core { core.new.capacity ≡ core.old.capacity }
{
    if theory.assert(literal) {
        return true;
    }
    theory.conflict(core);
    let asserted = theory.asserted();
    theory.undo(asserted - asserted / 2);
    false
}
