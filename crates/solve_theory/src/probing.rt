//! Asking a theory whether it could take some more literals.
ghost use Rattle.std.specs.Prelude.{◌≡◌, ◌+◌, ◌≤◌, ◌↔◌, ◌++◌, length, IsTrue, All};
ghost use Rattle.std.specs.Bool.{OnFalse, OnTrue};
ghost use Rattle.solve_theory.specs.Models.{HasModel, IsCore};

use crate::lit_buf::LitBuf;
use crate::theory::Theory;

/// Says whether `theory` could take all of `literals` on top of those that it has and still have a
/// model, and leaves its list as it was.
///
/// Where there would be none, `core` gets the positions of some literals that are why, in the list
/// of those that the theory has followed by `literals`. Else what `core` holds is as before.
pub fn probe<T: Theory>(theory: &mut T, literals: &[T::Lit], core: &mut LitBuf<u32>) -> bool
    requires has_model { HasModel (T.models theory.old) T.meets (T.literals theory.old) }
    requires taken { All (λ l. IsTrue (T.takes theory.old l)) literals.now }
    requires room { length (T.literals theory.old) + length literals.now ≤ T.capacity theory.old }
    requires core_room { length (T.literals theory.old) + length literals.now ≤ core.old.capacity }
    ensures verdict { let all = T.literals theory.old ++ literals.now in
        IsTrue result ↔ HasModel (T.models theory.old) T.meets all }
    ensures core { let all = T.literals theory.old ++ literals.now in
        OnFalse result (IsCore (T.models theory.old) T.meets all core.new.items) }
    ensures untouched { OnTrue result (core.new ≡ core.old) }
    ensures list { T.literals theory.new ≡ T.literals theory.old }
    ensures capacity { T.capacity theory.new ≡ T.capacity theory.old }
    ensures takes { T.takes theory.new ≡ T.takes theory.old }
    ensures models { T.models theory.new ≡ T.models theory.old }
    ensures core_capacity { core.new.capacity ≡ core.old.capacity }
{
    let before = theory.asserted();
    for literal in literals {
        if !theory.assert(*literal) {
            theory.conflict(core);
            let added = theory.asserted() - before;
            theory.undo(added);
            return false;
        }
    }
    theory.undo(literals.len());
    true
}
