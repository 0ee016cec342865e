//! How a literal of the trail is asserted at the theory.

ghost use Rattle.std.specs.Prelude.{◌≡◌, ◌<◌, ◌↔◌, ◌++◌, length, IsTrue, IfSome, if◌then◌else◌};
ghost use Rattle.std.specs.Bool.{OnFalse};
ghost use Rattle.std.specs.Option.{option_to_list};
ghost use Rattle.solve_theory.specs.Models.{HasModel, IsCore};
ghost use Rattle.solve_solver.specs.Trail.{literal_of};

use crate::atoms::Atoms;
use crate::literal::PLit;
use solve_theory::{LitBuf, Theory};

/// The theory's literal for a literal, where its variable has an atom.
pub fn theory_literal<L: Copy>(atoms: &Atoms<L>, literal: PLit) -> Option<L>
    requires { literal.var < length atoms.now }
    ensures { result ≡ literal_of atoms.now literal }
{
    let (yes, no) = atoms.get(literal.var as usize)?;
    Some(if literal.plus { yes } else { no })
}

/// Asserts a literal, if there is one, unless the theory has no model then. In that case `core`
/// gets the positions of some literals that are why, in the list of those that the theory has
/// followed by this one.
pub fn try_assert<T: Theory>(
    theory: &mut T,
    literal: Option<T::Lit>,
    core: &mut LitBuf<u32>,
) -> bool
    requires has_model { HasModel (T.models theory.old) T.meets (T.literals theory.old) }
    requires room { length (T.literals theory.old) < T.capacity theory.old }
    requires core_room { length (T.literals theory.old) < core.old.capacity }
    requires taken { IfSome literal (λ l. IsTrue (T.takes theory.old l)) }
    ensures verdict { let all = T.literals theory.old ++ option_to_list literal in
        IsTrue result ↔ HasModel (T.models theory.old) T.meets all }
    ensures why { let all = T.literals theory.old ++ option_to_list literal in
        OnFalse result (IsCore (T.models theory.old) T.meets all core.new.items) }
    ensures list { T.literals theory.new
        ≡ (if result then T.literals theory.old
        ++ option_to_list literal else T.literals theory.old) }
    ensures capacity { T.capacity theory.new ≡ T.capacity theory.old }
    ensures takes { T.takes theory.new ≡ T.takes theory.old }
    ensures models { T.models theory.new ≡ T.models theory.old }
    ensures core_capacity { core.new.capacity ≡ core.old.capacity }
{
    let Some(literal) = literal else {
        return true;
    };
    if theory.assert(literal) {
        return true;
    }
    theory.conflict(core);
    theory.undo(1);
    false
}
