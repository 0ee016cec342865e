//! Why what holds has no model.

ghost use Rattle.std.specs.Prelude.{◌≡◌, ◌<◌, ◌≤◌, length};
ghost use Rattle.solve_theory.specs.Models.{HasModel};
ghost use Rattle.certify_clauses.specs.InMemory.{problem_in};
ghost use Rattle.certify_recheck.specs.Walking.{IsReady, TakesAll};

use certify_clauses::{Atom, Clauses, ListedClauses, Literal};
use certify_recheck::Told;
use solve_theory::{LitBuf, Theory};
use sqlite_items::Items;

/// Puts the positions of literals that have no model together into `core`, where this one has none
/// with those that are asserted.
fn blame_literal<T: Theory<Lit = Atom>>(
    c: &ListedClauses,
    literal: Literal,
    theory: &mut T,
    core: &mut LitBuf<u32>,
)
    requires has_model { HasModel (T.models theory.old) T.meets (T.literals theory.old) }
    requires room { length (T.literals theory.old) < T.capacity theory.old }
    requires takes { TakesAll (problem_in c.now) (T.takes theory.old) }
    requires roomy { length (T.literals theory.old) < core.old.capacity }
    ensures list { T.literals theory.new ≡ T.literals theory.old }
    ensures capacity { T.capacity theory.new ≡ T.capacity theory.old }
    ensures takes { T.takes theory.new ≡ T.takes theory.old }
    ensures models { T.models theory.new ≡ T.models theory.old }
    ensures roomy { core.new.capacity ≡ core.old.capacity }
{
    let Some(said) = c.said_by(literal) else {
        return;
    };
    if !theory.assert(said) {
        theory.conflict(core);
    }
    theory.undo(1);
}

/// Puts the positions of literals that have no model together into `core`, where the literal of the
/// path that is told next has none with those before it.
pub(crate) fn blame<T: Theory<Lit = Atom, Model = (Items<u32>, Items<i64>)>>(
    c: &ListedClauses,
    path: &[Literal],
    told: &mut Told<T>,
    core: &mut LitBuf<u32>,
)
    requires few { length path.now ≤ length c.now.atoms.items }
    requires room { length c.now.atoms.items ≤ core.old.capacity }
    requires ready { IsReady (problem_in c.now) path.now told.old.count
        (T.literals told.old.theory) (T.capacity told.old.theory) (T.takes told.old.theory)
        (T.models told.old.theory) T.meets }
    ensures ready { IsReady (problem_in c.now) path.now told.new.count
        (T.literals told.new.theory) (T.capacity told.new.theory) (T.takes told.new.theory)
        (T.models told.new.theory) T.meets }
    ensures room { core.new.capacity ≡ core.old.capacity }
{
    core.clear();
    if told.count < path.len() {
        blame_literal(c, path[told.count], &mut told.theory, core);
    }
}
