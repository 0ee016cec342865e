//! One literal more: the values repaired, or a conflict.
ghost use Rattle.std.specs.Prelude.{◌≡◌, ◌<◌, ◌∷◌, [], ◌++◌, length, pos, ◌<ℤ◌, IsTrue, replicate};
ghost use Rattle.std.specs.Bool.{OnTrue, OnFalse};
ghost use Rattle.solve_order.specs.Conflict.{IsConflict};
ghost use Rattle.solve_order.specs.Difference.{is_literal};
ghost use Rattle.solve_order.specs.Reach.{unreached};
ghost use Rattle.solve_order.specs.Potential.{IsPotential};

use crate::diff::Diff;
use crate::edges::Edges;
use crate::frontier::Frontier;
use crate::search::{Search, excess};
use solve_theory::LitBuf;

/// The goal alone has no model, if both its variables are the same.
fn refute_alone(edges: &Edges, goal: Diff, core: &mut LitBuf<u32>)
    requires same { goal.x ≡ goal.y }
    requires negative { goal.c <ℤ pos 0 }
    requires room { length edges.now.literals < core.old.capacity }
    ensures conflict { let all = edges.now.literals ++ goal ∷ [] in
        IsConflict all edges.now.variables core.new.items }
    ensures capacity { core.new.capacity ≡ core.old.capacity }
{
    core.clear();
    core.push(edges.len() as u32);
}

/// Makes the values a potential that meets the goal too, and says whether there is one. Where there
/// is none, `core` gets the positions of literals that are why; the goal counts as the literal
/// behind all others.
pub fn repair(
    edges: &Edges,
    values: &mut Vec<i64>,
    frontier: &mut Frontier,
    core: &mut LitBuf<u32>,
    goal: Diff,
) -> bool
    requires some { 0 < edges.now.variables }
    requires potential { IsPotential edges.now values.old.items }
    requires fits { IsTrue (is_literal edges.now.variables goal) }
    requires fresh { frontier.old ≡ replicate edges.now.variables unreached }
    requires room { length edges.now.literals < core.old.capacity }
    ensures potential { let all = edges.now.literals ++ goal ∷ [] in
        OnTrue result (IsPotential (record edges.now { literals = all }) values.new.items) }
    ensures stays { OnFalse result (values.new.items ≡ values.old.items) }
    ensures conflict { let all = edges.now.literals ++ goal ∷ [] in
        OnFalse result (IsConflict all edges.now.variables core.new.items) }
    ensures fresh { frontier.new ≡ frontier.old }
    ensures capacity { core.new.capacity ≡ core.old.capacity }
{
    if excess(values, goal) <= 0 {
        return true;
    }
    if goal.x == goal.y {
        refute_alone(edges, goal, core);
        return false;
    }
    let search = Search {
        edges,
        values: values.as_slice(),
        goal,
    };
    if let Some(closing) = search.run(frontier) {
        search.explain(frontier, closing, core);
        frontier.clear();
        return false;
    }
    frontier.apply(values);
    frontier.clear();
    true
}
