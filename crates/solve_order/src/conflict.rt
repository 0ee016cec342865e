//! The literals of the negative cycle that a search closes.
ghost use Rattle.std.specs.Prelude.{◌≡◌, ◌<◌, ◌∷◌, [], ◌++◌, length};
ghost use Rattle.solve_order.specs.Conflict.{IsConflict, with_edge};
ghost use Rattle.solve_order.specs.Search.{HasPotential, IsClosedIn};

use crate::frontier::Frontier;
use crate::search::{Closing, Search};
use solve_theory::LitBuf;

/// Notes the position of an edge, if it is a literal.
fn note(positions: &mut LitBuf<u32>, via: u32)
    requires { length positions.old.items < positions.old.capacity }
    ensures items { positions.new.items ≡ with_edge positions.old.items via }
    ensures capacity { positions.new.capacity ≡ positions.old.capacity }
{
    if via > 0 {
        positions.push(via - 1);
    }
}

impl Search<'_> {
    /// Puts the positions of the literals of a negative cycle into `positions`. The goal counts as
    /// the literal behind all others.
    pub fn explain(&self, frontier: &Frontier, closing: Closing, positions: &mut LitBuf<u32>)
        requires potential { HasPotential self.now }
        requires closed { IsClosedIn self.now frontier.now closing }
        requires room { length self.now.edges.now.literals < positions.old.capacity }
        ensures conflict { let all = self.now.edges.now.literals ++ self.now.goal ∷ [] in
            IsConflict all self.now.edges.now.variables positions.new.items }
        ensures capacity { positions.new.capacity ≡ positions.old.capacity }
    {
        positions.clear();
        note(positions, closing.via);
        let mut v = closing.from;
        while v != self.goal.x {
            let reach = frontier.at(v);
            note(positions, reach.via);
            v = reach.from;
        }
        positions.push(self.edges.len() as u32);
    }
}
