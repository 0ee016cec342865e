//! The search as a whole.

ghost use Rattle.std.specs.Prelude.{[]};
ghost use Rattle.certify_clauses.specs.InMemory.{problem_in};
ghost use Rattle.certify_recheck.specs.Walking.{IsReady};

use crate::nodes::Nodes;
use crate::search::{Search, Why};
use crate::trail::Trail;
use certify_clauses::{Atom, ListedClauses};
use certify_recheck::{Told, procedures};
use solve_theory::Theory;
use sqlite_items::Items;
use std::alloc::{AllocError, Global};

/// A search that has made so many parts of trees gives up: its tree would be too long for a
/// certificate that can be read.
const MOST_NODES: usize = 16_000_000;

/// What a step of the search came to.
enum Came {
    /// It goes on.
    On,
    /// There is a tree, with this part at its root.
    Found(u32),
    /// All variables have values, and nothing is wrong.
    Open,
}

impl<'a, T: Theory<Lit = Atom, Model = (Items<u32>, Items<i64>)>> Search<'a, T> {
    /// Decides a variable, if there is one.
    fn decide(&mut self) -> Result<bool, AllocError> {
        match self.order.next(self.trail.path()) {
            None => Ok(false),
            Some(literal) => {
                self.level = self.level.saturating_add(1);
                self.set(literal, Why::Decided)?;
                Ok(true)
            }
        }
    }

    /// What is wrong with what holds and what follows from it, and what is learned from that; or a
    /// decision.
    fn step(&mut self) -> Result<Came, AllocError> {
        let learned = match self.propagate()? {
            Some(number) => self.learn_clause(number)?,
            None => match self.trail.clash(self.alloc)? {
                Some(clash) => self.learn_clash(clash.as_slice())?,
                None => {
                    return if self.decide()? {
                        Ok(Came::On)
                    } else {
                        Ok(Came::Open)
                    };
                }
            },
        };
        match learned {
            None => Ok(Came::On),
            Some(root) => Ok(Came::Found(root)),
        }
    }

    /// The part at the root of a tree, if one is found.
    fn run(&mut self) -> Result<Option<u32>, AllocError> {
        if let Some(number) = self.begin()? {
            return self.learn_clause(number);
        }
        for _ in 0..u64::MAX {
            if self.nodes.len() > MOST_NODES {
                return Ok(None);
            }
            match self.step()? {
                Came::On => {}
                Came::Found(root) => return Ok(Some(root)),
                Came::Open => return Ok(None),
            }
        }
        Ok(None)
    }
}

/// Searches with procedures to which nothing was told.
fn search_with<T: Theory<Lit = Atom, Model = (Items<u32>, Items<i64>)> + Drop>(
    alloc: Global,
    c: &ListedClauses,
    told: Told<T>,
) -> Result<(Nodes, Option<u32>), AllocError>
    requires { IsReady (problem_in c.now) [] told.count (T.literals told.theory)
        (T.capacity told.theory) (T.takes told.theory) (T.models told.theory) T.meets }
{
    let trail = Trail::new(alloc, c, told)?;
    let mut search = Search::new(alloc, c, trail)?;
    let root = search.run()?;
    let Search { nodes, .. } = search;
    Ok((nodes, root))
}

/// The parts of a tree that shows that no assignment is lawful, and the part at its root; none where
/// the search gave up.
pub(crate) fn search_tree(
    alloc: Global,
    c: &ListedClauses,
) -> Result<(Nodes, Option<u32>), AllocError> {
    let told = procedures(alloc, c)?;
    search_with(alloc, c, told)
}
