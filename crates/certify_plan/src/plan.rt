//! A tree that was found, as the lines of a certificate.

ghost use Rattle.std.specs.Prelude.{◌≡◌, None, IfOk, IfSome};

use crate::nodes::{Node, Nodes};
use crate::running::search_tree;
use certify_clauses::{ListedClauses, Path};
use certify_recheck::Line;
use std::alloc::{AllocError, Global};
use std::marker::Model;

/// A tree of splits, of which some parts are due.
#[derive(Drop)]
pub struct Plan {
    nodes: Nodes,
    /// The parts that are due, the next one last.
    due: Vec<u32>,
}

// Clauses see how many parts are due.
impl Model for Plan {
    ghost use Rattle.std.specs.Prelude.{ℕ, length};

    ghost Value = { ℕ };

    ghost view = { λ p. length p.due.items };
}

impl Plan {
    ghost use Rattle.certify_plan.specs.Lines.{IsOfTree};

    /// The next line of the tree along a path, if there is one. A split that the path has taken
    /// already is none. Nothing is said of whether the line is lawful.
    pub fn next(&mut self, path: &Path) -> Result<Option<Line>, AllocError>
        ensures line { IfOk result (λ line. IfSome line (IsOfTree path.now.literals)) }
        ensures none { IfOk result (λ line. self.old ≡ 0 → line ≡ None) }
    {
        for _ in 0..self.nodes.len() {
            let Some(number) = self.due.pop() else {
                return Ok(None);
            };
            match self.nodes.at(number) {
                None => return Ok(None),
                Some(Node::Clause(number)) => return Ok(Some(Line::Clause(number))),
                Some(Node::Theory) => return Ok(Some(Line::Theory)),
                Some(Node::Split { var, so, not_so }) => match path.value_of(var) {
                    Some(true) => self.due.push(so)?,
                    Some(false) => self.due.push(not_so)?,
                    None => {
                        self.due.push(not_so)?;
                        self.due.push(so)?;
                        return Ok(Some(Line::Split(var)));
                    }
                },
            }
        }
        Ok(None)
    }

    /// Gives the tree up.
    pub fn give_up(&mut self)
        ensures { self.new ≡ 0 }
    {
        self.due.clear();
    }
}

/// A tree that shows that no assignment is lawful, or one of which nothing is due where the search
/// gave up. No contract says so: each of its lines is to be tried.
pub fn find_plan(alloc: Global, c: &ListedClauses) -> Result<Plan, AllocError> {
    let (nodes, root) = search_tree(alloc, c)?;
    let mut due = Vec::new(alloc);
    if let Some(root) = root {
        due.push(root)?;
    }
    Ok(Plan { nodes, due })
}
