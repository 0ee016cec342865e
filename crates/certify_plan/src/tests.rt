//! What no clause shows: that a tree is found, and is short.

ghost use Rattle.std.specs.Prelude.{◌≤◌};

use crate::nodes::{Node, Nodes};
use crate::running::search_tree;
use certify_clauses::{ListedClauses, Literal};
use std::alloc::{AllocError, Global};
use std::test::Fail;

/// A clause on so many variables from the first on, with the signs that the bits of a number say.
fn clause(alloc: Global, first: u8, count: u8, signs: u8) -> Result<Vec<Literal>, AllocError>
    requires { count ≤ 8 }
{
    let mut literals = Vec::new(alloc);
    for place in 0..count {
        literals.push(Literal {
            var: first as u32 + place as u32,
            plus: (signs >> place) % 2 == 1,
        })?;
    }
    Ok(literals)
}

/// Of twenty pairs of variables one is true, and there is each clause of three literals over three
/// variables behind them.
fn clauses(alloc: Global) -> Result<ListedClauses, AllocError> {
    let mut clauses = Vec::new(alloc);
    for pair in 0_u8..20 {
        clauses.push(clause(alloc, 2 * pair, 2, 3)?)?;
    }
    for signs in 0_u8..8 {
        clauses.push(clause(alloc, 40, 3, signs)?)?;
    }
    let atoms = vec![in alloc; None; 43]?;
    Ok(ListedClauses {
        clauses,
        atoms,
        terms: 0,
        fixed: Vec::new(alloc),
        numbers: 1,
    })
}

/// How many lines the tree with a root has. The parts of a tree stand before it.
fn lines_of(alloc: Global, nodes: &Nodes, root: u32) -> Result<u64, AllocError> {
    let mut lines: Vec<u64> = Vec::new(alloc);
    for number in 0..root.saturating_add(1) {
        let at = |part: u32| lines.get(part as usize).copied().unwrap_or(0);
        let count = match nodes.at(number) {
            None => 0,
            Some(Node::Clause(_) | Node::Theory) => 1,
            Some(Node::Split { so, not_so, .. }) => {
                at(so).saturating_add(at(not_so)).saturating_add(1)
            }
        };
        lines.push(count)?;
    }
    Ok(lines.get(root as usize).copied().unwrap_or(0))
}

/// The pairs have no part in it: a tree over three variables has seven splits and eight clauses.
#[test]
fn what_has_no_part_falls_away(rt: HostRuntime) -> Result<(), Fail> {
    let alloc = rt.alloc();
    let (nodes, root) = search_tree(alloc, &clauses(alloc)?)?;
    let lines = match root {
        None => 0,
        Some(root) => lines_of(alloc, &nodes, root)?,
    };
    assert_eq!(rt; lines, 15);
    Ok(())
}
