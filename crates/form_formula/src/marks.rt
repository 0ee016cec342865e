//! Which normal forms of which formulas are wanted for that of one formula.

ghost use Rattle.std.specs.Prelude.{◌≡◌, ℕ, ◌+◌, ◌^◌, ◌≤◌, ◌<◌, true, length, IfOk, Some};
ghost use Rattle.std.specs.Prelude.{slice_get};
ghost use Rattle.form_formula.specs.Nodes.{IsBelow};
ghost use Rattle.form_formula.specs.Marks.{wanted_at, Covers, AreKept, PassesOn, ArePassedOn};

use crate::arena::Arena;
use crate::node::Node;
use std::alloc::{AllocError, Global};

/// Which normal forms of a formula are wanted: its own, that of its negation.
#[derive(Clone, Copy, Debug)]
pub(crate) struct Wanted {
    pub(crate) positive: bool,
    pub(crate) negative: bool,
}

/// What is wanted of each node up to a formula, for its normal form.
pub(crate) fn marks_for(alloc: Global, arena: &Arena, id: u32) -> Result<Vec<Wanted>, AllocError>
    requires { id < length arena.now }
    ensures length { IfOk result (λ marks. length marks.items ≡ id + 1) }
    ensures wanted { IfOk result (λ marks. (wanted_at marks.items id).positive ≡ true) }
    ensures passed_on { IfOk result (λ marks. ArePassedOn arena.now marks.items 0) }
{
    let none = Wanted {
        positive: false,
        negative: false,
    };
    let mut marks = vec![in alloc; none; id as usize + 1]?;
    marks[id as usize].positive = true;
    pass_on(arena, marks.as_mut_slice());
    Ok(marks)
}

/// Passes on what is wanted of the nodes to their parts, from the last node on.
fn pass_on(arena: &Arena, marks: &mut [Wanted])
    requires within { length marks.old ≤ length arena.now }
    requires small { length marks.old ≤ 2 ^ 32 }
    ensures kept { AreKept marks.old marks.new }
    ensures passed_on { ArePassedOn arena.now marks.new 0 }
{
    let mut left = marks.len();
    while left > 0 {
        left -= 1;
        let wanted = marks[left];
        mark_parts(marks, arena.node(left as u32), wanted);
    }
}

/// Passes on what is wanted of a node to its parts.
fn mark_parts(marks: &mut [Wanted], node: &Node, wanted: Wanted)
    requires { IsBelow (length marks.old) node.now }
    ensures kept { AreKept marks.old marks.new }
    ensures above { (k : ℕ) → IsBelow k node.now → wanted_at marks.new k ≡ wanted_at marks.old k }
    ensures passed_on { PassesOn marks.new node.now wanted }
{
    let opposite = Wanted {
        positive: wanted.negative,
        negative: wanted.positive,
    };
    match node {
        Node::Not(a) => mark(marks, *a, opposite),
        Node::And(a, b) | Node::Or(a, b) => {
            mark(marks, *a, wanted);
            mark(marks, *b, wanted);
        }
        Node::Exists(_, a) | Node::Forall(_, a) => mark(marks, *a, wanted),
        Node::Bound(..)
        | Node::Num(_)
        | Node::Str(_)
        | Node::App(..)
        | Node::Yes
        | Node::No
        | Node::Eq(..)
        | Node::Less(..)
        | Node::Has(..)
        | Node::Flag(..)
        | Node::Present(..) => {}
    }
}

/// Marks that this is wanted of a formula.
fn mark(marks: &mut [Wanted], id: u32, asked: Wanted)
    requires { id < length marks.old }
    ensures kept { AreKept marks.old marks.new }
    ensures others { (k : ℕ) → id < k → wanted_at marks.new k ≡ wanted_at marks.old k }
    ensures marked { Covers (wanted_at marks.new id) asked }
{
    let old = marks[id as usize];
    marks[id as usize] = Wanted {
        positive: old.positive || asked.positive,
        negative: old.negative || asked.negative,
    };
}
