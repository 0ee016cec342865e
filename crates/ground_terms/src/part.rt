//! The parts of a formula.

ghost use Rattle.std.specs.Prelude.{IfOk};
ghost use Rattle.form_formula.specs.Nodes.{IsTerm};
ghost use Rattle.ground_terms.specs.Parts.{IsTermPart};

use form_formula::{Arena, Node};
use sqlite_items::Items;

/// The ground term of a variable that is not dependent.
#[derive(Clone, Copy, Debug)]
pub(crate) struct Name {
    /// The number of the variable's quantifier.
    pub(crate) number: u32,
    pub(crate) sort: u32,
}

/// The variable of an `exists`.
#[derive(Debug, Drop)]
pub struct Variable {
    /// The number of its quantifier, in reading order.
    pub number: u32,
    pub sort: u32,
    /// The sorts of the `forall`s above it, the outermost first.
    pub above: Items<u32>,
}

/// A quantifier, or a term of an atom by its number.
#[derive(Debug, Drop)]
pub(crate) enum Part {
    Existential(Variable),
    /// A `forall` of a sort.
    Universal(u32),
    /// A term whose innermost part is a variable that has a ground term.
    Named(u32, Name),
    /// A term whose innermost part is a dependent variable.
    Dependent(u32),
    /// A term without variables.
    Literal(u32),
}

/// A term of an atom, where the variables above have these ground terms.
pub(crate) fn part_of(arena: &Arena, names: &[Option<Name>], id: u32) -> Part
    requires { IsTerm arena.now id }
    ensures { IsTermPart arena.now names.now id result }
{
    let mut at = id;
    loop {
        match arena.node(at) {
            Node::App(_, t) => at = *t,
            Node::Bound(_, depth) => {
                return match names.get(*depth as usize).copied().flatten() {
                    Some(name) => Part::Named(id, name),
                    None => Part::Dependent(id),
                };
            }
            _ => return Part::Literal(id),
        }
    }
}
