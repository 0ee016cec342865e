//! Facts by numbers of ground terms, and clauses on them.

ghost use Rattle.std.specs.Prelude.{◌≡◌, ◌++◌, ◌∷◌, [], map, OnOk, true, false};

use crate::PairNode;
use ground_instances::Value;
use std::alloc::{AllocError, Global};

/// What an assignment tells of ground terms.
#[derive(Clone, Copy, Debug, PartialEq, Eq, Hash)]
pub enum FactNode {
    /// The term of this number is there.
    There(u32),
    /// Two values are one element, one number or one text.
    Same(Value, Value),
    /// One number is below another.
    Below(Value, Value),
    /// A truth value is true.
    Raised(u32),
    /// A set relation holds of two terms.
    Related(PairNode),
    /// A sort is empty.
    Empty(u32),
}

/// A fact, or that it is none.
#[derive(Clone, Copy, Debug, PartialEq, Eq)]
pub struct FactLiteral {
    pub fact: FactNode,
    /// Whether it is the fact itself.
    pub plus: bool,
}

/// The literal that a fact is one.
pub(crate) fn so(fact: FactNode) -> FactLiteral
    ensures { result ≡ record { fact = fact; plus = true } }
{
    FactLiteral { fact, plus: true }
}

/// The literal that a fact is none.
pub(crate) fn not_so(fact: FactNode) -> FactLiteral
    ensures { result ≡ record { fact = fact; plus = false } }
{
    FactLiteral { fact, plus: false }
}

/// Puts a clause of these literals at the end of a list.
pub(crate) fn push_clause(
    alloc: Global,
    literals: &[FactLiteral],
    clauses: &mut Vec<Vec<FactLiteral>>,
) -> Result<(), AllocError>
    ensures { OnOk result (map (λ c. c.items) clauses.new.items
        ≡ map (λ c. c.items) clauses.old.items ++ literals.now ∷ []) }
{
    let clause = Vec::from_slice(alloc, literals)?;
    clauses.push(clause)?;
    Ok(())
}

/// Puts the clause that one literal follows from a fact at the end of a list.
pub(crate) fn push_implied(
    alloc: Global,
    premise: FactNode,
    conclusion: FactLiteral,
    clauses: &mut Vec<Vec<FactLiteral>>,
) -> Result<(), AllocError>
    ensures { OnOk result (map (λ c. c.items) clauses.new.items ≡ map (λ c. c.items)
        clauses.old.items ++ (record { fact = premise; plus = false } ∷ conclusion ∷ []) ∷ []) }
{
    push_clause(alloc, &[not_so(premise), conclusion], clauses)
}
