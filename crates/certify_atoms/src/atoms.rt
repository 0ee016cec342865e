//! Facts as equalities of terms and differences of numbers.

ghost use Rattle.std.specs.Prelude.{◌≡◌, ◌≤◌, ◌<◌, ◌++◌, ℕ, length, IfOk, IfSome};
ghost use Rattle.std.specs.Prelude.{pos, neg_ℤ, ◌+◌, ◌^◌, ◌-ℤ◌, ◌≤ℤ◌, IsTrue};
ghost use Rattle.solve_equality.specs.Equality.{takes_literal};
ghost use Rattle.solve_order.specs.Difference.{is_literal};
ghost use Rattle.solve_theory.specs.Pair.{takes_own};
ghost use Rattle.certify_clauses.specs.Listed.{AreTaken, is_taken};
ghost use Rattle.certify_atoms.specs.Atoms.{AreAtomsOf, IsAtomOf, IsBelowAtom, IsBelowOf};
ghost use Rattle.certify_atoms.specs.Atoms.{IsSameAtom, IsSameOf, IsSideWithin, difference};

use crate::sides::{Reader, Side, side_of};
use certify_clauses::Atom;
use ground_instances::Value;
use ground_problem::FactNode;
use solve_equality::EqualityLit;
use solve_order::Diff;
use solve_theory::PairLit;
use std::alloc::{AllocError, Global};

/// What a variable says, where it is true and where it is false, if anything.
type Both = Option<(Atom, Atom)>;

/// What an equality says: that of numbers says nothing.
fn same_atom(left: Side, right: Side) -> Both
    ensures of { IfSome result (IsSameOf left right) }
    ensures taken { (terms texts : ℕ) → IsSideWithin terms texts left →
        IsSideWithin terms texts right → IsTrue (is_taken (terms + texts) (terms + 1) result) }
{
    match (left, right) {
        (Side::Element(sort, a), Side::Element(other, b)) if sort == other => same(a, b),
        (Side::Text(a), Side::Text(b)) => same(a, b),
        (Side::Element(..) | Side::Text(_) | Side::Number(..), _) => None,
    }
}

/// What the equality of two terms says.
fn same(a: u32, b: u32) -> Both
    ensures is { IfSome result (λ both. (both.0 ≡ PairLit.Left (EqualityLit.Same a b))
        × (both.1 ≡ PairLit.Left (EqualityLit.Differ a b))) }
    ensures taken { (terms texts : ℕ) → a < terms + texts → b < terms + texts →
        IsTrue (is_taken (terms + texts) (terms + 1) result) }
{
    Some((
        PairLit::Left(EqualityLit::Same(a, b)),
        PairLit::Left(EqualityLit::Differ(a, b)),
    ))
}

/// What it says that one number is below another.
fn below_atom(left: Side, right: Side) -> Both
    ensures of { IfSome result (IsBelowOf left right) }
    ensures taken { (terms texts : ℕ) → IsSideWithin terms texts left →
        IsSideWithin terms texts right → IsTrue (is_taken (terms + texts) (terms + 1) result) }
{
    match (left, right) {
        (Side::Number(x, o), Side::Number(y, q)) => below(x, o, y, q),
        (Side::Element(..) | Side::Text(_) | Side::Number(..), _) => None,
    }
}

/// The difference of two numbers is at most so much.
fn most(x: u32, y: u32, c: i128) -> Atom
    requires low { neg_ℤ (pos (2 ^ 65)) ≤ℤ c }
    requires high { c ≤ℤ pos (2 ^ 65) }
    ensures is { result ≡ PairLit.Right (difference x y c) }
    ensures taken { (terms numbers : ℕ) → x < numbers → y < numbers →
        IsTrue (takes_own (takes_literal terms) (is_literal numbers) result) }
{
    PairLit::Right(Diff { x, y, c })
}

/// What it says that `x + o` is below `y + q`.
fn below(x: u32, o: i64, y: u32, q: i64) -> Both
    ensures is { IfSome result (λ both.
        (both.0 ≡ PairLit.Right (difference x y ((q -ℤ o) -ℤ pos 1)))
        × (both.1 ≡ PairLit.Right (difference y x (o -ℤ q)))) }
    ensures taken { (terms texts : ℕ) → x < terms + 1 → y < terms + 1 →
        IsTrue (is_taken (terms + texts) (terms + 1) result) }
{
    let o = i128::from(o);
    let q = i128::from(q);
    Some((most(x, y, q - o - 1), most(y, x, o - q)))
}

/// What an equality says.
fn atom_of_same(reader: Reader<'_>, v: Value, u: Value) -> Both
    ensures of { IfSome result (IsSameAtom reader.entry.signature.now reader.entry.arena.now
        reader.entry.terms.now reader.entry.words.now reader.entry.texts.now v u) }
    ensures taken { IsTrue (is_taken (length reader.entry.terms.now
        + length reader.entry.texts.now) (length reader.entry.terms.now + 1) result) }
{
    let left = side_of(reader, v)?;
    let right = side_of(reader, u)?;
    same_atom(left, right)
}

/// What a comparison says.
fn atom_of_below(reader: Reader<'_>, v: Value, u: Value) -> Both
    ensures of { IfSome result (IsBelowAtom reader.entry.signature.now reader.entry.arena.now
        reader.entry.terms.now reader.entry.words.now reader.entry.texts.now v u) }
    ensures taken { IsTrue (is_taken (length reader.entry.terms.now
        + length reader.entry.texts.now) (length reader.entry.terms.now + 1) result) }
{
    let left = side_of(reader, v)?;
    let right = side_of(reader, u)?;
    below_atom(left, right)
}

/// What a fact says, where it is one and where it is none, if anything.
fn atom_of(reader: Reader<'_>, fact: FactNode) -> Both
    ensures of { IfSome result (IsAtomOf reader.entry.signature.now reader.entry.arena.now
        reader.entry.terms.now reader.entry.words.now reader.entry.texts.now fact) }
    ensures taken { IsTrue (is_taken (length reader.entry.terms.now
        + length reader.entry.texts.now) (length reader.entry.terms.now + 1) result) }
{
    match fact {
        FactNode::Same(v, u) => atom_of_same(reader, v, u),
        FactNode::Below(v, u) => atom_of_below(reader, v, u),
        FactNode::There(_) | FactNode::Raised(_) | FactNode::Related(_) | FactNode::Empty(_) => {
            None
        }
    }
}

/// What facts say, one by one, where each is one and where it is none: the equality of two elements
/// or of two texts, or that one number is below another. Other facts say nothing.
pub fn atoms_of(
    alloc: Global,
    reader: Reader<'_>,
    facts: &[FactNode],
) -> Result<Vec<Option<(Atom, Atom)>>, AllocError>
    ensures are { IfOk result (λ atoms. AreAtomsOf reader.entry.signature.now
        reader.entry.arena.now reader.entry.terms.now reader.entry.words.now
        reader.entry.texts.now facts.now atoms.items) }
    ensures taken { IfOk result (λ atoms. AreTaken (length reader.entry.terms.now
        + length reader.entry.texts.now) (length reader.entry.terms.now + 1) atoms.items) }
{
    let mut atoms = Vec::with_capacity(alloc, facts.len())?;
    for fact in facts {
        let atom = atom_of(reader, *fact);
        atoms.push(atom)?;
    }
    Ok(atoms)
}
