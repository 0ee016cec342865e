//! Facts as equalities of terms and differences of numbers.

ghost use Rattle.std.specs.Prelude.{◌≡◌, ◌≤◌, ◌<◌, ◌++◌, ℕ, None, length, replicate, IfOk, IfSome, OnOk};
ghost use Rattle.std.specs.Prelude.{pos, neg_ℤ, ◌+◌, ◌^◌, ◌-ℤ◌, ◌≤ℤ◌, IsTrue};
ghost use Rattle.solve_equality.specs.Equality.{takes_literal};
ghost use Rattle.solve_order.specs.Difference.{is_literal};
ghost use Rattle.solve_theory.specs.Pair.{takes_own};
ghost use Rattle.decide_search.specs.Encoding.{AddsAtoms, AreAtomsFor, IsAtomOf, IsBelowAtom, IsBelowOf};
ghost use Rattle.decide_search.specs.Encoding.{IsSameAtom, IsSameOf, difference};
ghost use Rattle.decide_search.specs.Sides.{AreTakenBy, IsSideWithin, IsTakenBy};

use crate::sides::{Reader, Side, side_of};
use ground_instances::Value;
use ground_problem::FactNode;
use solve_equality::EqualityLit;
use solve_order::Diff;
use solve_solver::Atoms;
use solve_theory::PairLit;
use std::alloc::{AllocError, Global};

/// A literal of equality or of differences.
pub(crate) type Lit = PairLit<EqualityLit, Diff>;

/// The literals of a variable, where it is true and where it is false.
pub(crate) type Atom = Option<(Lit, Lit)>;

/// The literals of an equality, if it has some: that of numbers has none.
fn same_atom(left: Side, right: Side) -> Result<Atom, AllocError>
    ensures of { IfOk result (λ atom. IfSome atom (IsSameOf left right)) }
    ensures taken { IfOk result (λ atom. (terms texts : ℕ) → IsSideWithin terms texts left →
        IsSideWithin terms texts right → IsTakenBy terms texts atom) }
{
    match (left, right) {
        (Side::Element(sort, a), Side::Element(other, b)) if sort == other => Ok(same(a, b)),
        (Side::Text(a), Side::Text(b)) => Ok(same(a, b)),
        (Side::Number(..), Side::Number(..)) => Ok(None),
        (Side::Element(..) | Side::Text(_) | Side::Number(..), _) => Err(AllocError),
    }
}

/// The literals of the equality of two terms.
fn same(a: u32, b: u32) -> Atom
    ensures is { IfSome result (λ pair. (pair.0 ≡ PairLit.Left (EqualityLit.Same a b))
        × (pair.1 ≡ PairLit.Left (EqualityLit.Differ a b))) }
    ensures taken { (terms texts : ℕ) → a < terms + texts → b < terms + texts →
        IsTakenBy terms texts result }
{
    Some((
        PairLit::Left(EqualityLit::Same(a, b)),
        PairLit::Left(EqualityLit::Differ(a, b)),
    ))
}

/// The literals that one number is below another.
fn below_atom(left: Side, right: Side) -> Result<Atom, AllocError>
    ensures of { IfOk result (λ atom. IfSome atom (IsBelowOf left right)) }
    ensures taken { IfOk result (λ atom. (terms texts : ℕ) → IsSideWithin terms texts left →
        IsSideWithin terms texts right → IsTakenBy terms texts atom) }
{
    match (left, right) {
        (Side::Number(x, o), Side::Number(y, q)) => Ok(below(x, o, y, q)),
        (Side::Element(..) | Side::Text(_) | Side::Number(..), _) => Err(AllocError),
    }
}

/// The literal that the difference of two numbers is at most so much.
fn most(x: u32, y: u32, c: i128) -> Lit
    requires low { neg_ℤ (pos (2 ^ 65)) ≤ℤ c }
    requires high { c ≤ℤ pos (2 ^ 65) }
    ensures is { result ≡ PairLit.Right (difference x y c) }
    ensures taken { (terms numbers : ℕ) → x < numbers → y < numbers →
        IsTrue (takes_own (takes_literal terms) (is_literal numbers) result) }
{
    PairLit::Right(Diff { x, y, c })
}

/// The literals that `x + o` is below `y + q`.
fn below(x: u32, o: i64, y: u32, q: i64) -> Atom
    ensures is { IfSome result (λ pair.
        (pair.0 ≡ PairLit.Right (difference x y ((q -ℤ o) -ℤ pos 1)))
        × (pair.1 ≡ PairLit.Right (difference y x (o -ℤ q)))) }
    ensures taken { (terms texts : ℕ) → x < terms + 1 → y < terms + 1 →
        IsTakenBy terms texts result }
{
    let o = i128::from(o);
    let q = i128::from(q);
    Some((most(x, y, q - o - 1), most(y, x, o - q)))
}

/// The literals of an equality, if it has some.
fn atom_of_same(reader: Reader<'_>, v: Value, u: Value) -> Result<Atom, AllocError>
    ensures of { IfOk result (λ atom. IfSome atom (IsSameAtom reader.entry.signature.now
        reader.entry.arena.now reader.entry.terms.now reader.entry.words.now
        reader.entry.texts.now v u)) }
    ensures taken { IfOk result (IsTakenBy (length reader.entry.terms.now)
        (length reader.entry.texts.now)) }
{
    let left = side_of(reader, v)?;
    let right = side_of(reader, u)?;
    same_atom(left, right)
}

/// The literals of a comparison, if it has some.
fn atom_of_below(reader: Reader<'_>, v: Value, u: Value) -> Result<Atom, AllocError>
    ensures of { IfOk result (λ atom. IfSome atom (IsBelowAtom reader.entry.signature.now
        reader.entry.arena.now reader.entry.terms.now reader.entry.words.now
        reader.entry.texts.now v u)) }
    ensures taken { IfOk result (IsTakenBy (length reader.entry.terms.now)
        (length reader.entry.texts.now)) }
{
    let left = side_of(reader, v)?;
    let right = side_of(reader, u)?;
    below_atom(left, right)
}

/// The literals of a fact, if it has some.
fn atom_of(reader: Reader<'_>, fact: FactNode) -> Result<Atom, AllocError>
    ensures of { IfOk result (λ atom. IfSome atom (IsAtomOf reader.entry.signature.now
        reader.entry.arena.now reader.entry.terms.now reader.entry.words.now
        reader.entry.texts.now fact)) }
    ensures taken { IfOk result (IsTakenBy (length reader.entry.terms.now)
        (length reader.entry.texts.now)) }
{
    match fact {
        FactNode::Same(v, u) => atom_of_same(reader, v, u),
        FactNode::Below(v, u) => atom_of_below(reader, v, u),
        FactNode::There(_) | FactNode::Raised(_) | FactNode::Related(_) | FactNode::Empty(_) => {
            Ok(None)
        }
    }
}

/// Puts the literals of facts at the end.
pub(crate) fn push_atoms(
    reader: Reader<'_>,
    facts: &[FactNode],
    atoms: &mut Atoms<Lit>,
) -> Result<(), AllocError>
    ensures adds { OnOk result (AddsAtoms reader.entry.signature.now reader.entry.arena.now
        reader.entry.terms.now reader.entry.words.now reader.entry.texts.now facts.now
        atoms.old atoms.new) }
    ensures taken { OnOk result (AreTakenBy (length reader.entry.terms.now)
        (length reader.entry.texts.now) atoms.old → AreTakenBy (length reader.entry.terms.now)
        (length reader.entry.texts.now) atoms.new) }
{
    for fact in facts {
        let atom = atom_of(reader, *fact)?;
        atoms.push(atom)?;
    }
    Ok(())
}

/// Puts so many variables without literals at the end.
pub(crate) fn push_plain(count: u32, atoms: &mut Atoms<Lit>) -> Result<(), AllocError>
    ensures adds { OnOk result (atoms.new ≡ atoms.old ++ replicate count None) }
    ensures taken { OnOk result ((terms texts : ℕ) → AreTakenBy terms texts atoms.old →
        AreTakenBy terms texts atoms.new) }
{
    for _done in 0..count {
        atoms.push(None)?;
    }
    Ok(())
}

/// The literals of all variables: first come those of facts, then others without, and then those of
/// halves.
pub(crate) fn atoms_for(
    alloc: Global,
    reader: Reader<'_>,
    vars: u32,
    facts: &[FactNode],
    halves: &[FactNode],
) -> Result<Atoms<Lit>, AllocError>
    requires { length facts.now ≤ vars }
    ensures are { IfOk result (λ atoms. AreAtomsFor reader.entry.signature.now
        reader.entry.arena.now reader.entry.terms.now reader.entry.words.now
        reader.entry.texts.now vars facts.now halves.now atoms) }
    ensures taken { IfOk result (AreTakenBy (length reader.entry.terms.now)
        (length reader.entry.texts.now)) }
{
    let gap = vars - facts.len() as u32;
    let mut atoms = Atoms::new(alloc);
    push_atoms(reader, facts, &mut atoms)?;
    push_plain(gap, &mut atoms)?;
    push_atoms(reader, halves, &mut atoms)?;
    Ok(atoms)
}
