//! Whether a formula is over a signature.

ghost use Rattle.std.specs.Prelude.{◌≡◌, ◌<◌, ◌++◌, ◌∷◌, [], true, IfOk, IfSome};
ghost use Rattle.form_formula.specs.Nodes.{IsFormula, IsTerm, formula_of, term_of};
ghost use Rattle.form_formula.specs.Over.{AreComparable, HasRange, IsFunction, IsOver};
ghost use Rattle.form_formula.specs.Trees.{equal, flag, has, less, present};
ghost use Rattle.form_formula.specs.declared.structure.FunSig.{FunSig as AnyFunction};

use form_formula::{Arena, Node, Range, Signature};
use std::alloc::{AllocError, Global};

/// A signature, an arena, and the sorts of the quantifiers above, the outermost first.
#[derive(Clone, Copy)]
pub(crate) struct Scope<'a> {
    pub(crate) signature: &'a Signature,
    pub(crate) arena: &'a Arena,
    pub(crate) sorts: &'a [u32],
}

/// Whether a number is that of a term.
pub(crate) fn is_term(arena: &Arena, id: u32) -> bool
    ensures { result ≡ true → IsTerm arena.now id }
{
    if id as usize >= arena.len() {
        return false;
    }
    matches!(
        arena.node(id),
        Node::Bound(..) | Node::Num(_) | Node::Str(_) | Node::App(..)
    )
}

/// Whether a number is that of a formula.
pub(crate) fn is_formula(arena: &Arena, id: u32) -> bool
    ensures { result ≡ true → IsFormula arena.now id }
{
    if id as usize >= arena.len() {
        return false;
    }
    !matches!(
        arena.node(id),
        Node::Bound(..) | Node::Num(_) | Node::Str(_) | Node::App(..)
    )
}

/// What a function gives at a term of a range.
fn applied(signature: &Signature, f: u32, to: Range) -> Option<Range>
    ensures { IfSome result (λ range. (sig : AnyFunction) × IsFunction signature.now f sig
        × (to ≡ Range.Rec sig.from) × (range ≡ sig.to)) }
{
    let sig = signature.funs.get(f as usize)?;
    match to {
        Range::Rec(sort) if sort == sig.from => Some(sig.to),
        Range::Rec(_) | Range::Flag | Range::Num | Range::Str => None,
    }
}

/// The range of a term that has at most so many parts.
fn range_of(scope: Scope<'_>, id: u32, parts: u32) -> Option<Range>
    requires { IsTerm scope.arena.now id }
    ensures { IfSome result (λ range. HasRange scope.entry.signature.now scope.entry.sorts.now
        (term_of scope.entry.arena.now id) range) }
{
    let rest = parts.checked_sub(1)?;
    match scope.arena.node(id) {
        Node::Bound(sort, depth) => {
            let own = scope.sorts.get(*depth as usize)?;
            if *own == *sort {
                return Some(Range::Rec(*sort));
            }
            None
        }
        Node::Num(_) => Some(Range::Num),
        Node::Str(_) => Some(Range::Str),
        Node::App(f, t) => {
            let to = range_of(scope, *t, rest)?;
            applied(scope.signature, *f, to)
        }
        _ => None,
    }
}

/// Whether two ranges are one, whose values can be compared.
fn are_comparable(left: Range, right: Range) -> bool
    ensures { result ≡ true → (left ≡ right) × AreComparable left }
{
    match (left, right) {
        (Range::Rec(sort), Range::Rec(other)) => sort == other,
        (Range::Num, Range::Num) | (Range::Str, Range::Str) => true,
        (Range::Rec(_) | Range::Flag | Range::Num | Range::Str, _) => false,
    }
}

/// Whether two terms can be compared.
fn is_equal_over(scope: Scope<'_>, s: u32, t: u32, parts: u32) -> bool
    requires left { IsTerm scope.arena.now s }
    requires right { IsTerm scope.arena.now t }
    ensures { result ≡ true → IsOver scope.entry.signature.now scope.entry.sorts.now (equal
        (term_of scope.entry.arena.now s) (term_of scope.entry.arena.now t)) }
{
    match (range_of(scope, s, parts), range_of(scope, t, parts)) {
        (Some(left), Some(right)) => are_comparable(left, right),
        (Some(_) | None, _) => false,
    }
}

/// Whether two terms are numbers.
fn is_less_over(scope: Scope<'_>, s: u32, t: u32, parts: u32) -> bool
    requires left { IsTerm scope.arena.now s }
    requires right { IsTerm scope.arena.now t }
    ensures { result ≡ true → IsOver scope.entry.signature.now scope.entry.sorts.now (less
        (term_of scope.entry.arena.now s) (term_of scope.entry.arena.now t)) }
{
    match (range_of(scope, s, parts), range_of(scope, t, parts)) {
        (Some(Range::Num), Some(Range::Num)) => true,
        (Some(_) | None, _) => false,
    }
}

/// Whether a set relation is one between the sorts of two terms.
fn is_has_over(scope: Scope<'_>, r: u32, s: u32, t: u32, parts: u32) -> bool
    requires left { IsTerm scope.arena.now s }
    requires right { IsTerm scope.arena.now t }
    ensures { result ≡ true → IsOver scope.entry.signature.now scope.entry.sorts.now (has r
        (term_of scope.entry.arena.now s) (term_of scope.entry.arena.now t)) }
{
    let Some(sig) = scope.signature.sets.get(r as usize) else {
        return false;
    };
    match (range_of(scope, s, parts), range_of(scope, t, parts)) {
        (Some(Range::Rec(from)), Some(Range::Rec(to))) => from == sig.from && to == sig.to,
        (Some(_) | None, _) => false,
    }
}

/// Whether a function to truth values can be applied to a term.
fn is_flag_over(scope: Scope<'_>, f: u32, t: u32, parts: u32) -> bool
    requires { IsTerm scope.arena.now t }
    ensures { result ≡ true → IsOver scope.entry.signature.now scope.entry.sorts.now (flag f
        (term_of scope.entry.arena.now t)) }
{
    let Some(to) = range_of(scope, t, parts) else {
        return false;
    };
    matches!(applied(scope.signature, f, to), Some(Range::Flag))
}

/// Whether a function can be applied to a term.
fn is_present_over(scope: Scope<'_>, f: u32, t: u32, parts: u32) -> bool
    requires { IsTerm scope.arena.now t }
    ensures { result ≡ true → IsOver scope.entry.signature.now scope.entry.sorts.now (present f
        (term_of scope.entry.arena.now t)) }
{
    let Some(to) = range_of(scope, t, parts) else {
        return false;
    };
    applied(scope.signature, f, to).is_some()
}

/// One more quantifier.
fn with_sort(alloc: Global, sorts: &[u32], sort: u32) -> Result<Vec<u32>, AllocError>
    ensures { IfOk result (λ inner. inner.items ≡ sorts.now ++ sort ∷ []) }
{
    let mut inner = Vec::from_slice(alloc, sorts)?;
    inner.push(sort)?;
    Ok(inner)
}

/// Whether a formula of at most so many parts below each other is over a signature.
pub(crate) fn is_over(
    alloc: Global,
    scope: Scope<'_>,
    id: u32,
    parts: u32,
) -> Result<bool, AllocError>
    requires { IsFormula scope.arena.now id }
    ensures { IfOk result (λ over. over ≡ true → IsOver scope.entry.signature.now
        scope.entry.sorts.now (formula_of scope.entry.arena.now id)) }
{
    let Some(rest) = parts.checked_sub(1) else {
        return Ok(false);
    };
    match scope.arena.node(id) {
        Node::Yes | Node::No => Ok(true),
        Node::Eq(s, t) => Ok(is_equal_over(scope, *s, *t, rest)),
        Node::Less(s, t) => Ok(is_less_over(scope, *s, *t, rest)),
        Node::Has(r, s, t) => Ok(is_has_over(scope, *r, *s, *t, rest)),
        Node::Flag(f, t) => Ok(is_flag_over(scope, *f, *t, rest)),
        Node::Present(f, t) => Ok(is_present_over(scope, *f, *t, rest)),
        Node::Not(a) => is_over(alloc, scope, *a, rest),
        Node::And(a, b) | Node::Or(a, b) => {
            // A part that stands twice is looked at once.
            let left = is_over(alloc, scope, *a, rest)?;
            if !left || *a == *b {
                return Ok(left);
            }
            is_over(alloc, scope, *b, rest)
        }
        Node::Exists(sort, a) | Node::Forall(sort, a) => {
            if *sort >= scope.signature.sorts {
                return Ok(false);
            }
            let inner = with_sort(alloc, scope.sorts, *sort)?;
            let below = Scope {
                sorts: inner.as_slice(),
                ..scope
            };
            is_over(alloc, below, *a, rest)
        }
        Node::Bound(..) | Node::Num(_) | Node::Str(_) | Node::App(..) => Ok(false),
    }
}
