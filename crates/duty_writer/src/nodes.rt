//! Terms and atoms as nodes.

ghost use Rattle.std.specs.Prelude.{◌≡◌, ◌<◌, length, fold, IfOk};
ghost use Rattle.form_formula.specs.Trees as tree;
ghost use Rattle.form_formula.specs.Nodes.{IsTerm, IsFormula, term_of, formula_of};
ghost use Rattle.duty_meaning.specs.Cases.{atom, constant};
ghost use Rattle.duty_writer.specs.Terms.{term_data};
ghost use Rattle.duty_writer.specs.Made.{IsPut, IsSet};
ghost use Rattle.form_formula.specs.declared.limits.TheConstants.{MOST_ARENA_NODES};

use crate::term::Term;
use form_formula::Arena;
use form_formula::limits::MOST_ARENA_NODES;
use std::alloc::AllocError;

/// That there is room for one more node.
pub(crate) fn room(arena: &Arena) -> Result<(), AllocError>
    ensures { IfOk result (λ _. length arena.now < MOST_ARENA_NODES) }
{
    if arena.len() < MOST_ARENA_NODES {
        Ok(())
    } else {
        Err(AllocError)
    }
}

/// The node of a number.
fn put_num(arena: &mut Arena, n: i64) -> Result<u32, AllocError>
    ensures { IfOk result (IsPut arena.old arena.new (tree.num n)) }
{
    room(arena)?;
    arena.mk_num(n)
}

/// The node of a term.
pub(crate) fn put(arena: &mut Arena, t: &Term<'_>) -> Result<u32, AllocError>
    ensures { IfOk result (IsPut arena.old arena.new (term_data t.now)) }
{
    match t {
        Term::Bound(sort, depth) => {
            room(arena)?;
            arena.mk_bound(*sort, *depth)
        }
        Term::Num(n) => put_num(arena, *n),
        Term::Str(text) => {
            room(arena)?;
            arena.mk_str(text)
        }
        Term::App(f, inner) => {
            let inner = put(arena, inner)?;
            room(arena)?;
            arena.mk_app(*f, inner)
        }
        Term::Chain(functions, inner) => {
            let inner = put(arena, inner)?;
            put_chain(arena, functions, inner)
        }
    }
}

/// The node of functions one after another at a term.
fn put_chain(arena: &mut Arena, functions: &[u32], t: u32) -> Result<u32, AllocError>
    requires { IsTerm arena.old t }
    ensures { IfOk result (IsPut arena.old arena.new
        (fold (λ u f. tree.app f u) (term_of arena.old t) functions.now)) }
{
    let mut at = t;
    for f in functions {
        room(arena)?;
        at = arena.mk_app(*f, at)?;
    }
    Ok(at)
}

/// The node of a formula, or of its negation.
fn signed(arena: &mut Arena, sign: bool, id: u32) -> Result<u32, AllocError>
    requires { IsFormula arena.old id }
    ensures { IfOk result (IsSet arena.old arena.new (atom sign (formula_of arena.old id))) }
{
    if sign {
        return Ok(id);
    }
    room(arena)?;
    arena.mk_not(id)
}

/// The node of an equality, or of its negation.
pub(crate) fn put_equal(
    arena: &mut Arena,
    sign: bool,
    t: &Term<'_>,
    u: &Term<'_>,
) -> Result<u32, AllocError>
    ensures { IfOk result (IsSet arena.old arena.new
        (atom sign (tree.equal (term_data t.now) (term_data u.now)))) }
{
    let t = put(arena, t)?;
    let u = put(arena, u)?;
    room(arena)?;
    let id = arena.mk_eq(t, u)?;
    signed(arena, sign, id)
}

/// The node of an inequality, or of its negation.
pub(crate) fn put_less(
    arena: &mut Arena,
    sign: bool,
    t: &Term<'_>,
    u: &Term<'_>,
) -> Result<u32, AllocError>
    ensures { IfOk result (IsSet arena.old arena.new
        (atom sign (tree.less (term_data t.now) (term_data u.now)))) }
{
    let t = put(arena, t)?;
    let u = put(arena, u)?;
    room(arena)?;
    let id = arena.mk_less(t, u)?;
    signed(arena, sign, id)
}

/// The node of that a set relation holds, or of its negation.
pub(crate) fn put_has(
    arena: &mut Arena,
    sign: bool,
    relation: u32,
    t: &Term<'_>,
    u: &Term<'_>,
) -> Result<u32, AllocError>
    ensures { IfOk result (IsSet arena.old arena.new
        (atom sign (tree.has relation (term_data t.now) (term_data u.now)))) }
{
    let t = put(arena, t)?;
    let u = put(arena, u)?;
    room(arena)?;
    let id = arena.mk_has(relation, t, u)?;
    signed(arena, sign, id)
}

/// The node of that a function to truth values gives true, or of its negation.
pub(crate) fn put_flag(
    arena: &mut Arena,
    sign: bool,
    f: u32,
    t: &Term<'_>,
) -> Result<u32, AllocError>
    ensures { IfOk result (IsSet arena.old arena.new
        (atom sign (tree.flag f (term_data t.now)))) }
{
    let t = put(arena, t)?;
    room(arena)?;
    let id = arena.mk_flag(f, t)?;
    signed(arena, sign, id)
}

/// The node of that a function has a value, or of its negation.
pub(crate) fn put_present(
    arena: &mut Arena,
    sign: bool,
    f: u32,
    t: &Term<'_>,
) -> Result<u32, AllocError>
    ensures { IfOk result (IsSet arena.old arena.new
        (atom sign (tree.present f (term_data t.now)))) }
{
    let t = put(arena, t)?;
    room(arena)?;
    let id = arena.mk_some(f, t)?;
    signed(arena, sign, id)
}

/// The node of what is always true, or never.
pub(crate) fn put_constant(arena: &mut Arena, sign: bool) -> Result<u32, AllocError>
    ensures { IfOk result (IsSet arena.old arena.new (constant sign)) }
{
    room(arena)?;
    if sign { arena.mk_yes() } else { arena.mk_no() }
}

/// The node of a conjunction.
pub(crate) fn put_both(arena: &mut Arena, a: u32, b: u32) -> Result<u32, AllocError>
    requires left { IsFormula arena.old a }
    requires right { IsFormula arena.old b }
    ensures { IfOk result (IsSet arena.old arena.new
        (tree.both (formula_of arena.old a) (formula_of arena.old b))) }
{
    room(arena)?;
    arena.mk_and(a, b)
}

/// The node of a disjunction.
pub(crate) fn put_either(arena: &mut Arena, a: u32, b: u32) -> Result<u32, AllocError>
    requires left { IsFormula arena.old a }
    requires right { IsFormula arena.old b }
    ensures { IfOk result (IsSet arena.old arena.new
        (tree.either (formula_of arena.old a) (formula_of arena.old b))) }
{
    room(arena)?;
    arena.mk_or(a, b)
}

/// The node of that a formula holds for some element.
pub(crate) fn put_exists(arena: &mut Arena, sort: u32, a: u32) -> Result<u32, AllocError>
    requires { IsFormula arena.old a }
    ensures { IfOk result (IsSet arena.old arena.new (tree.exists sort (formula_of arena.old a))) }
{
    room(arena)?;
    arena.mk_exists(sort, a)
}

/// The node of that a formula holds for each element.
pub(crate) fn put_forall(arena: &mut Arena, sort: u32, a: u32) -> Result<u32, AllocError>
    requires { IsFormula arena.old a }
    ensures { IfOk result (IsSet arena.old arena.new (tree.forall sort (formula_of arena.old a))) }
{
    room(arena)?;
    arena.mk_forall(sort, a)
}
