//! Formulas and structures that look random.
//!
//! There are two sorts. Functions 0 and 1 go from sort 0 to sorts 1 and 0, function 2 to truth
//! values and function 3 to numbers; relation 0 goes from sort 0 to sort 1.

ghost use Rattle.std.specs.Prelude.{◌<◌, ◌≤◌, ◌+◌, length, IfOk};
ghost use Rattle.form_formula.specs.Nodes.{IsFormula, IsTerm};
ghost use Rattle.form_bench.specs.Kinds.{KeepsKinds};
ghost use Rattle.form_formula.specs.declared.limits.TheConstants.{MOST_ARENA_NODES};

use form_formula::{Arena, SVal, Structure};
use sqlite_items::Items;
use std::alloc::{AllocError, Global};

/// Numbers that look random, by a linear congruence.
#[derive(Drop)]
pub struct Random(pub u64);

impl Random {
    /// A number below `end`.
    pub fn below(&mut self, end: u32) -> u32
        requires { 0 < end }
        ensures { result < end }
    {
        self.0 = self
            .0
            .wrapping_mul(6_364_136_223_846_793_005)
            .wrapping_add(1_442_695_040_888_963_407);
        ((self.0 >> 33) % u64::from(end)) as u32
    }
}

/// A variable, maybe out of reach, a number, or a function at one of them.
fn term(arena: &mut Arena, random: &mut Random) -> Result<u32, AllocError>
    requires { length arena.old + 2 ≤ MOST_ARENA_NODES }
    ensures term { IfOk result (IsTerm arena.new) }
    ensures size { IfOk result (λ id. length arena.new ≤ length arena.old + 2) }
    ensures kept { IfOk result (λ id. KeepsKinds arena.old arena.new) }
{
    if random.below(6) == 0 {
        return arena.mk_num(i64::from(random.below(3)));
    }
    let variable = arena.mk_bound(0, random.below(3))?;
    if random.below(2) == 0 {
        return Ok(variable);
    }
    arena.mk_app(random.below(4), variable)
}

/// An atom.
fn atom(arena: &mut Arena, random: &mut Random) -> Result<u32, AllocError>
    requires { length arena.old + 5 ≤ MOST_ARENA_NODES }
    ensures formula { IfOk result (IsFormula arena.new) }
    ensures size { IfOk result (λ id. length arena.new ≤ length arena.old + 5) }
    ensures kept { IfOk result (λ id. KeepsKinds arena.old arena.new) }
{
    let left = term(arena, random)?;
    let right = term(arena, random)?;
    match random.below(5) {
        0 => arena.mk_eq(left, right),
        1 => arena.mk_less(left, right),
        2 => arena.mk_has(0, left, right),
        3 => arena.mk_flag(2, left),
        _ => arena.mk_some(random.below(4), left),
    }
}

/// The formula with a connective or a quantifier more.
fn step(arena: &mut Arena, random: &mut Random, last: u32) -> Result<u32, AllocError>
    requires room { length arena.old + 7 ≤ MOST_ARENA_NODES }
    requires formula { IsFormula arena.old last }
    ensures formula { IfOk result (IsFormula arena.new) }
    ensures size { IfOk result (λ id. length arena.new ≤ length arena.old + 7) }
{
    match random.below(6) {
        0 => arena.mk_not(last),
        1 => arena.mk_exists(random.below(2), last),
        2 => arena.mk_forall(random.below(2), last),
        3 => {
            let other = atom(arena, random)?;
            arena.mk_and(last, other)
        }
        4 => {
            let other = atom(arena, random)?;
            let negated = arena.mk_not(other)?;
            arena.mk_and(negated, last)
        }
        _ => {
            let other = atom(arena, random)?;
            arena.mk_or(other, last)
        }
    }
}

/// A formula of some twelve steps.
pub fn formula(arena: &mut Arena, random: &mut Random) -> Result<u32, AllocError>
    requires { length arena.old + 100 ≤ MOST_ARENA_NODES }
    ensures formula { IfOk result (IsFormula arena.new) }
    ensures size { IfOk result (λ id. length arena.new ≤ length arena.old + 100) }
{
    let mut last = atom(arena, random)?;
    for _turn in 0..12_u32 {
        last = step(arena, random, last)?;
    }
    Ok(last)
}

/// A value of the range of a function, or nothing.
fn value(random: &mut Random, function: u32) -> Option<SVal> {
    if random.below(4) == 0 {
        return None;
    }
    let n = random.below(3);
    match function {
        0 | 1 => Some(SVal::Rec(n)),
        2 => Some(SVal::Flag(n == 0)),
        _ => Some(SVal::Num(i64::from(n))),
    }
}

/// A table of at most three values.
fn table(
    alloc: Global,
    random: &mut Random,
    function: u32,
) -> Result<Items<Option<SVal>>, AllocError> {
    let mut values = Items::new(alloc);
    for _ in 0..random.below(4) {
        values.push(value(random, function))?;
    }
    Ok(values)
}

/// A structure of at most three elements a sort, whose tables may be short.
pub fn structure(alloc: Global, random: &mut Random) -> Result<Structure, AllocError> {
    let mut sizes = Items::new(alloc);
    for _ in 0..2_u32 {
        sizes.push(random.below(4))?;
    }
    let mut funs = Items::new(alloc);
    for function in 0..4_u32 {
        funs.push(table(alloc, random, function)?)?;
    }
    let mut pairs = Items::new(alloc);
    for _ in 0..random.below(5) {
        pairs.push((random.below(3), random.below(3)))?;
    }
    let mut sets = Items::new(alloc);
    sets.push(pairs)?;
    Ok(Structure { sizes, funs, sets })
}
