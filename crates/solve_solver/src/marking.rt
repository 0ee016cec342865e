//! Which literals of the trail a conflict comes from.

ghost use Rattle.std.specs.Prelude.{◌≡◌, ◌↔◌, ◌<◌, ◌≤◌, ◌++◌, length, reverse, IsTrue, All, vec_len, vec_capacity, slice_set, false, Some};
ghost use Rattle.std.specs.Option.{option_map, option_to_list};
ghost use Rattle.solve_solver.specs.Assignment.{value_at};
ghost use Rattle.solve_solver.specs.Clauses.{IsWithin};
ghost use Rattle.solve_solver.specs.Marks.{IsMarkedAt, IsMarkedBut, IsMarkedBy, collected};
ghost use Rattle.solve_solver.specs.Units.{IsFalseIn};

use crate::literal::PLit;
use crate::room::push_within;
use crate::trail::{Entry, Trail};
use solve_theory::LitBuf;

/// Marks the variables of the clause, but for those of the literal `but`, up to the first literal
/// that is not false. Says whether there was no such literal.
pub fn mark_clause(trail: &Trail, clause: &[PLit], but: Option<PLit>, marks: &mut [bool]) -> bool
    requires within { IsWithin trail.now.vars clause.now }
    requires one_each { length marks.old ≡ trail.now.vars }
    ensures { IsMarkedBy trail.now.entries but clause.now marks.old marks.new result }
{
    for literal in clause {
        if !is_same(but, *literal) {
            if !trail.is_false(*literal) {
                return false;
            }
            marks[literal.var as usize] = true;
        }
    }
    true
}

/// Whether each literal of the clause but for `literal` is false and marked, and of another
/// variable.
pub fn is_marked_but(trail: &Trail, clause: &[PLit], literal: PLit, marks: &[bool]) -> bool
    requires within { IsWithin trail.now.vars clause.now }
    requires one_each { length marks.now ≡ trail.now.vars }
    ensures { IsTrue result
        ↔ IsMarkedBut (slice_set marks.now literal.var false) trail.now.entries (Some literal)
        clause.now }
{
    for other in clause {
        if !is_same(Some(literal), *other) {
            if other.var == literal.var || !is_marked_false(trail, *other, marks) {
                return false;
            }
        }
    }
    true
}

/// Whether a literal is false and its variable is marked.
fn is_marked_false(trail: &Trail, literal: PLit, marks: &[bool]) -> bool
    requires within { literal.var < trail.now.vars }
    requires one_each { length marks.now ≡ trail.now.vars }
    ensures { IsTrue result
        ↔ (IsFalseIn trail.now.entries literal × IsTrue (value_at marks.now literal.var)) }
{
    trail.is_false(literal) && marks[literal.var as usize]
}

/// Whether there is a literal, and it is this one.
fn is_same(literal: Option<PLit>, other: PLit) -> bool
    ensures { IsTrue result ↔ (literal ≡ Some other) }
{
    match literal {
        Some(literal) => literal.is_same(other),
        None => false,
    }
}

/// Marks the variables at these positions of a list.
pub fn mark_places(places: &[u32], positions: &[u32], marks: &mut [bool])
    requires { All (λ var. var < length marks.old) places.now }
    ensures { IsMarkedAt places.now positions.now marks.old marks.new }
{
    for position in positions {
        let position = *position as usize;
        if position < places.len() {
            marks[places[position] as usize] = true;
        }
    }
}

/// Puts the variable at the end of the list, where there is a literal of the theory for it.
pub fn push_place<L: Copy>(places: &mut Vec<u32>, literal: Option<L>, var: u32)
    requires { vec_len places.old < vec_capacity places.old }
    ensures items { places.new.items ≡ places.old.items
        ++ option_to_list (option_map (λ _. var) literal) }
    ensures capacity { vec_capacity places.old ≤ vec_capacity places.new }
{
    if literal.is_some() {
        push_within(places, var);
    }
}

/// Makes a clause of a literal and of the opposites of the marked ones among these, the last first.
pub fn collect(entries: &[Entry], literal: PLit, marks: &[bool], clause: &mut LitBuf<PLit>)
    requires within { All (λ e. e.literal.var < length marks.now) entries.now }
    requires room { length entries.now < clause.old.capacity }
    ensures capacity { clause.new.capacity ≡ clause.old.capacity }
    ensures items { clause.new.items ≡ collected literal marks.now (reverse entries.now) }
{
    clause.clear();
    clause.push(literal);
    for passed in 0..entries.len() {
        let entry = entries[entries.len() - 1 - passed];
        if marks[entry.literal.var as usize] {
            clause.push(entry.literal.opposite());
        }
    }
}
