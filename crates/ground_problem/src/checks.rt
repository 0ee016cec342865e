//! Whether an input speaks of a vocabulary.

ghost use Rattle.std.specs.Prelude.{◌≡◌, Contains, IfSome, IsTrue, Some};
ghost use Rattle.form_formula.specs.Nodes.{term_of as formula_term};
ghost use Rattle.ground_instances.specs.declared.input.Input.{Input as AnyInput};
ghost use Rattle.ground_terms.specs.Nodes.{term_of};
ghost use Rattle.form_tables.specs.Vocabulary.{told};
ghost use Rattle.ground_problem.specs.Inputs.{AreFieldsOf, IsFieldAt, IsFieldOf, IsOfRange, IsOfSort};
ghost use Rattle.ground_problem.specs.Inputs.{IsPlainRange, IsToldInput, literal_range};
ghost use Rattle.ground_problem.specs.Telling.{AreMarked, AreMarkedOther, told_so_far};

use crate::telling::{Standing, Telling};
use form_formula::{Arena, Node, Range, Signature};
use ground_instances::{Input, Value};
use ground_terms::{TermArena, TermNode, sort_of};

/// What inputs are compared with.
#[derive(Clone, Copy)]
pub(crate) struct Check<'a> {
    pub(crate) arena: &'a Arena,
    pub(crate) signature: &'a Signature,
    pub(crate) terms: &'a TermArena,
    pub(crate) telling: &'a Telling,
}

/// What a number or a text is.
fn literal_range(arena: &Arena, id: u32) -> Option<Range>
    ensures { IfSome result (λ range. literal_range (formula_term arena.now id) ≡ Some range) }
{
    if id as usize >= arena.len() {
        return None;
    }
    match arena.node(id) {
        Node::Num(_) => Some(Range::Num),
        Node::Str(_) => Some(Range::Str),
        _ => None,
    }
}

/// What a function gives, if it gives no element.
fn plain_range(signature: &Signature, h: u32) -> Option<Range>
    ensures { IfSome result (λ range. IsPlainRange signature.now h range) }
{
    let to = signature.funs.get(h as usize)?.to;
    match to {
        Range::Rec(_) => None,
        Range::Flag | Range::Num | Range::Str => Some(to),
    }
}

impl Check<'_> {
    /// What a term of the vocabulary has.
    fn term_range(self, id: u32) -> Option<Range>
        requires named { AreMarked self.terms.now self.telling.now }
        requires others { AreMarkedOther self.terms.now self.telling.now }
        ensures { IfSome result (IsOfRange self.entry.signature.now (told_so_far
            self.entry.terms.now self.entry.telling.now) self.entry.arena.now self.entry.terms.now
            (Value.Term id)) }
    {
        match self.telling.standing(id) {
            Standing::Absent => None,
            Standing::Named => {
                let sort = sort_of(self.signature, self.terms, id)?;
                Some(Range::Rec(sort))
            }
            Standing::Other => match self.terms.node(id) {
                TermNode::Field(h, _) => plain_range(self.signature, h),
                _ => None,
            },
        }
    }

    /// What a value is, if it is a term of the vocabulary or a literal.
    fn range(self, value: Value) -> Option<Range>
        requires named { AreMarked self.terms.now self.telling.now }
        requires others { AreMarkedOther self.terms.now self.telling.now }
        ensures { IfSome result (IsOfRange self.entry.signature.now (told_so_far
            self.entry.terms.now self.entry.telling.now) self.entry.arena.now self.entry.terms.now
            value) }
    {
        match value {
            Value::Term(id) => self.term_range(id),
            Value::Literal(id) => literal_range(self.arena, id),
        }
    }

    /// Whether two values can be equal.
    fn are_comparable(self, a: Value, b: Value) -> bool
        requires named { AreMarked self.terms.now self.telling.now }
        requires others { AreMarkedOther self.terms.now self.telling.now }
        ensures { IsTrue result → IsToldInput self.entry.signature.now (told_so_far
            self.entry.terms.now self.entry.telling.now) self.entry.arena.now self.entry.terms.now
            (Input.Equal a b) }
    {
        match (self.range(a), self.range(b)) {
            (Some(Range::Rec(s)), Some(Range::Rec(t))) => s == t,
            (Some(Range::Num), Some(Range::Num)) => true,
            (Some(Range::Str), Some(Range::Str)) => true,
            _ => false,
        }
    }

    /// Whether two values are numbers.
    fn are_numbers(self, a: Value, b: Value) -> bool
        requires named { AreMarked self.terms.now self.telling.now }
        requires others { AreMarkedOther self.terms.now self.telling.now }
        ensures { IsTrue result → IsToldInput self.entry.signature.now (told_so_far
            self.entry.terms.now self.entry.telling.now) self.entry.arena.now self.entry.terms.now
            (Input.Less a b) }
    {
        match (self.range(a), self.range(b)) {
            (Some(Range::Num), Some(Range::Num)) => true,
            _ => false,
        }
    }

    /// Whether a value is a term that names an element of this sort.
    fn has_sort(self, value: Value, sort: u32) -> bool
        requires { AreMarked self.terms.now self.telling.now }
        ensures { IsTrue result → IsOfSort self.entry.signature.now (told_so_far
            self.entry.terms.now self.entry.telling.now) self.entry.arena.now self.entry.terms.now
            value sort }
    {
        match value {
            Value::Term(id) => self.telling.has_sort(self.signature, self.terms, id, sort),
            Value::Literal(_) => false,
        }
    }

    /// Whether a set relation is between the sorts of two values.
    fn are_related(self, r: u32, a: Value, b: Value) -> bool
        requires { AreMarked self.terms.now self.telling.now }
        ensures { IsTrue result → IsToldInput self.entry.signature.now (told_so_far
            self.entry.terms.now self.entry.telling.now) self.entry.arena.now self.entry.terms.now
            (Input.Has r a b) }
    {
        match self.signature.sets.get(r as usize) {
            Some(sig) => self.has_sort(a, sig.from) && self.has_sort(b, sig.to),
            None => false,
        }
    }

    /// Whether the vocabulary tells of a number.
    fn is_told(self, id: u32) -> bool
        requires named { AreMarked self.terms.now self.telling.now }
        requires others { AreMarkedOther self.terms.now self.telling.now }
        ensures { IsTrue result → Contains (told (told_so_far self.entry.terms.now
            self.entry.telling.now)) (term_of self.entry.terms.now id) }
    {
        match self.telling.standing(id) {
            Standing::Absent => false,
            Standing::Named => true,
            Standing::Other => true,
        }
    }

    /// Whether the vocabulary tells of a function at a value, which has this number.
    fn is_present(self, h: u32, value: Value, field: u32) -> bool
        requires named { AreMarked self.terms.now self.telling.now }
        requires others { AreMarkedOther self.terms.now self.telling.now }
        requires field { IsFieldAt self.terms.now h value field }
        ensures { IsTrue result → IsToldInput self.entry.signature.now (told_so_far
            self.entry.terms.now self.entry.telling.now) self.entry.arena.now self.entry.terms.now
            (Input.Present h value) }
    {
        match self.signature.funs.get(h as usize) {
            Some(sig) => self.has_sort(value, sig.from) && self.is_told(field),
            None => false,
        }
    }

    /// Whether that is so, and the function gives truth values.
    fn is_flag(self, h: u32, value: Value, field: u32) -> bool
        requires named { AreMarked self.terms.now self.telling.now }
        requires others { AreMarkedOther self.terms.now self.telling.now }
        requires field { IsFieldAt self.terms.now h value field }
        ensures { IsTrue result → IsToldInput self.entry.signature.now (told_so_far
            self.entry.terms.now self.entry.telling.now) self.entry.arena.now self.entry.terms.now
            (Input.Flag h value) }
    {
        match plain_range(self.signature, h) {
            Some(Range::Flag) => self.is_present(h, value, field),
            _ => false,
        }
    }

    /// Whether an input, whose function at a value has this number, speaks of the vocabulary.
    fn is_told_input(self, input: Input, field: u32) -> bool
        requires named { AreMarked self.terms.now self.telling.now }
        requires others { AreMarkedOther self.terms.now self.telling.now }
        requires field { IsFieldOf self.terms.now input field }
        ensures { IsTrue result → IsToldInput self.entry.signature.now (told_so_far
            self.entry.terms.now self.entry.telling.now) self.entry.arena.now self.entry.terms.now
            input }
    {
        match input {
            Input::There(id) => self.telling.is_named(id),
            Input::Equal(a, b) => self.are_comparable(a, b),
            Input::Less(a, b) => self.are_numbers(a, b),
            Input::Has(r, a, b) => self.are_related(r, a, b),
            Input::Flag(h, value) => self.is_flag(h, value, field),
            Input::Present(h, value) => self.is_present(h, value, field),
        }
    }

    /// Whether all of some inputs do.
    pub(crate) fn are_told(self, inputs: &[Input], fields: &[u32]) -> bool
        requires named { AreMarked self.terms.now self.telling.now }
        requires others { AreMarkedOther self.terms.now self.telling.now }
        requires fields { AreFieldsOf self.terms.now inputs.now fields.now }
        ensures { IsTrue result → (i : AnyInput) → Contains inputs.now i → IsToldInput
            self.entry.signature.now (told_so_far self.entry.terms.now self.entry.telling.now)
            self.entry.arena.now self.entry.terms.now i }
    {
        for k in 0..inputs.len() {
            match fields.get(k) {
                Some(field) => {
                    if !self.is_told_input(inputs[k], *field) {
                        return false;
                    }
                }
                None => return false,
            }
        }
        true
    }
}
