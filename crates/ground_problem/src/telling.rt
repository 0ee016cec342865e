//! Which terms name elements, and which have other values.

ghost use Rattle.std.specs.Prelude.{◌≡◌, ◌↔◌, ◌<◌, ◌++◌, ◌∷◌, ℕ, [], Contains, IfOk, IsTrue};
ghost use Rattle.std.specs.Prelude.{OnOk, Some, length, map, slice_get, true};
ghost use Rattle.form_formula.specs.Trees.{Formula};
ghost use Rattle.form_terms.specs.GroundTerms.{field, skolem, sort_of};
ghost use Rattle.form_terms.specs.Universe.{HaveSorts, HasEach, variables_of};
ghost use Rattle.ground_terms.specs.Nodes.{IsList, IsOne, list_of, term_of};
ghost use Rattle.ground_terms.specs.Standing.{terms_at};
ghost use Rattle.ground_terms.specs.Variables.{variable_at};
ghost use Rattle.form_tables.specs.Vocabulary.{IsFormed, only};
ghost use Rattle.ground_problem.specs.Telling.{AreListedMarks, AreMarked, IsListedElement};
ghost use Rattle.ground_problem.specs.Telling.{IsStandingOf, IsTelling};
ghost use Rattle.ground_problem.specs.Telling.{named_by, others_by};

use form_formula::{Range, Signature};
use ground_terms::{TermArena, TermNode, Variable, sort_of};
use std::alloc::{AllocError, Global};

/// What a number stands for in a vocabulary.
#[derive(Clone, Copy, Debug, PartialEq, Eq)]
pub(crate) enum Standing {
    /// Nothing of which the vocabulary tells.
    Absent,
    /// A term that names an element.
    Named,
    /// A further function at such a term.
    Other,
}

/// What was found of a vocabulary.
#[derive(Drop)]
pub(crate) struct Telling {
    /// What each number stands for.
    pub(crate) standings: Vec<Standing>,
    pub(crate) named: Vec<u32>,
    pub(crate) others: Vec<u32>,
}

/// What a vocabulary is found from.
#[derive(Clone, Copy)]
pub(crate) struct Source<'a> {
    pub(crate) signature: &'a Signature,
    pub(crate) terms: &'a TermArena,
    /// The variables of the formula.
    pub(crate) variables: &'a [Variable],
    /// The numbers of the listed terms.
    pub(crate) listed: &'a [u32],
    /// Whether a number is one of these.
    pub(crate) marks: &'a [bool],
    /// Whether only listed terms name elements.
    pub(crate) closed: bool,
}

impl Source<'_> {
    /// Whether the term of a number is a listed one.
    fn is_listed(self, id: u32) -> bool
        ensures { IsTrue result ↔ (slice_get self.entry.marks.now id ≡ Some true) }
    {
        match self.marks.get(id as usize) {
            Some(mark) => *mark,
            None => false,
        }
    }

    /// Whether it is, and names an element.
    fn is_listed_element(self, id: u32) -> bool
        requires { IsOne self.terms.now id }
        ensures yes { IsTrue result → IsListedElement self.entry.signature.now
            self.entry.terms.now self.entry.marks.now id }
        ensures each { IsListedElement self.entry.signature.now self.entry.terms.now
            self.entry.marks.now id → IsTrue result }
    {
        if !self.is_listed(id) {
            return false;
        }
        match sort_of(self.signature, self.terms, id) {
            Some(_) => true,
            None => false,
        }
    }
}

impl Telling {
    /// What a number stands for.
    pub(crate) fn standing(&self, id: u32) -> Standing
        ensures named { result ≡ Standing.Named →
            slice_get self.now.standings.items id ≡ Some Standing.Named }
        ensures other { result ≡ Standing.Other →
            slice_get self.now.standings.items id ≡ Some Standing.Other }
    {
        match self.standings.get(id as usize) {
            Some(standing) => *standing,
            None => Standing::Absent,
        }
    }

    /// Whether a number is that of a term that names an element.
    pub(crate) fn is_named(&self, id: u32) -> bool
        ensures { IsTrue result → slice_get self.now.standings.items id ≡ Some Standing.Named }
    {
        match self.standing(id) {
            Standing::Named => true,
            Standing::Absent | Standing::Other => false,
        }
    }

    /// Whether a term names an element of this sort.
    pub(crate) fn has_sort(
        &self,
        signature: &Signature,
        terms: &TermArena,
        id: u32,
        sort: u32,
    ) -> bool
        requires { AreMarked terms.now self.now }
        ensures { IsTrue result → IsOne terms.now id × (sort_of signature.now
            (term_of terms.now id) ≡ Some sort) × Contains (terms_at terms.now
            self.now.named.items) (term_of terms.now id) }
    {
        if !self.is_named(id) {
            return false;
        }
        match sort_of(signature, terms, id) {
            Some(own) => own == sort,
            None => false,
        }
    }

    /// Whether the terms of a list name elements of these sorts.
    fn has_arguments(
        &self,
        signature: &Signature,
        terms: &TermArena,
        list: u32,
        sorts: &[u32],
    ) -> bool
        requires marked { AreMarked terms.now self.now }
        requires list { IsList terms.now list }
        ensures { IsTrue result → HaveSorts signature.now (list_of terms.now list) sorts.now
            × HasEach (Contains (terms_at terms.now self.now.named.items))
            (list_of terms.now list) }
    {
        let mut at = list;
        for sort in sorts {
            match terms.node(at) {
                TermNode::Cons(t, ts) => {
                    if !self.has_sort(signature, terms, t, *sort) {
                        return false;
                    }
                    at = ts;
                }
                _ => return false,
            }
        }
        match terms.node(at) {
            TermNode::Empty => true,
            _ => false,
        }
    }

    /// Whether a variable is the one with this number and this sort, and the terms of a list are of
    /// the sorts above it.
    fn is_at(
        &self,
        source: Source<'_>,
        variable: &Variable,
        number: u32,
        sort: u32,
        list: u32,
    ) -> bool
        requires marked { AreMarked source.terms.now self.now }
        requires list { IsList source.terms.now list }
        ensures { IsTrue result → (variable.now.number ≡ number) × (variable.now.sort ≡ sort)
            × HaveSorts source.entry.signature.now (list_of source.entry.terms.now list)
            variable.now.above × HasEach (Contains (terms_at source.entry.terms.now
            self.now.named.items)) (list_of source.entry.terms.now list) }
    {
        if variable.number != number {
            return false;
        }
        if variable.sort != sort {
            return false;
        }
        let sorts = variable.above.as_slice();
        self.has_arguments(source.signature, source.terms, list, sorts)
    }

    /// Whether one of the variables, at the terms of a list, names an element.
    fn is_variable(&self, source: Source<'_>, number: u32, sort: u32, list: u32) -> bool
        requires marked { AreMarked source.terms.now self.now }
        requires list { IsList source.terms.now list }
        ensures { IsTrue result → (f : Formula) → map variable_at source.entry.variables.now
            ≡ variables_of source.entry.signature.now f → IsFormed source.entry.signature.now f
            (only (terms_at source.entry.terms.now self.now.named.items))
            (skolem number sort (list_of source.entry.terms.now list)) }
    {
        for variable in source.variables {
            if self.is_at(source, variable, number, sort, list) {
                return true;
            }
        }
        false
    }

    /// What the number of a function at a term stands for.
    fn standing_of_field(&self, source: Source<'_>, id: u32, h: u32, t: u32) -> Standing
        requires marked { AreMarked source.terms.now self.now }
        requires marks { AreListedMarks source.terms.now source.listed.now source.marks.now }
        requires node { slice_get source.terms.now id ≡ Some (TermNode.Field h t) }
        requires means { term_of source.terms.now id ≡ field h (term_of source.terms.now t) }
        ensures stands { IsStandingOf source.entry.signature.now source.entry.variables.now
            (terms_at source.entry.terms.now source.entry.listed.now) source.entry.closed
            source.entry.terms.now
            (terms_at source.entry.terms.now self.now.named.items) id result }
        ensures listed { IsListedElement source.entry.signature.now source.entry.terms.now
            source.entry.marks.now id → result ≡ Standing.Named }
    {
        if source.is_listed_element(id) {
            return Standing::Named;
        }
        let Some(sig) = source.signature.funs.get(h as usize) else {
            return Standing::Absent;
        };
        if !self.has_sort(source.signature, source.terms, t, sig.from) {
            return Standing::Absent;
        }
        match sig.to {
            Range::Flag | Range::Num | Range::Str => Standing::Other,
            Range::Rec(_) => {
                if !source.closed {
                    return Standing::Named;
                }
                Standing::Other
            }
        }
    }

    /// What a number stands for, by its node.
    fn standing_of(&self, source: Source<'_>, id: u32) -> Standing
        requires marked { AreMarked source.terms.now self.now }
        requires marks { AreListedMarks source.terms.now source.listed.now source.marks.now }
        requires within { id < length source.terms.now }
        ensures stands { IsStandingOf source.entry.signature.now source.entry.variables.now
            (terms_at source.entry.terms.now source.entry.listed.now) source.entry.closed
            source.entry.terms.now
            (terms_at source.entry.terms.now self.now.named.items) id result }
        ensures listed { IsListedElement source.entry.signature.now source.entry.terms.now
            source.entry.marks.now id → result ≡ Standing.Named }
    {
        match source.terms.node(id) {
            TermNode::Constant(_) => {
                if source.is_listed(id) {
                    return Standing::Named;
                }
                Standing::Absent
            }
            TermNode::Skolem(number, sort, list) => {
                if source.is_listed(id) {
                    return Standing::Named;
                }
                if source.closed {
                    return Standing::Absent;
                }
                if self.is_variable(source, number, sort, list) {
                    return Standing::Named;
                }
                Standing::Absent
            }
            TermNode::Field(h, t) => self.standing_of_field(source, id, h, t),
            TermNode::Empty | TermNode::Cons(..) => Standing::Absent,
        }
    }

    /// Notes what the next number stands for.
    fn note(&mut self, id: u32, standing: Standing) -> Result<(), AllocError>
        requires { id ≡ length self.old.standings.items }
        ensures standings { OnOk result (self.new.standings.items ≡ self.old.standings.items
            ++ standing ∷ []) }
        ensures named { OnOk result (self.new.named.items ≡ self.old.named.items
            ++ named_by standing id) }
        ensures others { OnOk result (self.new.others.items ≡ self.old.others.items
            ++ others_by standing id) }
    {
        self.standings.push(standing)?;
        match standing {
            Standing::Absent => Ok(()),
            Standing::Named => {
                self.named.push(id)?;
                Ok(())
            }
            Standing::Other => {
                self.others.push(id)?;
                Ok(())
            }
        }
    }
}

/// Finds which terms name elements, and which have other values.
pub(crate) fn tell(alloc: Global, source: Source<'_>) -> Result<Telling, AllocError>
    requires { AreListedMarks source.terms.now source.listed.now source.marks.now }
    ensures telling { IfOk result (λ telling. IsTelling source.entry.signature.now
        source.entry.variables.now (terms_at source.entry.terms.now source.entry.listed.now)
        source.entry.closed source.entry.terms.now telling) }
    ensures listed { IfOk result (λ telling. (id : ℕ) → IsListedElement source.entry.signature.now
        source.entry.terms.now source.entry.marks.now id →
        slice_get telling.standings.items id ≡ Some Standing.Named) }
{
    let count = source.terms.len() as u32;
    let mut telling = Telling {
        standings: Vec::new(alloc),
        named: Vec::new(alloc),
        others: Vec::new(alloc),
    };
    for id in 0..count {
        let standing = telling.standing_of(source, id);
        telling.note(id, standing)?;
    }
    Ok(telling)
}
