//! The decision procedure for equality of terms.
ghost use Rattle.std.specs.Prelude.{◌≡◌, ◌≢◌, ◌-◌, ◌<◌, ◌↔◌, ◌^◌, [], ◌∷◌, ◌++◌, length, take, All};
ghost use Rattle.std.specs.Prelude.{AllPairs, IsTrue, IfOk};
ghost use Rattle.solve_theory.specs.Models.{HasModel, HasModelSaying};

use crate::clash::find_clash;
use crate::edges::Edges;
use crate::entry::{Entry, Failure};
use crate::literal::EqualityLit;
use crate::partition::Partition;
use crate::path::write_path;
use crate::plan::plan_join;
use crate::record::record;
use crate::search::search;
use crate::visits::Visits;
use solve_theory::{LitBuf, Theory};
use sqlite_items::Items;
use std::alloc::{AllocError, Global};
use std::marker::Model;

/// Equality of terms, some of which are fixed to be pairwise different.
///
/// Its terms are the numbers below the one that `new` was given. A model is a column of class
/// numbers, one for each term, in which the fixed terms have different ones.
///
/// The terms that the asserted equalities put together have one class number. To join two classes
/// the smaller one is relabelled, and for a conflict the equalities that joined classes are
/// searched as the edges of a graph.
#[derive(Drop)]
pub struct Equality {
    entries: Vec<Entry>,
    /// The equalities that joined classes, by position.
    links: Edges,
    /// The differences between classes, by position.
    gaps: Edges,
    parts: Partition,
    visits: Visits,
    /// Why there is no model, where there is none.
    failure: Option<Failure>,
    fixed: Vec<u32>,
    limit: usize,
    alloc: Global,
}

impl Model for Equality {
    ghost use Rattle.std.specs.Prelude.{map, vec_capacity};
    ghost use Rattle.solve_equality.specs.Equality.{Equalities};

    ghost Value = { Equalities };

    ghost use Rattle.solve_equality.specs.EntryEnds.{literal_of};
    ghost use Rattle.solve_equality.specs.Entries.{IsSoundEquality};

    ghost view = { λ e. record {
      literals = map literal_of e.entries.items;
      capacity = e.limit;
      terms = e.links.terms;
      fixed = e.fixed.items;
    } };

    ghost invariant = { λ e. IsSoundEquality e.entries.items (vec_capacity e.entries) e.limit
        e.links.terms e.fixed.items e.links e.gaps e.parts e.visits e.failure };
}

impl Equality {
    ghost use Rattle.solve_equality.specs.Equality.{is_classes, meets_literal};
    ghost use Rattle.solve_equality.specs.declared.literal.EqualityLit.TheVariants.{Same, Differ};

    /// Terms below `terms`, of which those in `fixed` are pairwise different, with room for
    /// `capacity` literals.
    pub fn new(
        alloc: Global,
        terms: usize,
        fixed: &[u32],
        capacity: usize,
    ) -> Result<Equality, AllocError>
        requires terms_fit { terms < 2 ^ 32 }
        requires capacity_fits { capacity < 2 ^ 32 }
        requires fixed_in { All (λ f. f < terms) fixed.now }
        requires fixed_once { AllPairs (λ f g. f ≢ g) fixed.now }
        ensures { IfOk result (λ e. e
            ≡ record { literals = []; capacity = capacity; terms = terms; fixed = fixed.now }) }
    {
        Ok(Equality {
            entries: Vec::with_capacity(alloc, capacity)?,
            links: Edges::new(alloc, terms, capacity)?,
            gaps: Edges::new(alloc, terms, capacity)?,
            parts: Partition::new(alloc, terms, fixed)?,
            visits: Visits::new(alloc, terms)?,
            failure: None,
            fixed: Vec::from_slice(alloc, fixed)?,
            limit: capacity,
            alloc,
        })
    }

    /// Asserts `Same(left, right)`.
    fn assert_same(&mut self, left: u32, right: u32) -> bool
        requires has_model { HasModel
            (is_classes self.old.terms self.old.fixed) meets_literal self.old.literals }
        requires room { length self.old.literals < self.old.capacity }
        requires left_in { left < self.old.terms }
        requires right_in { right < self.old.terms }
        ensures verdict { IsTrue result ↔
            HasModel (is_classes self.new.terms self.new.fixed) meets_literal self.new.literals }
        ensures list { self.new
            ≡ record self.old { literals = self.old.literals ++ Same left right ∷ [] } }
    {
        if self.parts.class_of(left) == self.parts.class_of(right) {
            let entry = Entry::Known(left, right);
            record(&mut self.entries, &mut self.links, &mut self.gaps, entry);
            return true;
        }
        let join = plan_join(&self.parts, left, right);
        search(&self.links, &mut self.visits, join.near);
        match find_clash(&self.parts, &self.gaps, &self.visits, join.from, join.into) {
            None => {
                self.parts.join(&self.visits, join.from, join.into);
                let entry = Entry::Joined(join);
                record(&mut self.entries, &mut self.links, &mut self.gaps, entry);
                true
            }
            Some(failure) => {
                let entry = Entry::Failed(EqualityLit::Same(left, right));
                record(&mut self.entries, &mut self.links, &mut self.gaps, entry);
                self.failure = Some(failure);
                false
            }
        }
    }

    /// Asserts `Differ(left, right)`.
    fn assert_differ(&mut self, left: u32, right: u32) -> bool
        requires has_model { HasModel
            (is_classes self.old.terms self.old.fixed) meets_literal self.old.literals }
        requires room { length self.old.literals < self.old.capacity }
        requires left_in { left < self.old.terms }
        requires right_in { right < self.old.terms }
        ensures verdict { IsTrue result ↔
            HasModel (is_classes self.new.terms self.new.fixed) meets_literal self.new.literals }
        ensures list { self.new
            ≡ record self.old { literals = self.old.literals ++ Differ left right ∷ [] } }
    {
        if self.parts.class_of(left) != self.parts.class_of(right) {
            let entry = Entry::Apart(left, right);
            record(&mut self.entries, &mut self.links, &mut self.gaps, entry);
            return true;
        }
        let position = self.entries.len() as u32;
        let entry = Entry::Failed(EqualityLit::Differ(left, right));
        record(&mut self.entries, &mut self.links, &mut self.gaps, entry);
        self.failure = Some(Failure {
            left,
            right,
            forbidden_by: Some(position),
        });
        false
    }

    /// Whether the terms have one class.
    fn are_one(&self, left: u32, right: u32) -> bool
        requires has_model { HasModel
            (is_classes self.now.terms self.now.fixed) meets_literal self.now.literals }
        requires left_in { left < self.now.terms }
        requires right_in { right < self.now.terms }
        ensures { HasModelSaying (is_classes self.now.terms self.now.fixed) meets_literal
            self.now.literals (Same left right) result }
    {
        self.parts.class_of(left) == self.parts.class_of(right)
    }

    /// Takes the last literal back.
    fn undo_one(&mut self)
        requires { 0 < length self.old.literals }
        ensures { self.new
            ≡ record self.old { literals = take (length self.old.literals - 1) self.old.literals } }
    {
        if let Some(last) = self.entries.pop() {
            self.links.pop();
            self.gaps.pop();
            self.failure = None;
            if let Some(join) = last.join() {
                search(&self.links, &mut self.visits, join.near);
                self.parts
                    .split(&self.visits, join.from, join.into, join.anchor);
            }
        }
    }
}

impl Theory for Equality {
    ghost use Rattle.solve_equality.specs.Equality.{is_classes, meets_literal, takes_literal};
    ghost use Rattle.solve_equality.specs.EmptyClasses.{empty_has_classes};

    type Lit = EqualityLit;

    type Model = Items<u32>;

    ghost literals = { λ e. e.literals };

    ghost capacity = { λ e. e.capacity };

    ghost takes = { λ e. takes_literal e.terms };

    ghost models = { λ e. is_classes e.terms e.fixed };

    ghost meets = { meets_literal };

    fn assert(&mut self, l: EqualityLit) -> bool {
        match l {
            EqualityLit::Same(left, right) => self.assert_same(left, right),
            EqualityLit::Differ(left, right) => self.assert_differ(left, right),
        }
    }

    fn undo(&mut self, n: usize) {
        for _taken in 0..n {
            self.undo_one();
        }
    }

    fn asserted(&self) -> usize {
        self.entries.len()
    }

    fn conflict(&mut self, out: &mut LitBuf<u32>) {
        out.clear();
        if let Some(failure) = self.failure {
            write_path(
                &self.links,
                &mut self.visits,
                failure.left,
                failure.right,
                out,
            );
            if let Some(position) = failure.forbidden_by {
                out.push(position);
            }
        }
    }

    fn model(&self) -> Result<Items<u32>, AllocError> {
        let classes = Items::from_slice(self.alloc, self.parts.classes())?;
        Ok(classes)
    }

    fn is_met(&self, l: EqualityLit) -> bool {
        match l {
            EqualityLit::Same(left, right) => self.are_one(left, right),
            EqualityLit::Differ(left, right) => !self.are_one(left, right),
        }
    }

    ghost empty_has_model = { λ e. empty_has_classes e.terms e.fixed };
}
