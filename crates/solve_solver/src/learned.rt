//! The clauses that were learned.

ghost use Rattle.std.specs.Prelude.{◌≡◌, ◌↔◌, ◌⊎◌, ◌<◌, ◌≤◌, ◌∷◌, ◌++◌, [], Some, length, IfOk, IsTrue, All};
ghost use Rattle.std.specs.List.{Contains};
ghost use Rattle.std.specs.Option.{option_map};
ghost use Rattle.solve_solver.specs.Clauses.{ClausesView, HasRoom};
ghost use Rattle.solve_solver.specs.Learned.{IsAmong, clause_of, learned_list};

use crate::activities::Activities;
use crate::allowance::Allowance;
use crate::clauses::Clauses;
use crate::literal::PLit;
use crate::reason::Reason;
use std::alloc::{AllocError, Global};
use std::marker::Model;
use std::mem;

/// Clauses that were learned, with room for so many. From time to time those are forgotten that had
/// least part in late conflicts (Eén and Sörensson, "An extensible SAT-solver", 2003): which they
/// are rests on no proof. A clause is named by its slot, which `reduce` changes. Contracts see the
/// clauses and the room for them, and how many literals a clause has at most.
#[derive(Drop)]
pub struct Learned {
    clauses: Clauses,
    /// Where those are gathered that are kept.
    spare: Clauses,
    activities: Activities,
    allowance: Allowance,
    width: usize,
}

impl Model for Learned {
    ghost use Rattle.solve_solver.specs.Learned.{LearnedView, IsWide};

    ghost Value = { LearnedView };

    ghost view = { λ l. record { clauses = l.clauses; width = l.width } };

    ghost invariant = { λ l. IsWide l.width l.clauses × IsWide l.width l.spare };
}

impl Learned {
    /// Nothing learned, with room for so many clauses and for so many literals in all, beside so
    /// many clauses that are given.
    pub fn new(
        alloc: Global,
        most: usize,
        literals: usize,
        width: usize,
        given: usize,
    ) -> Result<Learned, AllocError>
        requires some { 0 < most }
        requires width { width ≤ literals }
        ensures { let room : ClausesView = record {
          list = [];
          held = 0;
          literal_room = literals;
          clause_room = most;
        } in
            IfOk result (λ l. l ≡ record { clauses = room; width = width }) }
    {
        Ok(Learned {
            clauses: Clauses::with_room(alloc, most, literals)?,
            spare: Clauses::with_room(alloc, most, literals)?,
            activities: Activities::new(alloc, most)?,
            allowance: Allowance::new(given),
            width,
        })
    }

    /// How many clauses there are.
    pub fn len(&self) -> usize
        ensures { result ≡ length (learned_list self.now) }
    {
        self.clauses.len()
    }

    /// The clause of a slot, where there is one.
    pub fn clause(&self, slot: usize) -> Option<&[PLit]>
        ensures { option_map (λ clause. clause.now) result ≡ clause_of self.now slot }
    {
        self.clauses.get(slot)
    }

    /// Whether there is room for one clause more of as many literals as it can have.
    pub fn has_room(&self) -> bool
        ensures { IsTrue result ↔ HasRoom self.now.clauses self.now.width }
    {
        self.clauses.has_room(self.width)
    }

    /// Whether there are more clauses than are to be kept, where so many variables are set.
    pub fn is_crowded(&self, set: usize) -> bool {
        !self.has_room() || self.allowance.is_spent(self.clauses.len(), set)
    }

    /// Puts a clause behind the others, and gives its slot. Where there is no room for it, the
    /// others are forgotten.
    pub fn push(&mut self, clause: &[PLit]) -> usize
        requires { length clause.now ≤ self.old.width }
        ensures behind { HasRoom self.old.clauses (length clause.now)
            → learned_list self.new ≡ learned_list self.old ++ clause.now ∷ [] }
        ensures among { All (IsAmong (learned_list self.old) clause.now) (learned_list self.new) }
        ensures here { clause_of self.new result ≡ Some clause.now }
        ensures width { self.new.width ≡ self.old.width }
    {
        self.make_room(clause.len());
        let slot = self.clauses.len();
        self.clauses.push_within(clause);
        self.activities.enter(slot);
        self.allowance.count();
        slot
    }

    /// Makes room for a clause of so many literals, where there is none, by forgetting all others.
    fn make_room(&mut self, literals: usize)
        requires { literals ≤ self.old.width }
        ensures room { HasRoom self.new.clauses literals }
        ensures same { HasRoom self.old.clauses literals → self.new ≡ self.old }
        ensures list { (learned_list self.new ≡ learned_list self.old) ⊎ (learned_list self.new
            ≡ []) }
        ensures width { self.new.width ≡ self.old.width }
    {
        if !self.clauses.has_room(literals) {
            self.clauses.clear();
        }
    }

    /// Notes that the clause of a slot has part in a conflict.
    pub fn bump(&mut self, slot: usize)
        ensures { self.new ≡ self.old }
    {
        self.activities.bump(slot);
    }

    /// Lets the clause of a reason be kept when others are forgotten next.
    pub fn hold(&mut self, reason: Reason)
        ensures { self.new ≡ self.old }
    {
        if let Reason::Learned(slot) = reason {
            self.activities.hold(slot);
        }
    }

    /// The reason of the same clause after others were forgotten, as long as its slot is known.
    pub fn moved(&self, reason: Reason) -> Reason {
        match reason {
            Reason::Learned(slot) => match self.activities.moved(slot) {
                Some(slot) => Reason::Learned(slot),
                None => Reason::Unknown,
            },
            _ => reason,
        }
    }

    /// Holds no clause any more, and knows no earlier slots.
    pub fn release(&mut self)
        ensures { self.new ≡ self.old }
    {
        self.activities.release();
    }

    /// Forgets about half of the clauses: those that had least part in late conflicts and are not
    /// held.
    pub fn reduce(&mut self)
        ensures fewer { All (Contains (learned_list self.old)) (learned_list self.new) }
        ensures width { self.new.width ≡ self.old.width }
    {
        keep_active(&self.clauses, &mut self.activities, &mut self.spare);
        mem::swap(&mut self.clauses, &mut self.spare);
    }
}

/// Copies the more active half of some clauses, and lets their activities follow.
fn keep_active(from: &Clauses, activities: &mut Activities, to: &mut Clauses)
    ensures contained { All (Contains from.now.list) to.new.list }
    ensures literal_room { to.old.literal_room ≤ to.new.literal_room }
    ensures clause_room { to.old.clause_room ≤ to.new.clause_room }
{
    let bound = activities.median(from.len());
    to.clear();
    for slot in 0..from.len() {
        keep_clause(from, slot, bound, activities, to);
    }
}

/// Copies the clause of a slot where it is held or its activity is not below a bound.
fn keep_clause(
    from: &Clauses,
    slot: usize,
    bound: u64,
    activities: &mut Activities,
    to: &mut Clauses,
)
    requires { slot < length from.now.list }
    ensures contained { All (Contains from.now.list) to.old.list →
        All (Contains from.now.list) to.new.list }
    ensures literal_room { to.old.literal_room ≤ to.new.literal_room }
    ensures clause_room { to.old.clause_room ≤ to.new.clause_room }
{
    if activities.keeps(slot, bound, from.clause(slot).len()) {
        activities.follow(slot, to.len());
        copy_clause(from, slot, to);
    }
}

/// Puts the clause of a slot behind others, where there is room for it.
fn copy_clause(from: &Clauses, slot: usize, to: &mut Clauses)
    requires { slot < length from.now.list }
    ensures contained { All (Contains from.now.list) to.old.list →
        All (Contains from.now.list) to.new.list }
    ensures literal_room { to.old.literal_room ≤ to.new.literal_room }
    ensures clause_room { to.old.clause_room ≤ to.new.clause_room }
{
    let clause = from.clause(slot);
    if to.has_room(clause.len()) {
        to.push_within(clause);
    }
}
