//! Which clauses are looked at where a literal becomes false.

ghost use Rattle.std.specs.Prelude.{◌≡◌, ℕ, ◌<◌, ◌≤◌, ◌+◌, ◌*◌, ◌^◌, length, All, IfOk, IfSome, OnOk, OnErr, Some, None, if◌then◌else◌};
ghost use Rattle.solve_solver.specs.Clauses.{IsWithin};
ghost use Rattle.solve_solver.specs.Learned.{learned_list};
ghost use Rattle.solve_solver.specs.Watches.{IsLookAt, IsMet, clause_in};

use crate::clauses::Clauses;
use crate::learned::Learned;
use crate::limits::TOO_MANY;
use crate::literal::PLit;
use crate::looking::{Look, latest_two, look_into};
use crate::reason::Reason;
use crate::trail::Trail;
use crate::units::ClauseState;
use link_arena::Rings;
use std::alloc::{AllocError, Global};
use std::marker::Model;
use std::mem;

/// How many more clauses have room once there is none for one that is added.
const FEWEST_MORE: usize = 64;

/// What a look at a clause met: a conflict or a unit and its clause, or `Open`.
#[derive(Clone, Copy)]
pub struct Step {
    pub state: ClauseState,
    pub reason: Reason,
}

impl Step {
    /// Neither a conflict nor a unit.
    pub fn open() -> Step
        ensures { result ≡ record { state = ClauseState.Open; reason = Reason.Unknown } }
    {
        Step {
            state: ClauseState::Open,
            reason: Reason::Unknown,
        }
    }
}

/// Of each literal the clauses that watch it. A clause watches two of its literals, and is looked
/// at where one of them becomes false: it then watches another literal, or is a unit or in
/// conflict. Which clauses are looked at rests on no proof; what a look answers does. The clauses
/// that were learned have the first slots, and those that are given follow. Contracts see the
/// number of variables and that of the first slots.
#[derive(Drop)]
pub struct Watches {
    alloc: Global,
    vars: u32,
    learned: usize,
    /// A list for each literal, and two nodes for each slot.
    rings: Rings,
    /// The literal in whose list a node is.
    watched: Vec<PLit>,
    /// How many literals of the trail were taken, the last of them maybe in part.
    head: usize,
    /// The next node of the last of them.
    at: Option<u32>,
}

impl Model for Watches {
    ghost use Rattle.std.specs.Prelude.{length};
    ghost use Rattle.solve_solver.specs.Watches.{WatchesView, AreWatches};

    ghost Value = { WatchesView };

    ghost view = { λ w. record { vars = w.vars; learned = w.learned } };

    ghost invariant = { λ w. AreWatches w.vars w.learned
        (length w.rings.lists) w.rings.nodes w.watched.items };
}

impl Watches {
    /// The watches of these clauses, with so many slots for those that will be learned.
    pub fn new(
        alloc: Global,
        vars: u32,
        learned: usize,
        clauses: &Clauses,
    ) -> Result<Watches, AllocError>
        requires few_vars { vars < TOO_MANY }
        requires few_learned { learned < 2 ^ 20 }
        requires few_clauses { length clauses.now.list < TOO_MANY }
        requires within { All (IsWithin vars) clauses.now.list }
        ensures { IfOk result (λ w. w ≡ record { vars = vars; learned = learned }) }
    {
        let mut watches = Watches::empty(alloc, vars, learned, clauses.len())?;
        for place in 0..clauses.len() {
            watches.attach(learned + place, clauses.clause(place));
        }
        Ok(watches)
    }

    /// No watches, with so many slots of each kind.
    fn empty(alloc: Global, vars: u32, learned: usize, given: usize) -> Result<Watches, AllocError>
        requires few_vars { vars < TOO_MANY }
        requires few_learned { learned < 2 ^ 20 }
        requires few_given { given < TOO_MANY }
        ensures { IfOk result (λ w. w ≡ record { vars = vars; learned = learned }) }
    {
        let nodes = if vars == 0 { 0 } else { 2 * (learned + given) };
        let none = PLit {
            var: 0,
            plus: false,
        };
        let rings = Rings::new(alloc, 2 * vars as usize, nodes)?;
        let watched = vec![in alloc; none; nodes]?;
        Ok(Watches {
            alloc,
            vars,
            learned,
            rings,
            watched,
            head: 0,
            at: None,
        })
    }

    /// Has slots for so many given clauses, and so for one that is added.
    pub fn reserve(&mut self, given: usize) -> Result<(), AllocError>
        requires { given < TOO_MANY }
        ensures { self.new ≡ self.old }
    {
        if 2 * (self.learned + given) > self.watched.len() {
            self.grow(given + given / 2 + FEWEST_MORE)?;
        }
        Ok(())
    }

    /// Takes memory for so many given clauses, at most as many as there may be.
    fn grow(&mut self, given: usize) -> Result<(), AllocError>
        ensures { self.new ≡ self.old }
    {
        let given = given.min(TOO_MANY - 1);
        let mut larger = Watches::empty(self.alloc, self.vars, self.learned, given)?;
        for node in 0..self.watched.len() {
            if self.rings.is_linked(node as u32) {
                larger.put(node, self.watched[node]);
            }
        }
        mem::swap(&mut self.rings, &mut larger.rings);
        mem::swap(&mut self.watched, &mut larger.watched);
        Ok(())
    }

    /// Lets the clause of a slot watch its first literal, and the first that differs from it.
    pub fn attach(&mut self, slot: usize, clause: &[PLit])
        requires { IsWithin self.old.vars clause.now }
        ensures { self.new ≡ self.old }
    {
        let Some(first) = clause.first() else {
            return;
        };
        self.watch(slot, *first, second_of(clause, *first));
    }

    /// Lets the clause of a slot watch two literals.
    pub fn watch(&mut self, slot: usize, first: PLit, second: PLit)
        requires first { first.var < self.old.vars }
        requires second { second.var < self.old.vars }
        ensures { self.new ≡ self.old }
    {
        if slot < self.watched.len() / 2 {
            self.put(2 * slot, first);
            self.put(2 * slot + 1, second);
        }
    }

    /// Lets a given clause watch two literals.
    pub fn watch_given(&mut self, place: usize, first: PLit, second: PLit)
        requires first { first.var < self.old.vars }
        requires second { second.var < self.old.vars }
        ensures { self.new ≡ self.old }
    {
        self.watch(self.learned.saturating_add(place), first, second);
    }

    /// Lets each learned clause watch its latest literals by its slot, and no other clause by one
    /// of the first slots.
    pub fn watch_learned(&mut self, trail: &Trail, learned: &Learned)
        requires vars { trail.now.vars ≡ self.old.vars }
        requires within { All (IsWithin trail.now.vars) (learned_list learned.now) }
        ensures { self.new ≡ self.old }
    {
        self.turn_back();
        self.detach_learned();
        for slot in 0..learned.len() {
            self.watch_latest(slot, trail, learned);
        }
    }

    /// Lets the learned clause of a slot watch its latest literals.
    fn watch_latest(&mut self, slot: usize, trail: &Trail, learned: &Learned)
        requires vars { trail.now.vars ≡ self.old.vars }
        requires within { All (IsWithin trail.now.vars) (learned_list learned.now) }
        ensures { self.new ≡ self.old }
    {
        let Some(clause) = learned.clause(slot) else {
            return;
        };
        if let Some((first, second)) = latest_two(trail, clause) {
            self.watch(slot, first, second);
        }
    }

    /// Takes the literal that was taken in part from the beginning again.
    fn turn_back(&mut self)
        ensures { self.new ≡ self.old }
    {
        if self.at.is_some() {
            self.at = None;
            self.head = self.head.saturating_sub(1);
        }
    }

    /// Takes the nodes of the first slots out of their lists.
    fn detach_learned(&mut self)
        ensures { self.new ≡ self.old }
    {
        for node in 0..2 * self.learned {
            self.detach(node);
        }
    }

    /// Takes a node out of its list.
    fn detach(&mut self, node: usize)
        ensures { self.new ≡ self.old }
    {
        if node < self.watched.len() {
            let node = node as u32;
            if self.rings.is_linked(node) {
                self.rings.unlink(node);
            }
        }
    }

    /// Puts a node into the list of a literal.
    fn put(&mut self, node: usize, literal: PLit)
        requires within { literal.var < self.old.vars }
        ensures { self.new ≡ self.old }
    {
        if node < self.watched.len() {
            self.watched[node] = literal;
            let list = list_of(literal);
            let node = node as u32;
            if self.rings.is_linked(node) {
                self.rings.move_to(list, node);
            } else {
                self.rings.push_back(list, node);
            }
        }
    }

    /// Goes back to a trail of so many literals, which is a front of the one that was looked at.
    pub fn rewind(&mut self, len: usize)
        ensures { self.new ≡ self.old }
    {
        if len < self.head {
            self.head = len;
            self.at = None;
        }
    }

    /// Looks at the clauses that watch literals which became false, until one is in conflict or a
    /// unit. Those that were learned are left out unless they are to be used.
    pub fn find(
        &mut self,
        trail: &Trail,
        given: &Clauses,
        learned: &Learned,
        uses_learned: bool,
    ) -> Step
        requires vars { trail.now.vars ≡ self.old.vars }
        requires given_within { All (IsWithin trail.now.vars) given.now.list }
        requires learned_within { All (IsWithin trail.now.vars) (learned_list learned.now) }
        ensures same { self.new ≡ self.old }
        ensures met { let used = if uses_learned then Some learned.now else None in
            IsMet trail.now.entries (clause_in given.now.list used result.reason) result.state }
    {
        let step = self.walk(trail, given, learned, uses_learned);
        match step.state {
            ClauseState::Open => self.walk_on(trail, given, learned, uses_learned),
            _ => step,
        }
    }

    /// The same along the lists of the literals that were not taken yet.
    fn walk_on(
        &mut self,
        trail: &Trail,
        given: &Clauses,
        learned: &Learned,
        uses_learned: bool,
    ) -> Step
        requires vars { trail.now.vars ≡ self.old.vars }
        requires given_within { All (IsWithin trail.now.vars) given.now.list }
        requires learned_within { All (IsWithin trail.now.vars) (learned_list learned.now) }
        ensures same { self.new ≡ self.old }
        ensures met { let used = if uses_learned then Some learned.now else None in
            IsMet trail.now.entries (clause_in given.now.list used result.reason) result.state }
    {
        for place in self.head..trail.len() {
            self.head = place + 1;
            self.at = self
                .rings
                .first(list_of(trail.entry(place).literal.opposite()));
            let step = self.walk(trail, given, learned, uses_learned);
            match step.state {
                ClauseState::Open => (),
                _ => return step,
            }
        }
        Step::open()
    }

    /// The same along the rest of one list.
    fn walk(
        &mut self,
        trail: &Trail,
        given: &Clauses,
        learned: &Learned,
        uses_learned: bool,
    ) -> Step
        requires vars { trail.now.vars ≡ self.old.vars }
        requires given_within { All (IsWithin trail.now.vars) given.now.list }
        requires learned_within { All (IsWithin trail.now.vars) (learned_list learned.now) }
        ensures same { self.new ≡ self.old }
        ensures met { let used = if uses_learned then Some learned.now else None in
            IsMet trail.now.entries (clause_in given.now.list used result.reason) result.state }
    {
        for _ in 0..self.watched.len() {
            let Some(node) = self.at else {
                break;
            };
            self.at = self.behind(node);
            let step = self.visit(node as usize, trail, given, learned, uses_learned);
            match step.state {
                ClauseState::Open => (),
                _ => return step,
            }
        }
        self.at = None;
        Step::open()
    }

    /// The node behind this one in its list, if there is one.
    fn behind(&self, node: u32) -> Option<u32> {
        if (node as usize) < self.watched.len() && self.rings.is_linked(node) {
            self.rings.next(node)
        } else {
            None
        }
    }

    /// Looks at the clause of a node, unless its other watched literal is true.
    fn visit(
        &mut self,
        node: usize,
        trail: &Trail,
        given: &Clauses,
        learned: &Learned,
        uses_learned: bool,
    ) -> Step
        requires vars { trail.now.vars ≡ self.old.vars }
        requires given_within { All (IsWithin trail.now.vars) given.now.list }
        requires learned_within { All (IsWithin trail.now.vars) (learned_list learned.now) }
        ensures same { self.new ≡ self.old }
        ensures met { let used = if uses_learned then Some learned.now else None in
            IsMet trail.now.entries (clause_in given.now.list used result.reason) result.state }
    {
        let Some(other) = self.other(node) else {
            return Step::open();
        };
        if trail.is_true(other) {
            return Step::open();
        }
        let reason = self.reason_of(node / 2);
        let looked = look_at(trail, given, learned, uses_learned, reason, other);
        match looked {
            Look::Moves(literal) => {
                self.put(node, literal);
                Step::open()
            }
            Look::Stays(state) => Step { state, reason },
        }
    }

    /// The literal that the other node of the same slot watches.
    fn other(&self, node: usize) -> Option<PLit>
        ensures { IfSome result (λ l. l.var < self.now.vars) }
    {
        if node >= self.watched.len() {
            return None;
        }
        if node % 2 == 1 {
            return Some(self.watched[node - 1]);
        }
        if node + 1 < self.watched.len() {
            Some(self.watched[node + 1])
        } else {
            None
        }
    }

    /// The clause of a slot.
    fn reason_of(&self, slot: usize) -> Reason {
        if slot < self.learned {
            Reason::Learned(slot)
        } else {
            Reason::Given(slot - self.learned)
        }
    }
}

/// The list of a literal.
fn list_of(literal: PLit) -> u32
    requires { literal.var < TOO_MANY }
    ensures { result < 2 * literal.var + 2 }
{
    2 * literal.var + u32::from(literal.plus)
}

/// The first literal of a clause that is another than this one, or this one.
fn second_of(clause: &[PLit], first: PLit) -> PLit
    ensures { (vars : ℕ) → first.var < vars → IsWithin vars clause.now → result.var < vars }
{
    for literal in clause {
        if *literal != first {
            return *literal;
        }
    }
    first
}

/// What a look at the clause of a reason shows. A clause that is not there stays where it is.
fn look_at(
    trail: &Trail,
    given: &Clauses,
    learned: &Learned,
    uses_learned: bool,
    reason: Reason,
    other: PLit,
) -> Look
    requires given_within { All (IsWithin trail.now.vars) given.now.list }
    requires learned_within { All (IsWithin trail.now.vars) (learned_list learned.now) }
    requires other { other.var < trail.now.vars }
    ensures { let used = if uses_learned then Some learned.now else None in
        IsLookAt trail.now.vars trail.now.entries (clause_in given.now.list used reason) result }
{
    match reason {
        Reason::Given(place) => match given.get(place) {
            Some(clause) => look_into(trail, clause, other),
            None => Look::Stays(ClauseState::Open),
        },
        Reason::Learned(slot) => {
            if !uses_learned {
                return Look::Stays(ClauseState::Open);
            }
            match learned.clause(slot) {
                Some(clause) => look_into(trail, clause, other),
                None => Look::Stays(ClauseState::Open),
            }
        }
        Reason::Unknown => Look::Stays(ClauseState::Open),
    }
}
