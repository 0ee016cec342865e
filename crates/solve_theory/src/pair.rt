//! Two theories as one.
ghost use Rattle.std.specs.Prelude.{◌≡◌, ◌+◌, ◌-◌, ◌<◌, ◌≤◌, ◌^◌, [], ◌∷◌, ◌++◌, length, map};
ghost use Rattle.std.specs.Prelude.{slice_index, take, All, IfOk};

use crate::{LitBuf, Theory, push_within};
use std::alloc::{AllocError, Global};
use std::marker::Model;

/// A literal of one of two theories.
#[derive(Clone, Copy, PartialEq, Eq, Debug)]
pub enum PairLit<L, R> {
    /// A literal of the left one.
    Left(L),
    /// A literal of the right one.
    Right(R),
}

/// Which of two theories.
#[derive(Clone, Copy)]
pub enum Side {
    Left,
    Right,
}

/// Two theories side by side, that share nothing. A model is a pair of one of each.
///
/// Each literal goes to its own theory, and a conflict is one of the theory to which the last
/// literal went.
#[derive(Drop)]
pub struct Pair<A: Theory, B: Theory> {
    left: A,
    right: B,
    /// Which theory each literal went to.
    sides: Vec<Side>,
    /// The positions of the left theory's literals.
    left_places: Vec<u32>,
    /// The positions of the right theory's literals.
    right_places: Vec<u32>,
    /// For the conflicts of the two.
    core: LitBuf<u32>,
    limit: usize,
}

impl<A: Theory, B: Theory> Model for Pair<A, B> {
    ghost use Rattle.std.specs.Prelude.{vec_capacity};
    ghost use Rattle.solve_theory.specs.Pair.{PairState, pair_state_code};

    ghost Value = { PairState A B };

    ghost coded = { pair_state_code A.code B.code };

    ghost use Rattle.solve_theory.specs.PairSides.{IsSoundPair};

    ghost view = { λ p.
        record { left = p.left; right = p.right; sides = p.sides.items; capacity = p.limit } };

    ghost invariant = { λ p. IsSoundPair (A.models p.left) A.meets (A.literals p.left)
        (A.capacity p.left)
        (B.models p.right) B.meets (B.literals p.right) (B.capacity p.right)
        p.sides.items p.left_places.items p.right_places.items p.limit
        (vec_capacity p.sides) (vec_capacity p.left_places)
        (vec_capacity p.right_places) p.core.capacity };
}

impl<A: Theory + Drop, B: Theory + Drop> Pair<A, B> {
    /// The pair of two theories that have nothing asserted and room for `capacity` literals each,
    /// with room for as many in all.
    pub fn new(alloc: Global, left: A, right: B, capacity: usize) -> Result<Pair<A, B>, AllocError>
        requires capacity_fits { capacity < 2 ^ 32 }
        requires left_empty { A.literals left ≡ [] }
        requires right_empty { B.literals right ≡ [] }
        requires left_capacity { A.capacity left ≡ capacity }
        requires right_capacity { B.capacity right ≡ capacity }
        ensures { IfOk result (λ p. p
            ≡ record { left = left; right = right; sides = []; capacity = capacity }) }
    {
        let sides = Vec::with_capacity(alloc, capacity)?;
        let left_places = Vec::with_capacity(alloc, capacity)?;
        let right_places = Vec::with_capacity(alloc, capacity)?;
        let core = LitBuf::new(alloc, capacity)?;
        Ok(Pair {
            left,
            right,
            sides,
            left_places,
            right_places,
            core,
            limit: capacity,
        })
    }
}

impl<A: Theory, B: Theory> Pair<A, B> {
    ghost use Rattle.solve_theory.specs.Pair.{in_order};

    /// Takes the last literal back.
    fn undo_one(&mut self)
        requires { 0 < length self.old.sides }
        ensures list { let all = in_order self.old.sides (A.literals self.old.left)
            (B.literals self.old.right) in
            in_order self.new.sides (A.literals self.new.left) (B.literals self.new.right)
            ≡ take (length all - 1) all }
        ensures sides { length self.new.sides + 1 ≡ length self.old.sides }
        ensures capacity { self.new.capacity ≡ self.old.capacity }
        ensures left_takes { A.takes self.new.left ≡ A.takes self.old.left }
        ensures right_takes { B.takes self.new.right ≡ B.takes self.old.right }
        ensures left_models { A.models self.new.left ≡ A.models self.old.left }
        ensures right_models { B.models self.new.right ≡ B.models self.old.right }
    {
        match self.sides.pop() {
            None => (),
            Some(Side::Left) => {
                self.left_places.pop();
                self.left.undo(1);
            }
            Some(Side::Right) => {
                self.right_places.pop();
                self.right.undo(1);
            }
        }
    }
}

impl<A: Theory, B: Theory> Theory for Pair<A, B> {
    type Lit = PairLit<A::Lit, B::Lit>;

    type Model = (A::Model, B::Model);

    ghost use Rattle.solve_theory.specs.Pair.{in_order, takes_own, are_models, meets_own};

    ghost literals = { λ p. in_order p.sides (A.literals p.left) (B.literals p.right) };

    ghost capacity = { λ p. p.capacity };

    ghost takes = { λ p. takes_own (A.takes p.left) (B.takes p.right) };

    ghost models = { λ p. are_models (A.models p.left) (B.models p.right) };

    ghost meets = { meets_own A.meets B.meets };

    fn assert(&mut self, l: PairLit<A::Lit, B::Lit>) -> bool {
        let position = self.sides.len() as u32;
        match l {
            PairLit::Left(literal) => {
                push_within(&mut self.sides, Side::Left);
                push_within(&mut self.left_places, position);
                self.left.assert(literal)
            }
            PairLit::Right(literal) => {
                push_within(&mut self.sides, Side::Right);
                push_within(&mut self.right_places, position);
                self.right.assert(literal)
            }
        }
    }

    fn undo(&mut self, n: usize) {
        for _taken in 0..n {
            self.undo_one();
        }
    }

    fn asserted(&self) -> usize {
        self.sides.len()
    }

    fn conflict(&mut self, out: &mut LitBuf<u32>) {
        match self.sides.last() {
            Some(Side::Left) => {
                self.left.conflict(&mut self.core);
                translate(self.core.items(), self.left_places.as_slice(), out);
            }
            Some(Side::Right) => {
                self.right.conflict(&mut self.core);
                translate(self.core.items(), self.right_places.as_slice(), out);
            }
            None => out.clear(),
        }
    }

    fn model(&self) -> Result<(A::Model, B::Model), AllocError> {
        let left = self.left.model()?;
        let right = self.right.model()?;
        Ok((left, right))
    }

    fn is_met(&self, l: PairLit<A::Lit, B::Lit>) -> bool {
        match l {
            PairLit::Left(literal) => self.left.is_met(literal),
            PairLit::Right(literal) => self.right.is_met(literal),
        }
    }

    ghost use Rattle.solve_theory.specs.PairLaw.{empty_has_pair};

    ghost empty_has_model = { λ p. empty_has_pair (A.empty_has_model p.left)
        (B.empty_has_model p.right) };
}

/// Writes the places of these numbers into `out`, in place of what it held.
fn translate(numbers: &[u32], places: &[u32], out: &mut LitBuf<u32>)
    requires within { All (λ k. k < length places.now) numbers.now }
    requires room { length numbers.now ≤ out.old.capacity }
    ensures items { out.new.items ≡ map (slice_index places.now) numbers.now }
    ensures capacity { out.new.capacity ≡ out.old.capacity }
{
    out.clear();
    for number in numbers {
        out.push(places[*number as usize]);
    }
}
