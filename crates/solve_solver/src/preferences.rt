//! Which variable is decided next, and how.

ghost use Rattle.std.specs.Prelude.{◌≡◌, ◌≢◌, ◌↔◌, ℕ, ◌<◌, ◌≤◌, None, IsTrue, IfOk, IfSome, MatchOption, false, length, replicate, slice_index, slice_index_or, slice_set};
ghost use Rattle.solve_solver.specs.Clauses.{IsWithin};
ghost use Rattle.solve_solver.specs.Preferences.{noted, bumped, bumped_all, scaled_down, decayed};
ghost use Rattle.solve_solver.specs.Trail.{value_in};

use crate::heap::Heap;
use crate::literal::PLit;
use crate::trail::Trail;
use std::alloc::{AllocError, Global};
use std::marker::Model;

/// By how much a score is bumped at first.
const FIRST_STEP: u64 = 1024;

/// Beyond this step the step and the scores are scaled down.
const LARGEST_STEP: u64 = 1 << 48;

/// What the step and the scores are divided by then.
const SCALE: u64 = 1 << 32;

/// Which variable is decided next, and how: the one that had most part in the latest conflicts, to
/// the value that it had last (Moskewicz et al., "Chaff", 2001; Pipatsrisawat and Darwiche, 2007),
/// if it is no atom: the theory says how those are decided.
/// Contracts see the score of each variable, from 0 to `u64::MAX`, the value that it had last, and
/// the step by which a score is bumped.
#[derive(Drop)]
pub struct Preferences {
    scores: Vec<u64>,
    values: Vec<bool>,
    step: u64,
    /// Those that may be unset, by their scores.
    heap: Heap,
}

impl Model for Preferences {
    ghost use Rattle.std.specs.Prelude.{◌≡◌, ◌<◌, ◌^◌, vec_len};
    ghost use Rattle.solve_solver.specs.Preferences.{PreferencesView};

    ghost Value = { PreferencesView };

    ghost view = { λ p. record { scores = p.scores.items; values = p.values.items; step = p.step } };

    ghost invariant = { λ p. (vec_len p.values ≡ vec_len p.scores) × (p.heap ≡ vec_len p.scores)
        × (vec_len p.scores < 2 ^ 32) };
}

impl Preferences {
    /// No preference among `vars` variables, to be false.
    pub fn new(alloc: Global, vars: u32) -> Result<Preferences, AllocError>
        ensures { IfOk result (λ p. p ≡ record {
          scores = replicate vars 0;
          values = replicate vars false;
          step = FIRST_STEP;
        }) }
    {
        let scores = vec![in alloc; 0; vars as usize]?;
        let values = vec![in alloc; false; vars as usize]?;
        Ok(Preferences {
            scores,
            values,
            step: FIRST_STEP,
            heap: Heap::new(alloc, vars)?,
        })
    }

    /// Notes the value that a variable has.
    pub fn note(&mut self, literal: PLit)
        requires { literal.var < length self.old.scores }
        ensures { self.new ≡ noted self.old literal }
    {
        self.values[literal.var as usize] = literal.plus;
    }

    /// Bumps the score of a variable that had part in a conflict.
    pub fn bump(&mut self, var: u32)
        requires { var < length self.old.scores }
        ensures { self.new ≡ bumped self.old var }
    {
        let score = self.scores[var as usize];
        self.scores[var as usize] = score.saturating_add(self.step);
        self.heap.bump(var, self.scores.as_slice());
    }

    /// Bumps the scores of the variables of a clause.
    pub fn bump_all(&mut self, clause: &[PLit])
        requires { IsWithin (length self.old.scores) clause.now }
        ensures { self.new ≡ bumped_all self.old clause.now }
    {
        for literal in clause {
            self.bump(literal.var);
        }
    }

    /// Lets earlier conflicts count less against later ones.
    pub fn decay(&mut self)
        ensures { self.new ≡ decayed self.old }
    {
        self.step = self.step.saturating_add(self.step / 16);
        if self.step > LARGEST_STEP {
            scale_down(self.scores.as_mut_slice());
            self.step /= SCALE;
        }
    }

    /// Lets a variable be decided again, which was set.
    pub fn offer(&mut self, var: u32)
        requires { var < length self.old.scores }
        ensures { self.new ≡ self.old }
    {
        self.heap.insert(var, self.scores.as_slice());
    }

    /// The literal of a variable that is not set, where there is one: of the first in the heap,
    /// with the value that it had last.
    pub fn choose(&mut self, trail: &Trail) -> Option<PLit>
        requires { trail.now.vars ≡ length self.old.scores }
        ensures same { self.new ≡ self.old }
        ensures unset { MatchOption result
            ((var : ℕ) → var < trail.now.vars → value_in trail.now.entries var ≢ None)
            (λ l. (l.var < trail.now.vars) × (value_in trail.now.entries l.var ≡ None)) }
        ensures last_value { IfSome result (λ l. l.plus
            ≡ slice_index_or self.old.values l.var false) }
    {
        for _ in 0..self.scores.len() {
            let Some(var) = self.heap.pop(self.scores.as_slice()) else {
                break;
            };
            if trail.value(var).is_none() {
                return Some(self.preferred(var));
            }
        }
        let var = self.first_unset(trail)?;
        Some(self.preferred(var))
    }

    /// The literal of a variable with the value that it had last.
    fn preferred(&self, var: u32) -> PLit
        requires { var < length self.now.scores }
        ensures { result ≡ record { var = var; plus = slice_index_or self.now.values var false } }
    {
        let plus = self.values[var as usize];
        PLit { var, plus }
    }

    /// The first variable that is not set, where there is one.
    fn first_unset(&self, trail: &Trail) -> Option<u32>
        requires { trail.now.vars ≡ length self.now.scores }
        ensures { MatchOption result
            ((var : ℕ) → var < trail.now.vars → value_in trail.now.entries var ≢ None)
            (λ var. (var < trail.now.vars) × (value_in trail.now.entries var ≡ None)) }
    {
        for index in 0..self.scores.len() {
            let var = index as u32;
            if trail.value(var).is_none() {
                return Some(var);
            }
        }
        None
    }
}

/// Divides each score by the scale.
fn scale_down(scores: &mut [u64])
    ensures { scores.new ≡ scaled_down scores.old }
{
    for score in scores.iter_mut() {
        *score /= SCALE;
    }
}
