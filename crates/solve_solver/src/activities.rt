//! Which learned clauses had part in late conflicts.

use std::alloc::{AllocError, Global};

/// By how much an activity is bumped at first.
const FIRST_STEP: u64 = 1024;

/// The step grows by this part of it with each clause that is learned.
const DECAY: u64 = 1024;

/// Beyond this step the step and the activities are scaled down.
const LARGEST_STEP: u64 = 1 << 48;

/// What the step and the activities are divided by then.
const SCALE: u64 = 1 << 32;

/// How many literals a clause has that is kept whatever its activity.
const SHORT: usize = 2;

/// How often the median is sought closer: once for each bit of an activity.
const HALVINGS: u32 = 64;

/// How much part each learned clause had in conflicts, the late ones counting most. No proof rests
/// on it.
#[derive(Drop)]
pub struct Activities {
    /// By the slots of the clauses.
    scores: Vec<u64>,
    step: u64,
    /// While clauses are forgotten: the slots that those get which are kept. Before it is known, a
    /// clause that is to be kept whatever its activity has its own.
    moves: Vec<Option<usize>>,
}

impl Activities {
    /// No part of any clause, for so many slots.
    pub fn new(alloc: Global, slots: usize) -> Result<Activities, AllocError> {
        Ok(Activities {
            scores: vec![in alloc; 0; slots]?,
            step: FIRST_STEP,
            moves: vec![in alloc; None; slots]?,
        })
    }

    /// Lets a slot have a clause that was learned now, and lets earlier conflicts count less.
    pub fn enter(&mut self, slot: usize) {
        self.decay();
        self.set(slot, self.step);
    }

    /// Bumps the activity of a slot.
    pub fn bump(&mut self, slot: usize) {
        let score = self.score(slot);
        self.set(slot, score.saturating_add(self.step));
    }

    /// Whether the clause of a slot, which has so many literals, is to be kept where half of them
    /// are: one of few literals, one that is held, or one whose activity is not below a bound.
    pub fn keeps(&self, slot: usize, bound: u64, literals: usize) -> bool {
        literals <= SHORT || self.score(slot) >= bound || self.moved(slot).is_some()
    }

    /// Lets the clause of a slot be kept whatever its activity.
    pub fn hold(&mut self, slot: usize) {
        self.move_to(slot, slot);
    }

    /// The slot that the clause of a slot got, where it was kept.
    pub fn moved(&self, slot: usize) -> Option<usize> {
        if slot < self.moves.len() {
            self.moves[slot]
        } else {
            None
        }
    }

    /// Holds no clause any more.
    pub fn release(&mut self) {
        self.moves.fill(None);
    }

    /// Lets a slot have the activity of another, whose clause it gets.
    pub fn follow(&mut self, from: usize, to: usize) {
        let score = self.score(from);
        self.set(to, score);
        self.move_to(from, to);
    }

    /// The middle one of the activities of so many slots.
    pub fn median(&self, slots: usize) -> u64 {
        let mut low = 0;
        let mut high = u64::MAX;
        for _ in 0..HALVINGS {
            let middle = low / 2 + high / 2;
            if self.count_below(slots, middle) > slots / 2 {
                high = middle;
            } else {
                low = middle;
            }
        }
        low
    }

    /// How many of so many slots have an activity below a bound.
    fn count_below(&self, slots: usize, bound: u64) -> usize {
        let mut count: usize = 0;
        for slot in 0..slots {
            count = count.saturating_add(usize::from(self.score(slot) < bound));
        }
        count
    }

    /// Notes where the clause of a slot goes.
    fn move_to(&mut self, from: usize, to: usize) {
        if from < self.moves.len() {
            self.moves[from] = Some(to);
        }
    }

    /// A slot's score, 0 behind the last.
    fn score(&self, slot: usize) -> u64 {
        if slot < self.scores.len() {
            self.scores[slot]
        } else {
            0
        }
    }

    /// Sets a slot's score.
    fn set(&mut self, slot: usize, score: u64) {
        if slot < self.scores.len() {
            self.scores[slot] = score;
        }
    }

    /// Lets earlier conflicts count less against later ones.
    fn decay(&mut self) {
        self.step = self.step.saturating_add(self.step / DECAY);
        if self.step > LARGEST_STEP {
            for score in self.scores.iter_mut() {
                *score /= SCALE;
            }
            self.step /= SCALE;
        }
    }
}
