//! Which learned clauses are kept.

ghost use Rattle.std.specs.Prelude.{◌≡◌, length, All};
ghost use Rattle.std.specs.List.{Contains};
ghost use Rattle.solve_solver.specs.Learned.{learned_list};

use super::Learner;
use crate::learned::Learned;
use crate::reason::Reason;
use crate::trail::Trail;
use solve_theory::Theory;

impl<T: Theory> Learner<T> {
    /// Forgets about half of the clauses that were learned, where there are more than are to be
    /// kept while so many variables are set, and none by which a literal was set. The others get
    /// other slots, by which the reasons name them then.
    pub fn reduce(&mut self, set: usize)
        ensures kept { self.new ≡ record self.old {
          learned = self.new.learned;
          reasons = self.new.reasons;
        } }
        ensures fewer { All (Contains (learned_list self.old.learned))
            (learned_list self.new.learned) }
    {
        if self.learned.is_crowded(set) {
            self.hold_reasons();
            self.forget();
            self.move_reasons();
        }
    }

    /// Lets the clauses by which literals were set be kept.
    fn hold_reasons(&mut self)
        ensures { self.new ≡ self.old }
    {
        hold_reasons(
            self.state.trail(),
            self.reasons.as_slice(),
            &mut self.learned,
        );
    }

    /// Lets the reasons name the clauses that were kept by the slots that these got.
    fn move_reasons(&mut self)
        ensures { self.new ≡ record self.old { reasons = self.new.reasons } }
    {
        move_reasons(
            self.state.trail(),
            &self.learned,
            self.reasons.as_mut_slice(),
        );
        self.learned.release();
    }

    /// Forgets about half of the clauses that were learned, and lets the others be watched by the
    /// slots that they get.
    fn forget(&mut self)
        ensures kept { self.new ≡ record self.old { learned = self.new.learned } }
        ensures fewer { All (Contains (learned_list self.old.learned))
            (learned_list self.new.learned) }
    {
        self.learned.reduce();
        self.watches
            .watch_learned(self.state.trail(), &self.learned);
    }
}

/// Lets the clauses be kept that are the reasons of literals which are set and were not decided.
fn hold_reasons(trail: &Trail, reasons: &[Reason], learned: &mut Learned)
    requires { length reasons.now ≡ trail.now.vars }
    ensures { learned.new ≡ learned.old }
{
    for place in 0..trail.len() {
        let entry = trail.entry(place);
        if !entry.decided {
            learned.hold(reasons[entry.literal.var as usize]);
        }
    }
}

/// Lets the reasons of the literals that are set name their clauses by the slots that these got.
fn move_reasons(trail: &Trail, learned: &Learned, reasons: &mut [Reason])
    requires { length reasons.old ≡ trail.now.vars }
    ensures { length reasons.new ≡ length reasons.old }
{
    for place in 0..trail.len() {
        let var = trail.entry(place).literal.var as usize;
        reasons[var] = learned.moved(reasons[var]);
    }
}
