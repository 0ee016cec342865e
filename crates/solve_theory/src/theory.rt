//! The trait that each decision procedure meets.
ghost use Rattle.std.specs.Prelude.{◌≡◌, ℕ, ◌-◌, ◌<◌, ◌≤◌, ◌↔◌, Bool, List, [], ◌∷◌, ◌++◌, length};
ghost use Rattle.std.specs.Prelude.{take, IsTrue, IfOk};
ghost use Rattle.solve_theory.specs.Models.{IsModelOf, HasModel, HasModelSaying, IsCore};

use crate::lit_buf::LitBuf;
use std::alloc::AllocError;

/// A decision procedure for conjunctions of literals, as the clause solver uses it.
///
/// A theory keeps the list of the literals asserted so far, from position 0 on. It has room for a
/// fixed number of them, its capacity, and speaks of the terms or variables that its constructor
/// was given: these decide which literals it takes and which values are its models. A call changes
/// the list alone. No call but `model` takes memory.
pub trait Theory {
    /// What is asserted.
    type Lit: Copy;

    /// What makes literals true or false.
    type Model: Drop;

    // The literals asserted so far, the oldest first.
    ghost literals: { Self → List Self.Lit };

    // How many literals there can be.
    ghost capacity: { Self → ℕ };

    // Whether the theory takes a literal.
    ghost takes: { Self → Self.Lit → Bool };

    // Whether a value is a model of the theory.
    ghost models: { Self → Self.Model → Bool };

    // Whether a model meets a literal, which no theory's state changes.
    ghost meets: { Self.Model → Self.Lit → Bool };

    /// Appends `l`, and says whether the literals still have a model. After `false` the literal is
    /// in the list all the same: `conflict` says why there is no model, and `undo` takes it back.
    fn assert(&mut self, l: Self::Lit) -> bool
        requires has_model { HasModel (models self.old) meets (literals self.old) }
        requires room { length (literals self.old) < capacity self.old }
        requires taken { IsTrue (takes self.old l) }
        ensures verdict { IsTrue result ↔ HasModel (models self.new) meets (literals self.new) }
        ensures list { literals self.new ≡ literals self.old ++ l ∷ [] }
        ensures capacity { capacity self.new ≡ capacity self.old }
        ensures takes { takes self.new ≡ takes self.old }
        ensures models { models self.new ≡ models self.old };

    /// Takes the last `n` literals back.
    fn undo(&mut self, n: usize)
        requires { n ≤ length (literals self.old) }
        ensures list { literals self.new
            ≡ take (length (literals self.old) - n) (literals self.old) }
        ensures capacity { capacity self.new ≡ capacity self.old }
        ensures takes { takes self.new ≡ takes self.old }
        ensures models { models self.new ≡ models self.old };

    /// How many literals are asserted.
    fn asserted(&self) -> usize
        ensures { result ≡ length (literals self.now) };

    /// Puts the positions of some literals that together have no model into `out`, in place of
    /// what it held, each position once.
    fn conflict(&mut self, out: &mut LitBuf<u32>)
        requires no_model { ¬ HasModel (models self.old) meets (literals self.old) }
        requires room { length (literals self.old) ≤ out.old.capacity }
        ensures core { IsCore (models self.new) meets (literals self.new) out.new.items }
        ensures room { out.new.capacity ≡ out.old.capacity }
        ensures list { literals self.new ≡ literals self.old }
        ensures capacity { capacity self.new ≡ capacity self.old }
        ensures takes { takes self.new ≡ takes self.old }
        ensures models { models self.new ≡ models self.old };

    /// A model that meets each literal.
    fn model(&self) -> Result<Self::Model, AllocError>
        requires { HasModel (models self.now) meets (literals self.now) }
        ensures { IfOk result (IsModelOf (models self.now) meets (literals self.now)) };

    /// Whether some model of the asserted literals meets `l`, or some model does not: what the model
    /// says that the theory has at hand. Where it is met, `assert` of it finds a model.
    fn is_met(&self, l: Self::Lit) -> bool
        requires has_model { HasModel (models self.now) meets (literals self.now) }
        requires taken { IsTrue (takes self.now l) }
        ensures { HasModelSaying (models self.now) meets (literals self.now) l result };

    // A theory with nothing asserted has a model.
    ghost empty_has_model: { (s : Self) → HasModel (models s) meets [] };
}
