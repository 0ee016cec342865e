//! Numbers and clauses that look random.

ghost use Rattle.std.specs.Prelude.{◌≡◌, ◌<◌, ◌≤◌, All, IfOk};
ghost use Rattle.solve_solver.specs.Clauses.{IsWithin};

use crate::tests::mixed::Difference;
use solve_solver::PLit;
use std::alloc::{AllocError, Global};

/// Numbers that look random, by a linear congruence.
#[derive(Drop)]
pub struct Random(pub u64);

impl Random {
    /// A number below `end`.
    pub fn below(&mut self, end: u32) -> u32
        requires { 0 < end }
        ensures { result < end }
    {
        self.0 = self
            .0
            .wrapping_mul(6_364_136_223_846_793_005)
            .wrapping_add(1_442_695_040_888_963_407);
        ((self.0 >> 33) % u64::from(end)) as u32
    }

    /// A clause of `width` literals.
    fn clause(&mut self, alloc: Global, vars: u32, width: u32) -> Result<Vec<PLit>, AllocError>
        requires { 0 < vars }
        ensures { IfOk result (λ c. IsWithin vars c.items) }
    {
        let mut clause = Vec::new(alloc);
        for _ in 0..width {
            let var = self.below(vars);
            let plus = self.below(2) == 0;
            clause.push(PLit { var, plus })?;
        }
        Ok(clause)
    }

    /// Clauses of one to three literals.
    pub fn clauses(
        &mut self,
        alloc: Global,
        vars: u32,
        count: u32,
    ) -> Result<Vec<Vec<PLit>>, AllocError>
        requires { 0 < vars }
        ensures { IfOk result (λ cs. All (λ c. IsWithin vars c.items) cs.items) }
    {
        let mut clauses = Vec::new(alloc);
        for _ in 0..count {
            let width = 1 + self.below(3);
            clauses.push(self.clause(alloc, vars, width)?)?;
        }
        Ok(clauses)
    }

    /// A bound from -2 to 2 on the difference of two of three numbers.
    pub fn difference(&mut self) -> Difference {
        let x = self.below(3);
        let y = self.below(3);
        let c = self.below(5) as i32 - 2;
        Difference { x, y, c }
    }
}
