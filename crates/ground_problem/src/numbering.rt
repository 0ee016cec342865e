//! Facts as variables.

ghost use Rattle.std.specs.Prelude.{◌≡◌, IfOk, OnOk, length};
ghost use Rattle.ground_problem.specs.Numbers.{AreLiterals, AreNumbers, IsNumber, KeepsFacts, Zips};

use crate::facts::{FactLiteral, FactNode};
use ground_gates::Literal;
use indexmap::IndexSet;
use std::alloc::{AllocError, Global};

/// Facts, which are the first variables.
#[derive(Drop)]
pub(crate) struct Numbering {
    pub(crate) facts: IndexSet<FactNode>,
}

impl Numbering {
    /// The variable of a fact. Four thousand million variables count as memory that is not there.
    fn variable(&mut self, fact: FactNode) -> Result<u32, AllocError>
        ensures kept { OnOk result (KeepsFacts self.old self.new) }
        ensures is { IfOk result (λ x. IsNumber self.new.facts.keys x fact) }
    {
        let (place, _) = self.facts.insert_full(fact)?;
        if place >= u32::MAX as usize {
            return Err(AllocError);
        }
        Ok(place as u32)
    }

    /// How many facts there are. Four thousand million count as memory that is not there.
    pub(crate) fn count(&self) -> Result<u32, AllocError>
        ensures { IfOk result (λ count. count ≡ length self.now.facts.keys) }
    {
        let count = self.facts.len();
        if count > u32::MAX as usize {
            return Err(AllocError);
        }
        Ok(count as u32)
    }

    /// The variables of some facts.
    pub(crate) fn variables(
        &mut self,
        alloc: Global,
        facts: &[FactNode],
    ) -> Result<Vec<u32>, AllocError>
        ensures kept { OnOk result (KeepsFacts self.old self.new) }
        ensures are { IfOk result (λ xs. AreNumbers self.new.facts.keys xs.items facts.now) }
    {
        let mut variables = Vec::new(alloc);
        for fact in facts {
            let variable = self.variable(*fact)?;
            variables.push(variable)?;
        }
        Ok(variables)
    }

    /// A clause on variables.
    fn clause(&mut self, alloc: Global, facts: &[FactLiteral]) -> Result<Vec<Literal>, AllocError>
        ensures kept { OnOk result (KeepsFacts self.old self.new) }
        ensures are { IfOk result (λ clause. AreLiterals self.new.facts.keys clause.items
            facts.now) }
    {
        let mut literals = Vec::new(alloc);
        for l in facts {
            let var = self.variable(l.fact)?;
            literals.push(Literal { var, plus: l.plus })?;
        }
        Ok(literals)
    }

    /// Clauses on variables.
    pub(crate) fn clauses(
        &mut self,
        alloc: Global,
        facts: &[Vec<FactLiteral>],
    ) -> Result<Vec<Vec<Literal>>, AllocError>
        ensures kept { OnOk result (KeepsFacts self.old self.new) }
        ensures are { IfOk result (λ clauses. Zips (λ c p. AreLiterals self.new.facts.keys
            c.items p.items) clauses.items facts.now) }
    {
        let mut clauses = Vec::new(alloc);
        for clause in facts {
            let literals = self.clause(alloc, clause.as_slice())?;
            clauses.push(literals)?;
        }
        Ok(clauses)
    }
}
