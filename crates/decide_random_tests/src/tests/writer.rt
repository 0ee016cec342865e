//! Formulas that look random.

use super::random::Random;
use super::signature::{FLAG, NUMBER, PARTIAL, RELATION, TOTAL};
use decide_trial::Forms;
use std::alloc::{AllocError, Global};

/// How many quantifiers stand below each other at most.
const MOST_QUANTIFIERS: u32 = 3;

/// How many connectives and quantifiers stand below each other at most.
const MOST_NESTED: u32 = 5;

/// A variable, and the sort of its quantifier.
#[derive(Clone, Copy)]
struct Variable {
    sort: u32,
    term: u32,
}

/// A formula that is being made, with the sorts of the quantifiers above, the outermost first.
#[derive(Drop)]
pub(crate) struct Writer {
    pub(crate) forms: Forms,
    random: Random,
    sorts: Vec<u32>,
}

impl Writer {
    /// No formula, and numbers that look random from this one on.
    pub(crate) fn new(alloc: Global, seed: u64) -> Result<Writer, AllocError> {
        Ok(Writer {
            forms: Forms::new(alloc)?,
            random: Random(seed),
            sorts: Vec::new(alloc),
        })
    }

    /// Some variable, or None where there is no quantifier above.
    fn variable(&mut self) -> Result<Option<Variable>, AllocError> {
        let drawn = self.random.below(MOST_QUANTIFIERS);
        let depth = if (drawn as usize) < self.sorts.len() {
            drawn
        } else {
            0
        };
        let Some(sort) = self.sorts.get(depth as usize) else {
            return Ok(None);
        };
        let sort = *sort;
        let term = self.forms.bound(sort, depth)?;
        Ok(Some(Variable { sort, term }))
    }

    /// An element of sort 1: a variable, or what a function gives at one.
    fn second(&mut self, variable: Variable) -> Result<u32, AllocError> {
        if variable.sort == 1 {
            return Ok(variable.term);
        }
        let function = if self.random.below(2) == 0 {
            TOTAL
        } else {
            PARTIAL
        };
        self.forms.app(function, variable.term)
    }

    /// A number: a small one, or that of an element.
    fn number(&mut self, variable: Variable) -> Result<u32, AllocError> {
        if self.random.below(3) == 0 {
            let n = self.random.below(2);
            return self.forms.num(i64::from(n));
        }
        let element = self.second(variable)?;
        self.forms.app(NUMBER, element)
    }

    /// What is said of an element of sort 0 alone.
    fn unary(&mut self, variable: Variable) -> Result<u32, AllocError> {
        if self.random.below(2) == 0 {
            return self.forms.flag(FLAG, variable.term);
        }
        self.forms.present(PARTIAL, variable.term)
    }

    /// That an element of sort 1 and a variable are related, or equal if both have this sort.
    fn binary(&mut self, left: Variable, right: Variable) -> Result<u32, AllocError> {
        let element = self.second(left)?;
        if right.sort == 0 {
            return self.forms.has(RELATION, element, right.term);
        }
        self.forms.equal(element, right.term)
    }

    /// That two elements of one sort are the same.
    fn same(&mut self, left: Variable, right: Variable) -> Result<u32, AllocError> {
        if left.sort == 0 && right.sort == 0 {
            return self.forms.equal(left.term, right.term);
        }
        let left = self.second(left)?;
        let right = self.second(right)?;
        self.forms.equal(left, right)
    }

    /// That two numbers are equal, or the first is below the second.
    fn compared(&mut self, left: Variable, right: Variable) -> Result<u32, AllocError> {
        let left = self.number(left)?;
        let right = self.number(right)?;
        if self.random.below(3) == 0 {
            return self.forms.equal(left, right);
        }
        self.forms.less(left, right)
    }

    /// An atom, or its negation.
    fn atom(&mut self) -> Result<u32, AllocError> {
        let (Some(left), Some(right)) = (self.variable()?, self.variable()?) else {
            return self.forms.yes();
        };
        let atom = match self.random.below(4) {
            0 if left.sort == 0 => self.unary(left)?,
            0 | 1 => self.same(left, right)?,
            2 => self.binary(left, right)?,
            _ => self.compared(left, right)?,
        };
        if self.random.below(2) == 0 {
            return self.forms.not(atom);
        }
        Ok(atom)
    }

    /// A formula under one more quantifier.
    #[cycle(formula)]
    fn quantified(&mut self, levels: u32) -> Result<u32, AllocError> {
        let sort = self.random.below(2);
        self.sorts.push(sort)?;
        let inner = self.formula(levels)?;
        self.sorts.pop();
        if self.random.below(2) == 0 {
            return self.forms.exists(sort, inner);
        }
        self.forms.forall(sort, inner)
    }

    /// A formula with at most so many parts below each other.
    #[cycle(formula)]
    fn formula(&mut self, levels: u32) -> Result<u32, AllocError> {
        let Some(rest) = levels.checked_sub(1) else {
            return self.atom();
        };
        if self.sorts.is_empty() {
            return self.quantified(rest);
        }
        match self.random.below(6) {
            0 | 1 if self.sorts.len() < MOST_QUANTIFIERS as usize => self.quantified(rest),
            0 | 1 => self.atom(),
            2 | 3 => {
                let left = self.formula(rest)?;
                let right = self.formula(rest)?;
                self.forms.and(left, right)
            }
            4 => {
                let left = self.formula(rest)?;
                let right = self.formula(rest)?;
                self.forms.or(left, right)
            }
            _ => {
                let inner = self.formula(rest)?;
                self.forms.not(inner)
            }
        }
    }

    /// A closed formula: some of these, all of which are to be true.
    pub(crate) fn whole(&mut self) -> Result<u32, AllocError> {
        let mut whole = self.formula(MOST_NESTED)?;
        for _ in 0..self.random.below(4) {
            let other = self.formula(MOST_NESTED)?;
            whole = self.forms.and(whole, other)?;
        }
        Ok(whole)
    }
}
