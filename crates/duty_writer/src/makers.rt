//! Calls of the writer that write one node each.

ghost use Rattle.form_formula.specs.Trees as tree;
ghost use Rattle.form_formula.specs.Nodes.{formula_of};
ghost use Rattle.duty_meaning.specs.Cases.{atom, constant, and_if, exists_if};
ghost use Rattle.duty_writer.specs.Terms.{term_data};
ghost use Rattle.duty_writer.specs.Made.{Makes, MakesFor, IsPart};

use crate::make_err::MakeErr;
use crate::nodes::{
    put_both, put_constant, put_either, put_equal, put_exists, put_flag, put_forall, put_has,
    put_less, put_present,
};
use crate::term::Term;
use crate::writer::{Mode, Writer};

/// Each call gives the number of the formula, if formulas are written, and takes off what is left
/// the size of what it adds.
impl Writer {
    /// Writes that two terms are equal, or that they are not.
    pub fn equal(&mut self, sign: bool, t: &Term<'_>, u: &Term<'_>) -> Result<u32, MakeErr>
        ensures { Makes self.old result self.new
            (atom sign (tree.equal (term_data t.now) (term_data u.now))) }
    {
        self.pay(1)?;
        self.pay_term(t)?;
        self.pay_term(u)?;
        match self.mode {
            Mode::Count => Ok(0),
            Mode::Build => Ok(put_equal(&mut self.arena, sign, t, u)?),
        }
    }

    /// Writes that one number is below another, or that it is not.
    pub fn less(&mut self, sign: bool, t: &Term<'_>, u: &Term<'_>) -> Result<u32, MakeErr>
        ensures { Makes self.old result self.new
            (atom sign (tree.less (term_data t.now) (term_data u.now))) }
    {
        self.pay(1)?;
        self.pay_term(t)?;
        self.pay_term(u)?;
        match self.mode {
            Mode::Count => Ok(0),
            Mode::Build => Ok(put_less(&mut self.arena, sign, t, u)?),
        }
    }

    /// Writes that a set relation holds of two terms, or that it does not.
    pub fn has(
        &mut self,
        sign: bool,
        relation: u32,
        t: &Term<'_>,
        u: &Term<'_>,
    ) -> Result<u32, MakeErr>
        ensures { Makes self.old result self.new
            (atom sign (tree.has relation (term_data t.now) (term_data u.now))) }
    {
        self.pay(1)?;
        self.pay_term(t)?;
        self.pay_term(u)?;
        match self.mode {
            Mode::Count => Ok(0),
            Mode::Build => Ok(put_has(&mut self.arena, sign, relation, t, u)?),
        }
    }

    /// Writes that a function to truth values gives true at a term, or that it does not.
    pub fn flag(&mut self, sign: bool, f: u32, t: &Term<'_>) -> Result<u32, MakeErr>
        ensures { Makes self.old result self.new
            (atom sign (tree.flag f (term_data t.now))) }
    {
        self.pay(1)?;
        self.pay_term(t)?;
        match self.mode {
            Mode::Count => Ok(0),
            Mode::Build => Ok(put_flag(&mut self.arena, sign, f, t)?),
        }
    }

    /// Writes that a function has a value at a term, or that it has none.
    pub fn present(&mut self, sign: bool, f: u32, t: &Term<'_>) -> Result<u32, MakeErr>
        ensures { Makes self.old result self.new
            (atom sign (tree.present f (term_data t.now))) }
    {
        self.pay(1)?;
        self.pay_term(t)?;
        match self.mode {
            Mode::Count => Ok(0),
            Mode::Build => Ok(put_present(&mut self.arena, sign, f, t)?),
        }
    }

    /// Writes what is always true, or never.
    pub fn constant(&mut self, sign: bool) -> Result<u32, MakeErr>
        ensures { Makes self.old result self.new (constant sign) }
    {
        self.pay(1)?;
        match self.mode {
            Mode::Count => Ok(0),
            Mode::Build => Ok(put_constant(&mut self.arena, sign)?),
        }
    }

    /// Writes that both formulas are true.
    pub fn both(&mut self, a: u32, b: u32) -> Result<u32, MakeErr>
        requires left { IsPart self.old a }
        requires right { IsPart self.old b }
        ensures { MakesFor 1 self.old result self.new
            (tree.both (formula_of self.old.arena a) (formula_of self.old.arena b)) }
    {
        self.pay(1)?;
        match self.mode {
            Mode::Count => Ok(0),
            Mode::Build => Ok(put_both(&mut self.arena, a, b)?),
        }
    }

    /// Writes that one of the formulas is true.
    pub fn either(&mut self, a: u32, b: u32) -> Result<u32, MakeErr>
        requires left { IsPart self.old a }
        requires right { IsPart self.old b }
        ensures { MakesFor 1 self.old result self.new
            (tree.either (formula_of self.old.arena a) (formula_of self.old.arena b)) }
    {
        self.pay(1)?;
        match self.mode {
            Mode::Count => Ok(0),
            Mode::Build => Ok(put_either(&mut self.arena, a, b)?),
        }
    }

    /// Writes that a formula is true for some element of the sort.
    pub fn exists(&mut self, sort: u32, a: u32) -> Result<u32, MakeErr>
        requires { IsPart self.old a }
        ensures { MakesFor 1 self.old result self.new
            (tree.exists sort (formula_of self.old.arena a)) }
    {
        self.pay(1)?;
        match self.mode {
            Mode::Count => Ok(0),
            Mode::Build => Ok(put_exists(&mut self.arena, sort, a)?),
        }
    }

    /// Writes that a formula is true for each element of the sort.
    pub fn forall(&mut self, sort: u32, a: u32) -> Result<u32, MakeErr>
        requires { IsPart self.old a }
        ensures { MakesFor 1 self.old result self.new
            (tree.forall sort (formula_of self.old.arena a)) }
    {
        self.pay(1)?;
        match self.mode {
            Mode::Count => Ok(0),
            Mode::Build => Ok(put_forall(&mut self.arena, sort, a)?),
        }
    }

    /// Writes that both formulas are true; where the sign is not, that one of them is.
    pub fn and_if(&mut self, sign: bool, a: u32, b: u32) -> Result<u32, MakeErr>
        requires left { IsPart self.old a }
        requires right { IsPart self.old b }
        ensures { MakesFor 1 self.old result self.new
            (and_if sign (formula_of self.old.arena a) (formula_of self.old.arena b)) }
    {
        if sign {
            self.both(a, b)
        } else {
            self.either(a, b)
        }
    }

    /// Writes that a formula is true for some element; where the sign is not, for each.
    pub fn exists_if(&mut self, sign: bool, sort: u32, a: u32) -> Result<u32, MakeErr>
        requires { IsPart self.old a }
        ensures { MakesFor 1 self.old result self.new
            (exists_if sign sort (formula_of self.old.arena a)) }
    {
        if sign {
            self.exists(sort, a)
        } else {
            self.forall(sort, a)
        }
    }
}
