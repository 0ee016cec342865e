//! The writer.

ghost use Rattle.duty_writer.specs.Made.{Pays};
ghost use Rattle.duty_meaning.specs.Sizes.{term_size};
ghost use Rattle.duty_writer.specs.Terms.{term_data};

use crate::make_err::MakeErr;
use crate::term::Term;
use form_formula::Arena;

/// Whether formulas are written or only counted.
#[derive(Clone, Copy, Debug, PartialEq, Eq)]
pub enum Mode {
    Build,
    Count,
}

/// Writes formulas into an arena, or only counts their sizes.
#[derive(Drop)]
pub struct Writer {
    /// Where formulas are written.
    pub arena: Arena,
    /// How large a formula may yet be.
    pub left: u64,
    /// Whether formulas are written or only counted.
    pub mode: Mode,
}

impl Writer {
    /// Takes so much off what is left.
    pub(crate) fn pay(&mut self, cost: u64) -> Result<(), MakeErr>
        ensures { Pays cost self.old result self.new }
    {
        match self.left.checked_sub(cost) {
            Some(left) => {
                self.left = left;
                Ok(())
            }
            None => Err(MakeErr::Full),
        }
    }

    /// Takes the size of a term off what is left.
    pub(crate) fn pay_term(&mut self, t: &Term<'_>) -> Result<(), MakeErr>
        ensures { Pays (term_size (term_data t.now)) self.old result self.new }
    {
        match t {
            Term::App(_, inner) => {
                self.pay(1)?;
                self.pay_term(inner)
            }
            Term::Chain(functions, inner) => {
                self.pay(functions.len() as u64)?;
                self.pay_term(inner)
            }
            Term::Bound(..) | Term::Num(_) | Term::Str(_) => self.pay(1),
        }
    }
}
