//! The part of one obligation.

ghost use Rattle.std.specs.Prelude.{◌≡◌, ◌+◌, ◌<◌, ◌^◌, Contains, IfOk, length};
ghost use Rattle.duty_meaning.specs.Duties.{obligations_of};
ghost use Rattle.duty_meaning.specs.Over.{IsSignatureOf};
ghost use Rattle.duty_numbering.specs.Numbers.{numbers_of};
ghost use Rattle.type_schema.specs.SchemaViews.{schema_of, script_of};
ghost use Rattle.type_schema.specs.Script.{IsScript};
ghost use Rattle.certify_clauses.specs.InMemory.{problem_in};
ghost use Rattle.certify_scripts.specs.Passed.{ArePartsOf, HasParts, IsPartOf, IsPartOver, IsWithin};

use crate::formulas::Formulas;
use crate::grounding::Grounding;
use certify_clauses::ListedClauses;
use certify_problem::Grounded;
use certify_recheck::{RecheckErr, Spot, recheck};
use duty_meaning::Duty;
use sqlite_items::Items;
use std::alloc::{AllocError, Global};

/// What the part of an obligation comes to.
#[derive(Drop)]
pub(crate) enum Part {
    /// It stands there, up to the spot.
    Passed(Spot),
    /// This line is not the next one.
    Bad(u64),
    /// The obligation has no clauses, by this cycle.
    Cyclic(Duty, Items<u32>),
    /// It has none, by these counts.
    TooLarge(Duty, u64, u64),
}

/// Checks the part of an obligation over its clauses.
fn recheck_over(
    alloc: Global,
    number: u32,
    c: &ListedClauses,
    text: &[u8],
    from: Spot,
) -> Result<Part, AllocError>
    requires few { length text.now < 2 ^ 62 }
    requires within { IsWithin text.now from }
    ensures { IfOk result (IsPartOver text.now (problem_in c.now) number from) }
{
    match recheck(alloc, number, c, text, from) {
        Ok(to) => Ok(Part::Passed(to)),
        Err(RecheckErr::BadLine { line }) => Ok(Part::Bad(line)),
        Err(RecheckErr::OutOfMemory) => Err(AllocError),
    }
}

/// The number of the obligation at a place. Four thousand million count as memory that is not
/// there.
fn number_at(place: usize) -> Result<u32, AllocError>
    ensures { IfOk result (λ number. number ≡ place + 1) }
{
    if place >= u32::MAX as usize {
        return Err(AllocError);
    }
    Ok(place as u32 + 1)
}

impl<'a, F: Formulas> Grounding<'a, F> {
    /// Checks the part of an obligation.
    fn part(
        &self,
        alloc: Global,
        duty: Duty,
        number: u32,
        text: &[u8],
        from: Spot,
    ) -> Result<Part, AllocError>
        requires script { IsScript (script_of self.now.script.now) }
        requires numbered { self.now.numbering.now ≡ numbers_of
            (schema_of self.now.script.now.start) }
        requires signature { IsSignatureOf (script_of self.now.script.now).start
            self.now.signature.now }
        requires listed { Contains (obligations_of (script_of self.now.script.now)) duty }
        requires few { length text.now < 2 ^ 62 }
        requires within { IsWithin text.now from }
        ensures { IfOk result (IsPartOf (script_of self.now.script.now) self.now.signature.now
            text.now duty number from) }
    {
        match self.grounded(alloc, duty)? {
            Grounded::Clauses(c) => recheck_over(alloc, number, &c, text, from),
            Grounded::Cyclic(cycle) => Ok(Part::Cyclic(duty, cycle)),
            Grounded::TooLarge { terms, nodes } => Ok(Part::TooLarge(duty, terms, nodes)),
        }
    }

    /// Checks the parts of all obligations, one after another, behind a first line.
    pub(crate) fn parts(
        &self,
        alloc: Global,
        duties: &[Duty],
        text: &[u8],
        from: Spot,
    ) -> Result<Part, AllocError>
        requires script { IsScript (script_of self.now.script.now) }
        requires numbered { self.now.numbering.now ≡ numbers_of
            (schema_of self.now.script.now.start) }
        requires signature { IsSignatureOf (script_of self.now.script.now).start
            self.now.signature.now }
        requires listed { duties.now ≡ obligations_of (script_of self.now.script.now) }
        requires few { length text.now < 2 ^ 62 }
        requires begun { HasParts (script_of self.now.script.now) self.now.signature.now text.now
            0 from }
        ensures { IfOk result (ArePartsOf (script_of self.now.script.now) self.now.signature.now
            text.now) }
    {
        let mut spot = from;
        for place in 0..duties.len() {
            let number = number_at(place)?;
            match self.part(alloc, duties[place], number, text, spot)? {
                Part::Passed(to) => spot = to,
                Part::Bad(line) => return Ok(Part::Bad(line)),
                Part::Cyclic(duty, cycle) => return Ok(Part::Cyclic(duty, cycle)),
                Part::TooLarge(duty, terms, nodes) => {
                    return Ok(Part::TooLarge(duty, terms, nodes));
                }
            }
        }
        Ok(Part::Passed(spot))
    }
}
