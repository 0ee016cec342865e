//! The check of a certificate.

ghost use Rattle.std.specs.Prelude.{◌≡◌, ◌<◌, ◌^◌, IfOk, length};
ghost use Rattle.type_schema.specs.Script.{IsScript};
ghost use Rattle.type_schema.specs.SchemaViews.{schema_of, script_of};
ghost use Rattle.form_formula.specs.declared.structure.Signature.{Signature as AnySignature};
ghost use Rattle.type_schema.specs.Script.{Script as AnyScript};
ghost use Rattle.certify_scripts.specs.Passed.{HasParts, IsWithin};
ghost use Rattle.certify_scripts.specs.Rechecked.{IsRechecked, IsRecheckedOver};
ghost use Rattle.certify_scripts.specs.Sound.{Shows};
ghost use Rattle.duty_meaning.specs.Duties.{obligations_of};
ghost use Rattle.duty_meaning.specs.Over.{IsSignatureOf};
ghost use Rattle.duty_numbering.specs.Numbers.{numbers_of};

use crate::formulas::Formulas;
use crate::grounding::Grounding;
use crate::parts::Part;
use crate::rechecked::Rechecked;
use certify_recheck::{Spot, recheck_ending, recheck_heading};
use duty_listing::duties;
use duty_meaning::Duty;
use duty_numbering::{Numbering, signature_of};
use std::alloc::{AllocError, Global};
use type_schema::TScript;

/// The spot of the first line.
const START: Spot = Spot { at: 0, line: 1 };

/// Checks what stands behind the parts of all obligations, of which there are so many.
fn ended(text: &[u8], from: Spot, duties: u64) -> Rechecked
    requires few { length text.now < 2 ^ 62 }
    requires within { IsWithin text.now from }
    ensures { (t : AnyScript) (g : AnySignature) → duties ≡ length (obligations_of t) →
        HasParts t g text.now duties from → IsRecheckedOver t g text.now result }
{
    match recheck_ending(text, from) {
        None => Rechecked::BadLine { line: from.line },
        Some(to) if to.at < text.len() => Rechecked::BadLine { line: to.line },
        Some(_) => Rechecked::Certified { duties },
    }
}

impl<'a, F: Formulas> Grounding<'a, F> {
    /// Checks what stands behind a first line.
    fn behind_heading(
        &self,
        alloc: Global,
        duties: &[Duty],
        text: &[u8],
        from: Spot,
    ) -> Result<Rechecked, AllocError>
        requires script { IsScript (script_of self.now.script.now) }
        requires numbered { self.now.numbering.now ≡ numbers_of
            (schema_of self.now.script.now.start) }
        requires signature { IsSignatureOf (script_of self.now.script.now).start
            self.now.signature.now }
        requires listed { duties.now ≡ obligations_of (script_of self.now.script.now) }
        requires few { length text.now < 2 ^ 62 }
        requires begun { HasParts (script_of self.now.script.now) self.now.signature.now text.now
            0 from }
        ensures { IfOk result (IsRecheckedOver (script_of self.now.script.now)
            self.now.signature.now text.now) }
    {
        match self.parts(alloc, duties, text, from)? {
            Part::Passed(to) => Ok(ended(text, to, duties.len() as u64)),
            Part::Bad(line) => Ok(Rechecked::BadLine { line }),
            Part::Cyclic(duty, cycle) => Ok(Rechecked::Cyclic { duty, cycle }),
            Part::TooLarge(duty, terms, nodes) => Ok(Rechecked::TooLarge { duty, terms, nodes }),
        }
    }

    /// Checks a text as the certificate of obligations.
    fn whole(&self, alloc: Global, duties: &[Duty], text: &[u8]) -> Result<Rechecked, AllocError>
        requires script { IsScript (script_of self.now.script.now) }
        requires numbered { self.now.numbering.now ≡ numbers_of
            (schema_of self.now.script.now.start) }
        requires signature { IsSignatureOf (script_of self.now.script.now).start
            self.now.signature.now }
        requires listed { duties.now ≡ obligations_of (script_of self.now.script.now) }
        requires few { length text.now < 2 ^ 62 }
        ensures { IfOk result (IsRecheckedOver (script_of self.now.script.now)
            self.now.signature.now text.now) }
    {
        match recheck_heading(text, START) {
            None => Ok(Rechecked::BadLine { line: START.line }),
            Some(from) => self.behind_heading(alloc, duties, text, from),
        }
    }
}

/// Checks a text as the certificate of a script, whose start schema has these numbers and this
/// signature.
fn rechecked_by<F: Formulas>(
    alloc: Global,
    grounding: &Grounding<'_, F>,
    text: &[u8],
) -> Result<Rechecked, AllocError>
    requires script { IsScript (script_of grounding.now.script.now) }
    requires numbered { grounding.now.numbering.now ≡ numbers_of
        (schema_of grounding.now.script.now.start) }
    requires signature { IsSignatureOf (script_of grounding.now.script.now).start
        grounding.now.signature.now }
    requires few { length text.now < 2 ^ 62 }
    ensures { IfOk result (IsRechecked (script_of grounding.now.script.now) text.now) }
{
    let duties = duties(alloc, grounding.script)?;
    grounding.whole(alloc, duties.as_slice(), text)
}

/// Checks a text as the certificate of a script: a line `certificate 1`, then for each obligation
/// in order, from 1 on, a line `duty K` and a lawful tree over the clauses of its formula, and a
/// line `end` with nothing behind it.
///
/// The answer is `Certified` only where it is one, and then no obligation of the script fails,
/// whatever the bytes. Else it is `BadLine`, with the first line that is not the next one, or
/// `Cyclic` or `TooLarge`, where the lines so far are right and the next obligation has no clauses. One
/// obligation is grounded after another, and the memory of each is given back before the next.
pub fn recheck_script<F: Formulas>(
    alloc: Global,
    formulas: &F,
    t: &TScript,
    text: &[u8],
) -> Result<Rechecked, AllocError>
    requires script { IsScript (script_of t.now) }
    requires few { length text.now < 2 ^ 62 }
    ensures found { IfOk result (IsRechecked (script_of t.now) text.now) }
    ensures shows { IfOk result (Shows (script_of t.now)) }
{
    let numbering = Numbering::of(alloc, &t.start)?;
    let signature = signature_of(alloc, &t.start)?;
    let grounding = Grounding {
        formulas,
        script: t,
        numbering: &numbering,
        signature: &signature,
    };
    rechecked_by(alloc, &grounding, text)
}
