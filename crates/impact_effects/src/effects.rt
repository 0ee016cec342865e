//! What each weakening newly allows.

ghost use Rattle.std.specs.Prelude.{◌≡◌, All, Contains, IfOk, MatchOption, OnOk, map};
ghost use Rattle.check_scripts.specs.Outcomes.{IsCleared, IsUnsettled};
ghost use Rattle.check_scripts.specs.Views.{outcome_data};
ghost use Rattle.duty_meaning.specs.Over.{IsSignatureOf};
ghost use Rattle.duty_numbering.specs.Numbers.{numbers_of};
ghost use Rattle.impact_effects.specs.Effects.{AreEffects, IsEffect, IsShown};
ghost use Rattle.impact_meaning.specs.Undeclared as rule;
ghost use Rattle.type_schema.specs.Script.{IsScript};
ghost use Rattle.type_schema.specs.SchemaViews.{schema_of, script_of};

use crate::effect::{Effect, Shown};
use crate::weakenings::weakenings;
use check_scripts::{Formulas, Known, Outcome, unsettled};
use duty_meaning::Duty;
use duty_numbering::{Numbering, signature_of};
use form_formula::Signature;
use impact_meaning::undeclared;
use std::alloc::{AllocError, Global};
use type_schema::TScript;

/// What is shown of a weakening, by what its obligation comes to if it is not declared.
fn shown_of(t: &TScript, signature: &Signature, duty: Duty, found: Option<Outcome>) -> Shown
    requires script { IsScript (script_of t.now) }
    requires signature { IsSignatureOf (script_of t.now).start signature.now }
    requires listed { Contains (rule.weakenings_of (script_of t.now)) duty }
    requires found { MatchOption found
        (IsCleared (rule.undeclared (script_of t.now)) signature.now duty)
        (λ outcome. IsUnsettled (rule.undeclared (script_of t.now)) signature.now duty (outcome_data outcome)) }
    ensures { IsShown (script_of t.now) signature.now duty result }
{
    let (_t, _signature, _duty) = (t, signature, duty);
    match found {
        None => Shown::Nothing,
        Some(Outcome::Leak(witness)) => Shown::Example(witness),
        Some(Outcome::Undecided { cycle, .. }) => Shown::Undecided { cycle },
        Some(Outcome::TooLarge { terms, nodes, .. }) => Shown::TooLarge { terms, nodes },
        Some(Outcome::Accepted { .. }) => unreachable!(),
    }
}

// Seven beside the allocator: what makes formulas, the two scripts, what is made once for them, the
// weakening, what is known.
/// What the weakening newly allows.
fn effect_of<F: Formulas>(
    alloc: Global,
    formulas: &F,
    t: &TScript,
    u: &TScript,
    numbering: &Numbering,
    signature: &Signature,
    duty: Duty,
    known: &mut Known<'_>,
) -> Result<Effect, AllocError>
    requires script { IsScript (script_of t.now) }
    requires undeclared { script_of u.now ≡ rule.undeclared (script_of t.now) }
    requires numbered { numbering.now ≡ numbers_of (schema_of u.now.start) }
    requires signature { IsSignatureOf (script_of t.now).start signature.now }
    requires listed { Contains (rule.weakenings_of (script_of t.now)) duty }
    requires over { known.old ≡ signature.now }
    ensures duty { IfOk result (λ e. e.duty ≡ duty) }
    ensures effect { IfOk result (IsEffect (script_of t.now) signature.now) }
    ensures kept { OnOk result (known.new ≡ known.old) }
{
    let found = unsettled(alloc, formulas, u, numbering, signature, duty, known)?;
    let shown = shown_of(t, signature, duty, found);
    Ok(Effect { duty, shown })
}

// Six beside the allocator: what makes formulas, the two scripts, what is made once for them, the
// weakenings.
/// What each of the weakenings newly allows.
fn effects_of<F: Formulas>(
    alloc: Global,
    formulas: &F,
    t: &TScript,
    u: &TScript,
    numbering: &Numbering,
    signature: &Signature,
    weakenings: &[Duty],
) -> Result<Vec<Effect>, AllocError>
    requires script { IsScript (script_of t.now) }
    requires undeclared { script_of u.now ≡ rule.undeclared (script_of t.now) }
    requires numbered { numbering.now ≡ numbers_of (schema_of u.now.start) }
    requires signature { IsSignatureOf (script_of t.now).start signature.now }
    requires all { weakenings.now ≡ rule.weakenings_of (script_of t.now) }
    ensures listed { IfOk result (λ effects. map (λ e. e.duty) effects.items
        ≡ rule.weakenings_of (script_of t.now)) }
    ensures shown { IfOk result (λ effects. All (IsEffect (script_of t.now) signature.now)
        effects.items) }
{
    let mut known = Known::new(alloc, signature);
    let mut effects = Vec::new(alloc);
    for duty in weakenings {
        let effect = effect_of(
            alloc, formulas, t, u, numbering, signature, *duty, &mut known,
        )?;
        effects.push(effect)?;
    }
    Ok(effects)
}

/// What each declared weakening of the script newly allows, in order: for each command that weakens,
/// each right that it gives, and each kind of principals.
pub fn impact<F: Formulas>(
    alloc: Global,
    formulas: &F,
    t: &TScript,
) -> Result<Vec<Effect>, AllocError>
    requires { IsScript (script_of t.now) }
    ensures { IfOk result (λ effects. AreEffects (script_of t.now) effects.items) }
{
    let u = undeclared(alloc, t)?;
    let numbering = Numbering::of(alloc, &u.start)?;
    let signature = signature_of(alloc, &u.start)?;
    let weakenings = weakenings(alloc, t, &u)?;
    effects_of(
        alloc,
        formulas,
        t,
        &u,
        &numbering,
        &signature,
        weakenings.as_slice(),
    )
}
