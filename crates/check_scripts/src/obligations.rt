//! What one obligation comes to.

ghost use Rattle.std.specs.Prelude.{◌≡◌, ◌≤◌, ◌*◌, [], Contains, IfOk, OnOk, MatchOption, length, map};
ghost use Rattle.std.specs.List.{AllByRecursion};
ghost use Rattle.data_meaning.specs.Values.{last_id};
ghost use Rattle.type_schema.specs.Script.{IsScript};
ghost use Rattle.type_schema.specs.SchemaViews.{schema_of, script_of};
ghost use Rattle.decide_verdict.specs.Verdicts.{IsVerdict};
ghost use Rattle.duty_meaning.specs.Duties.{formula_of, obligations_of};
ghost use Rattle.form_formula.specs.Nodes.{IsFormula, formula_of as formula_at};
ghost use Rattle.form_formula.specs.NormalForm.{normal_form};
ghost use Rattle.form_formula.specs.Over.{IsOver};
ghost use Rattle.form_terms.specs.Satisfying.{SatisfiesWith};
ghost use Rattle.duty_meaning.specs.Over.{IsSignatureOf};
ghost use Rattle.duty_numbering.specs.Numbers.{numbers_of};
ghost use Rattle.check_scripts.specs.FailsBy.{FailsBy};
ghost use Rattle.check_scripts.specs.Outcomes as spec;
ghost use Rattle.check_scripts.specs.Views.{outcome_data};
ghost use Rattle.data_meaning.specs.Database.{IsInOrder};
ghost use Rattle.check_report.specs.Views.{witness_data};
ghost use Rattle.form_formula.specs.declared.limits.TheConstants.{MOST_ARENA_NODES};

use crate::formulas::Formulas;
use crate::known::Known;
use crate::outcome::Outcome;
use crate::witnesses::witness_of;
use check_report::Witness;
use decide_verdict::{Verdict, decide};
use duty_meaning::Duty;
use duty_numbering::Numbering;
use form_formula::{Arena, Signature, Structure};
use sqlite_items::Items;
use std::alloc::{AllocError, Global};
use type_schema::{ModelNo, TScript};

/// The verdict on a formula. One that is equal to a formula that was cleared is not decided again.
#[tactic(auto, using(crate::proofs::Kept::safe_behind, crate::proofs::Kept::verdict_of))]
fn verdict_in(
    alloc: Global,
    arena: Arena,
    id: u32,
    signature: &Signature,
    known: &mut Known<'_>,
) -> Result<Verdict, AllocError>
    requires formula { IsFormula arena id }
    requires over { IsOver signature.now [] (formula_at arena id) }
    requires room { 3 * length arena ≤ MOST_ARENA_NODES }
    requires signature { known.old ≡ signature.now }
    ensures verdict { IfOk result (IsVerdict signature.now (formula_at arena id)) }
    ensures kept { OnOk result (known.new ≡ known.old) }
{
    if known.has(&arena, id) {
        return Ok(Verdict::Safe);
    }
    let mut arena = arena;
    let verdict = decide(alloc, &mut arena, id, signature)?;
    if let Verdict::Safe = verdict {
        known.keep(arena, id)?;
    }
    Ok(verdict)
}

// Six beside the allocator: the script, what is made once for it, the obligation, what is known.
/// The verdict on the formula of an obligation.
fn verdict_on<F: Formulas>(
    alloc: Global,
    formulas: &F,
    t: &TScript,
    numbering: &Numbering,
    signature: &Signature,
    duty: Duty,
    known: &mut Known<'_>,
) -> Result<Verdict, AllocError>
    requires script { IsScript (script_of t.now) }
    requires numbered { numbering.now ≡ numbers_of (schema_of t.now.start) }
    requires signature { IsSignatureOf (script_of t.now).start signature.now }
    requires listed { Contains (obligations_of (script_of t.now)) duty }
    requires over { known.old ≡ signature.now }
    ensures verdict { IfOk result (IsVerdict signature.now (formula_of (script_of t.now) duty)) }
    ensures kept { OnOk result (known.new ≡ known.old) }
{
    let mut arena = Arena::new(alloc)?;
    let id = formulas.formula(alloc, &mut arena, t, numbering, duty)?;
    verdict_in(alloc, arena, id, signature, known)
}

/// There are ids for the elements of each sort, since their number has 32 bits.
fn has_ids(sizes: &[u32])
    ensures { AllByRecursion (λ n. n ≤ last_id) sizes.now }
{
    for size in sizes {
        let _size = *size;
    }
}

/// The witness by which an obligation fails.
fn found_witness(
    alloc: Global,
    t: &TScript,
    signature: &Signature,
    duty: Duty,
    structure: &Structure,
    picks: &[u32],
) -> Result<Witness, AllocError>
    requires script { IsScript (script_of t.now) }
    requires signature { IsSignatureOf (script_of t.now).start signature.now }
    requires listed { Contains (obligations_of (script_of t.now)) duty }
    requires found { SatisfiesWith signature.now
        (normal_form (formula_of (script_of t.now) duty)) structure.now picks.now }
    ensures fails { IfOk result (λ w. FailsBy (script_of t.now) duty (witness_data w)) }
    ensures tables { IfOk result (λ w. IsInOrder (script_of t.now).start (witness_data w).base) }
{
    has_ids(structure.sizes.as_slice());
    let w = witness_of(alloc, t, duty, structure, picks)?;
    let _signature = signature;
    Ok(w)
}

/// The model of a sort.
fn model_of_sort(t: &TScript, sort: u32) -> ModelNo
    ensures { result ≡ spec.model_of_sort (script_of t.now) sort }
{
    match t.start.models.as_slice().get(sort as usize) {
        Some(info) => info.number,
        None => 0,
    }
}

/// The models of sorts.
fn models_of_sorts(alloc: Global, t: &TScript, sorts: &[u32]) -> Result<Items<ModelNo>, AllocError>
    ensures { IfOk result (λ models. models
        ≡ map (spec.model_of_sort (script_of t.now)) sorts.now) }
{
    let mut models = Vec::new(alloc);
    for sort in sorts {
        models.push(model_of_sort(t, *sort))?;
    }
    Ok(Items::from_vec(models))
}

/// The models of a cycle of sorts whose first is repeated last, each once.
pub fn models_of_cycle(
    alloc: Global,
    t: &TScript,
    cycle: &[u32],
) -> Result<Items<ModelNo>, AllocError>
    ensures { IfOk result (λ models. models ≡ spec.models_of_cycle (script_of t.now) cycle.now) }
{
    models_of_sorts(alloc, t, &cycle[..cycle.len().saturating_sub(1)])
}

// Six beside the allocator: the script, what is made once for it, the obligation, what is known.
/// What an obligation comes to that is not cleared; None where it is cleared.
pub fn unsettled<F: Formulas>(
    alloc: Global,
    formulas: &F,
    t: &TScript,
    numbering: &Numbering,
    signature: &Signature,
    duty: Duty,
    known: &mut Known<'_>,
) -> Result<Option<Outcome>, AllocError>
    requires script { IsScript (script_of t.now) }
    requires numbered { numbering.now ≡ numbers_of (schema_of t.now.start) }
    requires signature { IsSignatureOf (script_of t.now).start signature.now }
    requires listed { Contains (obligations_of (script_of t.now)) duty }
    requires over { known.old ≡ signature.now }
    ensures settled { IfOk result (λ found. MatchOption found
        (spec.IsCleared (script_of t.now) signature.now duty)
        (λ outcome. spec.IsUnsettled (script_of t.now) signature.now duty (outcome_data outcome))) }
    ensures kept { OnOk result (known.new ≡ known.old) }
{
    match verdict_on(alloc, formulas, t, numbering, signature, duty, known)? {
        Verdict::Safe => Ok(None),
        Verdict::Found(structure, picks) => {
            let w = found_witness(alloc, t, signature, duty, &structure, picks.as_slice())?;
            Ok(Some(Outcome::Leak(w)))
        }
        Verdict::Unknown(cycle, _) => {
            let cycle = models_of_cycle(alloc, t, cycle.as_slice())?;
            Ok(Some(Outcome::Undecided { duty, cycle }))
        }
        Verdict::TooLarge(terms, nodes) => Ok(Some(Outcome::TooLarge { duty, terms, nodes })),
    }
}
