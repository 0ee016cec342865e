//! All clauses that say that a formula holds at ground terms.

ghost use Rattle.std.specs.Prelude.{◌≡◌, ◌<◌, ◌^◌, ◌++◌, length, map, IfOk, OnOk};
ghost use Rattle.ground_gates.specs.Clauses.{HaveInputsBelow};
ghost use Rattle.ground_problem.specs.GroundClauses.{AreGroundClauses};
ghost use Rattle.ground_problem.specs.Inputs.{AreFieldsOf, IsFieldOf, RelateTerms, RelatesTerms};
ghost use Rattle.ground_problem.specs.Facts.{clauses_at, fact_at};
ghost use Rattle.ground_problem.specs.Ground.{AreVariablesOf};
ghost use Rattle.ground_problem.specs.Numbers.{KeepsFacts, Zips};

use crate::Spoken;
use crate::facts::{FactLiteral, FactNode};
use crate::input_facts::facts_of;
use crate::numbering::Numbering;
use form_formula::Arena;
use ground_gates::{Encoding, Literal, encode};
use ground_instances::Input;
use ground_terms::TermArena;
use indexmap::IndexSet;
use std::alloc::{AllocError, Global};

/// Clauses on variables: those of facts come first, and then those that only clauses of gates have.
#[derive(Drop)]
pub struct GroundClauses {
    /// The facts.
    pub facts: Vec<FactNode>,
    /// The clauses on facts.
    pub clauses: Vec<Vec<Literal>>,
    /// The clauses that say that the gate of the whole formula is true.
    pub gates: Vec<Vec<Literal>>,
    /// How many variables there are.
    pub end: u32,
}

/// What the numbers in inputs stand for.
#[derive(Clone, Copy)]
struct Source<'a> {
    arena: &'a Arena,
    terms: &'a TermArena,
}

/// The variables of the facts of an input.
fn variables_of(
    alloc: Global,
    source: Source<'_>,
    input: Input,
    field: u32,
    numbering: &mut Numbering,
) -> Result<Vec<u32>, AllocError>
    requires field { IsFieldOf source.terms.now input field }
    requires terms { RelatesTerms input }
    ensures kept { OnOk result (KeepsFacts numbering.old numbering.new) }
    ensures are { IfOk result (λ xs. AreVariablesOf source.entry.arena.now source.entry.terms.now
        numbering.new.facts.keys xs.items input) }
{
    let facts = facts_of(alloc, source.arena, source.terms, input, field)?;
    numbering.variables(alloc, facts.as_slice())
}

/// The variables of the facts of inputs.
fn all_variables(
    alloc: Global,
    source: Source<'_>,
    inputs: &[Input],
    fields: &[u32],
    numbering: &mut Numbering,
) -> Result<Vec<Vec<u32>>, AllocError>
    requires fields { AreFieldsOf source.terms.now inputs.now fields.now }
    requires terms { RelateTerms inputs.now }
    ensures kept { OnOk result (KeepsFacts numbering.old numbering.new) }
    ensures are { IfOk result (λ all. Zips (λ xs input. AreVariablesOf source.entry.arena.now
        source.entry.terms.now numbering.new.facts.keys xs.items input) all.items inputs.now) }
{
    let mut all = Vec::new(alloc);
    for k in 0..inputs.len() {
        let variables = variables_of(alloc, source, inputs[k], fields[k], numbering)?;
        all.push(variables)?;
    }
    Ok(all)
}

/// All clauses that say that a formula holds at ground terms, from its instances with their
/// vocabulary, and from clauses on facts. They go with the instances and those clauses.
pub fn ground_clauses(
    alloc: Global,
    arena: &Arena,
    spoken: &Spoken,
    facts: &[Vec<FactLiteral>],
) -> Result<GroundClauses, AllocError>
    requires fields { AreFieldsOf spoken.now.made.terms spoken.now.made.inputs
        spoken.now.fields.items }
    requires terms { RelateTerms spoken.now.made.inputs }
    requires below { HaveInputsBelow (length spoken.now.made.inputs) spoken.now.made.gates }
    requires there { spoken.now.made.root < length spoken.now.made.gates }
    ensures { IfOk result (λ ground. AreGroundClauses
        (map (fact_at arena.now spoken.now.made.terms) ground.facts.items) spoken.now.made
        arena.now (clauses_at arena.now spoken.now.made.terms (map (λ c. c.items) facts.now))
        ground.end (map (λ c. c.items) ground.clauses.items
        ++ map (λ c. c.items) ground.gates.items)) }
{
    let made = &spoken.made;
    let source = Source {
        arena,
        terms: &made.terms,
    };
    let mut numbering = Numbering {
        facts: IndexSet::new(alloc),
    };
    let clauses = numbering.clauses(alloc, facts)?;
    let inputs = made.inputs.as_slice();
    let fields = spoken.fields.as_slice();
    let variables = all_variables(alloc, source, inputs, fields, &mut numbering)?;
    let base = numbering.count()?;
    let Encoding {
        clauses: gates,
        end,
    } = encode(alloc, &made.gates, made.root, variables.as_slice(), base)?;
    let facts = Vec::from_slice(alloc, numbering.facts.as_slice())?;
    Ok(GroundClauses {
        facts,
        clauses,
        gates,
        end,
    })
}
