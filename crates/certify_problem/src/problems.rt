//! The clauses of a formula over ground terms.

ghost use Rattle.std.specs.Prelude.{◌≡◌, ◌≤◌, ◌<◌, Bool, List, [], IfOk, length, map};
ghost use Rattle.form_formula.specs.NormalForm.{IsNormal};
ghost use Rattle.form_formula.specs.Nodes.{IsFormula, formula_of};
ghost use Rattle.form_formula.specs.Over.{IsOver};
ghost use Rattle.form_formula.specs.Trees.{Formula};
ghost use Rattle.form_tables.specs.Vocabulary.{AreFormed};
ghost use Rattle.form_terms.specs.GroundTerms.{GroundTerm};
ghost use Rattle.ground_gates.specs.Clauses.{HaveInputsBelow};
ghost use Rattle.ground_terms.specs.TermLists.{terms_in};
ghost use Rattle.ground_problem.specs.Inputs.{AreFieldsOf, RelateTerms};
ghost use Rattle.ground_problem.specs.Spoken.{IsSpoken};
ghost use Rattle.ground_problem.specs.Words.{IsWords};
ghost use Rattle.certify_problem.specs.Making.{AreMadeOf, IsMadeOf};
ghost use Rattle.certify_clauses.specs.InMemory.{problem_in};
ghost use Rattle.certify_problem.specs.Problems.{IsProblemOf};

use crate::equalities::equalities_of;
use crate::listed::{all_clauses, listed, pad};
use crate::tables::{add_clauses, table_clauses};
use certify_atoms::{Reader, atoms_of, orders_of, see_texts, texts_of};
use certify_clauses::ListedClauses;
use form_formula::{Arena, Signature};
use ground_instances::instantiate;
use ground_problem::{FactLiteral, FactNode, GroundClauses, Spoken, ground_clauses, vocabulary_of};
use ground_terms::{Terms, variables_of};
use std::alloc::{AllocError, Global};

/// The instances of a formula with their vocabulary.
fn spoken_of(
    alloc: Global,
    arena: &Arena,
    id: u32,
    signature: &Signature,
    terms: Terms,
    closed: bool,
) -> Result<Spoken, AllocError>
    requires formula { IsFormula arena.now id }
    requires over { IsOver signature.now [] (formula_of arena.now id) }
    requires formed { AreFormed signature.now (formula_of arena.now id) (terms_in terms) }
    ensures spoken { IfOk result (IsSpoken signature.now arena.now (formula_of arena.now id)
        (terms_in terms) closed) }
    ensures relate { IfOk result (λ spoken. RelateTerms spoken.made.inputs) }
{
    let variables = variables_of(alloc, arena, id)?;
    let made = instantiate(alloc, arena, id, signature, terms)?;
    vocabulary_of(alloc, arena, signature, variables.as_slice(), made, closed)
}

/// The clauses of a certificate, by those on variables.
fn listed_by(
    alloc: Global,
    reader: Reader<'_>,
    ground: &GroundClauses,
) -> Result<ListedClauses, AllocError>
    requires { length ground.now.facts.items ≤ ground.now.end }
    ensures { IfOk result (IsMadeOf reader.entry.signature.now reader.entry.arena.now
        reader.entry.terms.now reader.entry.words.now reader.entry.texts.now ground.now) }
{
    let mut atoms = atoms_of(alloc, reader, ground.facts.as_slice())?;
    pad(ground.end, &mut atoms)?;
    let clauses = all_clauses(alloc, ground.clauses.as_slice(), ground.gates.as_slice())?;
    let made = listed(
        alloc,
        clauses,
        atoms,
        reader.terms.len(),
        reader.texts.len(),
    )?;
    Ok(made)
}

/// The clauses of a certificate, by those on facts, to which those on the order of numbers are
/// added.
fn made_with(
    alloc: Global,
    reader: Reader<'_>,
    spoken: &Spoken,
    facts: &[FactNode],
    tables: Vec<Vec<FactLiteral>>,
) -> Result<ListedClauses, AllocError>
    requires fields { AreFieldsOf spoken.now.made.terms spoken.now.made.inputs
        spoken.now.fields.items }
    requires relate { RelateTerms spoken.now.made.inputs }
    requires below { HaveInputsBelow (length spoken.now.made.inputs) spoken.now.made.gates }
    requires there { spoken.now.made.root < length spoken.now.made.gates }
    requires terms { reader.terms.now ≡ spoken.now.made.terms }
    requires words { reader.words.now ≡ spoken.now.words }
    ensures { IfOk result (AreMadeOf reader.entry.signature.now reader.entry.arena.now
        spoken.now reader.entry.texts.now (map (λ c. c.items) tables.items)) }
{
    let orders = orders_of(alloc, reader, facts)?;
    let mut all = tables;
    add_clauses(orders, &mut all)?;
    let ground = ground_clauses(alloc, reader.arena, spoken, all.as_slice())?;
    drop(all);
    listed_by(alloc, reader, &ground)
}

/// The clauses of a certificate for instances with their vocabulary.
fn made_for(
    alloc: Global,
    arena: &Arena,
    signature: &Signature,
    spoken: &Spoken,
) -> Result<ListedClauses, AllocError>
    requires words { IsWords spoken.now.made.terms spoken.now.words }
    requires fields { AreFieldsOf spoken.now.made.terms spoken.now.made.inputs
        spoken.now.fields.items }
    requires relate { RelateTerms spoken.now.made.inputs }
    requires below { HaveInputsBelow (length spoken.now.made.inputs) spoken.now.made.gates }
    requires there { spoken.now.made.root < length spoken.now.made.gates }
    ensures { IfOk result (λ c. (f : Formula) (terms : List GroundTerm) (closed : Bool) →
        IsSpoken signature.now arena.now f terms closed spoken.now →
        IsProblemOf signature.now f terms (problem_in c)) }
{
    let tables = table_clauses(alloc, arena, signature, spoken)?;
    let facts = equalities_of(alloc, tables.as_slice(), spoken.made.inputs.as_slice())?;
    let texts = texts_of(alloc, arena, facts.as_slice())?;
    let own = texts.as_slice();
    see_texts(own);
    let reader = Reader {
        signature,
        arena,
        terms: &spoken.made.terms,
        words: &spoken.words,
        texts: own,
    };
    made_with(alloc, reader, spoken, facts.as_slice(), tables)
}

/// The clauses of a formula in negation normal form over ground terms that are formed of each
/// other, which may be said to be closed. All are listed, those of congruence too, of which there
/// are as many as pairs of terms of one function or variable and of pairs of set relations.
pub fn clauses_over(
    alloc: Global,
    arena: &Arena,
    id: u32,
    signature: &Signature,
    terms: Terms,
    closed: bool,
) -> Result<ListedClauses, AllocError>
    requires formula { IsFormula arena.now id }
    requires over { IsOver signature.now [] (formula_of arena.now id) }
    requires normal { IsNormal (formula_of arena.now id) }
    requires formed { AreFormed signature.now (formula_of arena.now id) (terms_in terms) }
    ensures { IfOk result (λ c. IsProblemOf signature.now (formula_of arena.now id)
        (terms_in terms) (problem_in c)) }
{
    let spoken = spoken_of(alloc, arena, id, signature, terms, closed)?;
    made_for(alloc, arena, signature, &spoken)
}
