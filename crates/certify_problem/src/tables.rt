//! All clauses on facts.

ghost use Rattle.std.specs.Prelude.{◌≡◌, ◌++◌, IfOk, OnOk, map};
ghost use Rattle.form_tables.specs.Clauses.{base_clauses, congruence_clauses};
ghost use Rattle.ground_problem.specs.Facts.{clauses_at};
ghost use Rattle.ground_problem.specs.Words.{IsWords, vocabulary_at};

use form_formula::{Arena, Signature};
use ground_problem::{FactLiteral, Spoken, base_clauses, congruence_clauses};
use std::alloc::{AllocError, Global};

/// All clauses by which a table is consistent: those on one term, and then those of congruence.
pub(crate) fn table_clauses(
    alloc: Global,
    arena: &Arena,
    signature: &Signature,
    spoken: &Spoken,
) -> Result<Vec<Vec<FactLiteral>>, AllocError>
    requires { IsWords spoken.now.made.terms spoken.now.words }
    ensures { IfOk result (λ clauses. clauses_at arena.now spoken.now.made.terms (map (λ c.
        c.items) clauses.items) ≡ base_clauses signature.now (vocabulary_at spoken.now.made.terms
        spoken.now.words) ++ congruence_clauses signature.now (vocabulary_at spoken.now.made.terms
        spoken.now.words)) }
{
    let terms = &spoken.made.terms;
    let mut congruence = congruence_clauses(alloc, arena, signature, terms, &spoken.words)?;
    let mut clauses = base_clauses(alloc, arena, signature, terms, &spoken.words)?;
    clauses.append(&mut congruence)?;
    Ok(clauses)
}

/// Puts clauses at the end of others.
pub(crate) fn add_clauses(
    more: Vec<Vec<FactLiteral>>,
    clauses: &mut Vec<Vec<FactLiteral>>,
) -> Result<(), AllocError>
    ensures { OnOk result (map (λ c. c.items) clauses.new.items ≡ map (λ c. c.items)
        clauses.old.items ++ map (λ c. c.items) more.items) }
{
    let mut more = more;
    clauses.append(&mut more)?;
    Ok(())
}
