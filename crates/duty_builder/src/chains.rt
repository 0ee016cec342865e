//! Expressions over one record that are chains of fields: a field of it, a field of that record,
//! and so on, with added fields written out.
//!
//! The functions of a chain lie in a row that the caller has on the stack, since there is no
//! allocator where formulas are walked.

ghost use Rattle.std.specs.Prelude.{◌≡◌, ◌+◌, ◌∷◌, [], take, IfOk};
ghost use Rattle.type_schema.specs.Views.{expr_of};
ghost use Rattle.type_schema.specs.Schema.{Schema};
ghost use Rattle.form_formula.specs.Trees as tree;
ghost use Rattle.duty_meaning.specs.Cases.{at_term, held};
ghost use Rattle.duty_meaning.specs.Formulas.{cases_of, field_cases};
ghost use Rattle.duty_writer.specs.Terms.{term_data};
ghost use Rattle.duty_builder.specs.Values.{schema_in, written_upto, end_data};
ghost use Rattle.duty_builder.specs.Chains.{held_at, chain_cases, chain_term};

use crate::added::init_at;
use crate::start::Start;
use crate::values::{End, deeper};
use duty_writer::Term;
use std::alloc::AllocError;
use type_schema::{FieldNo, ModelNo, TExpr, TInit};

/// How many functions fit into a short row, as most chains have.
pub(crate) const SHORT_ROW: usize = 256;

/// How many fit into a long one. A chain that has more is walked as other expressions are.
pub(crate) const LONG_ROW: usize = 8192;

/// For how many steps of a walk a row counts, which take more of the stack than it does.
pub(crate) const SHORT_STEPS: u32 = 4;

pub(crate) const LONG_STEPS: u32 = 160;

/// Why an expression is not gone along as a chain.
#[derive(Clone, Copy)]
pub(crate) enum Stop {
    /// The row is full.
    Full,
    /// It is no chain.
    Other,
}

/// How far a chain has come: the fields that were passed, of which the functions of all but the
/// last lie at the front of a row.
#[derive(Clone, Copy)]
pub(crate) struct Chain {
    /// How many functions there are.
    count: usize,
    /// The last field, or none where the value is a term.
    last: Option<(ModelNo, FieldNo)>,
}

impl Chain {
    /// No field.
    pub(crate) fn new() -> Chain
        ensures count { result.count ≡ 0 }
        ensures last { result.last ≡ None }
    {
        Chain {
            count: 0,
            last: None,
        }
    }

    /// The functions of a row that are its.
    pub(crate) fn functions_in<'a>(&self, row: &'a [u32]) -> &'a [u32]
        ensures { result.now ≡ take self.now.count row.now }
    {
        &row[..self.count.min(row.len())]
    }

    /// What the last field holds at the term that the others give.
    pub(crate) fn end_at<'a>(&self, start: &Start<'_>, t: &'a Term<'a>) -> End<'a>
        ensures { end_data start.now result ≡ held_at self.now.last (term_data t.now) }
    {
        match self.last {
            Some((m, f)) => End::Held(m, f, t),
            None => End::Term(t),
        }
    }

    /// Makes the value a term, if there is room for the function of the last field.
    fn settle(&mut self, start: &Start<'_>, row: &mut [u32]) -> Result<(), Stop>
        ensures { IfOk result (λ _. (t : tree.Term) → chain_cases row.new self.new t
            ≡ at_term (chain_term (schema_in start.now) row.old self.old t)) }
    {
        let Some((m, f)) = self.last else {
            return Ok(());
        };
        if self.count >= row.len() {
            return Err(Stop::Full);
        }
        row[self.count] = start.function_of(m, f);
        self.count += 1;
        self.last = None;
        Ok(())
    }

    /// Adds a field of the structure, if there is room.
    fn add(
        &mut self,
        start: &Start<'_>,
        m: ModelNo,
        f: FieldNo,
        row: &mut [u32],
    ) -> Result<(), Stop>
        ensures { IfOk result (λ _. (t : tree.Term) → chain_cases row.new self.new t
            ≡ held m f (chain_term (schema_in start.now) row.old self.old t)) }
    {
        self.settle(start, &mut *row)?;
        self.last = Some((m, f));
        Ok(())
    }
}

/// So many steps deeper into a walk as a row counts for.
pub(crate) fn past_row(fuel: u32, steps: u32) -> Result<u32, AllocError>
    ensures { IfOk result (λ less. less + steps + 1 ≡ fuel) }
{
    deeper(fuel)?.checked_sub(steps).ok_or(AllocError)
}

/// Whether the expression takes a field. Others are no chains, so that with each initialiser that
/// is gone along there are more functions, and a full row ends the work.
pub(crate) fn takes_field(e: &TExpr) -> bool {
    matches!(e, TExpr::Get(..))
}

/// Adds the fields of an expression over the one variable, whose value is what the chain gave so
/// far.
#[cycle(chains)]
pub(crate) fn follow(
    start: &Start<'_>,
    upto: usize,
    e: &TExpr,
    chain: &mut Chain,
    row: &mut [u32],
    fuel: u32,
) -> Result<(), Stop>
    ensures { let c = start.now in let s = schema_in c in IfOk result (λ _. (t : tree.Term)
        → chain_cases row.new chain.new t ≡ cases_of s (written_upto c upto)
        (at_term (chain_term s row.old chain.old t) ∷ []) (expr_of e.now)) }
{
    let fuel = fuel.checked_sub(1).ok_or(Stop::Other)?;
    match e {
        TExpr::Var(0, _) => chain.settle(start, &mut *row),
        TExpr::Get(a, m, f) => {
            follow(start, upto, a.get(), &mut *chain, &mut *row, fuel)?;
            follow_field(start, upto, *m, *f, &mut *chain, &mut *row, fuel)
        }
        TExpr::Flag(_)
        | TExpr::Num(_)
        | TExpr::Str(_)
        | TExpr::Var(..)
        | TExpr::NoneLit
        | TExpr::SomeLit(_)
        | TExpr::Eq(..)
        | TExpr::Iff(..)
        | TExpr::Less(..)
        | TExpr::Member(..)
        | TExpr::Not(_)
        | TExpr::And(..)
        | TExpr::Or(..)
        | TExpr::IfE(..)
        | TExpr::MatchE(..) => Err(Stop::Other),
    }
}

/// Adds a field, or the fields of its initialiser where it was added.
#[cycle(chains)]
fn follow_field(
    start: &Start<'_>,
    upto: usize,
    m: ModelNo,
    f: FieldNo,
    chain: &mut Chain,
    row: &mut [u32],
    fuel: u32,
) -> Result<(), Stop>
    ensures { let c = start.now in let s = schema_in c in IfOk result (λ _. (t : tree.Term)
        → chain_cases row.new chain.new t ≡ field_cases s (written_upto c upto) m f
        (chain_term s row.old chain.old t)) }
{
    let fuel = fuel.checked_sub(1).ok_or(Stop::Other)?;
    let Some((before, init)) = init_at(start, upto, m, f) else {
        return chain.add(start, m, f, &mut *row);
    };
    match init {
        TInit::Plain(e) => {
            if takes_field(e) {
                follow(start, before, e, &mut *chain, &mut *row, fuel)
            } else {
                Err(Stop::Other)
            }
        }
        TInit::OfSet(..) => Err(Stop::Other),
    }
}
