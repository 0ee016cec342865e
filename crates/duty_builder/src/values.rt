//! Values, and what is asked of them.

ghost use Rattle.std.specs.Prelude.{◌≡◌, ◌+◌, ◌||◌, suc, IfOk};
ghost use Rattle.data_meaning.specs.Meaning.{same_truth};
ghost use Rattle.std.specs.Option.{option_map, option_copied};
ghost use Rattle.duty_meaning.specs.Formulas as asked;
ghost use Rattle.duty_writer.specs.Terms.{term_data};
ghost use Rattle.duty_builder.specs.Values.{who_data, IsAsked};

use duty_writer::Term;
use std::alloc::AllocError;
use text_tree::FilterOp;
use type_schema::{FieldNo, ModelNo, StaticNo, TExpr, TFilter, TSet};

/// Whom a set is asked about.
#[derive(Clone, Copy)]
pub enum Who<'a> {
    Static(StaticNo),
    /// A record of the model.
    Record(ModelNo, &'a Term<'a>),
    /// A record that is of each kind, as sizes take it.
    EachKind(&'a Term<'a>),
}

/// A value without choices.
#[cycle(values)]
#[derive(Clone, Copy)]
pub enum End<'a> {
    Term(&'a Term<'a>),
    /// What a field of the structure holds at a term.
    Held(ModelNo, FieldNo, &'a Term<'a>),
    /// The truth value of an expression.
    Truth(&'a Scene<'a>, &'a TExpr),
    /// The records of the model in a set.
    Among(&'a Scene<'a>, ModelNo, &'a TSet),
    None,
    Some(&'a End<'a>),
}

/// The values of the variables, and the added fields that are written out.
#[cycle(values)]
#[derive(Clone, Copy)]
pub enum Scene<'a> {
    /// No variables; so many added fields are written out.
    Start(usize),
    /// One more variable.
    Inner(&'a Scene<'a>, &'a End<'a>),
}

/// A value that is still to be walked.
#[derive(Clone, Copy)]
pub enum Source<'a> {
    /// What an expression gives.
    Expr(&'a Scene<'a>, &'a TExpr),
    /// What a field holds at a term, where so many added fields are written out.
    Field(usize, ModelNo, FieldNo, &'a Term<'a>),
}

/// What is to be done at each end of a value, and then at each end of what that gives.
#[derive(Clone, Copy)]
pub enum Steps<'a> {
    /// No more.
    Done,
    /// To take a field of the record that it is, where so many added fields are written out.
    Get(usize, ModelNo, FieldNo, &'a Steps<'a>),
    /// To take apart the option that it is.
    Match(&'a Scene<'a>, &'a TExpr, &'a TExpr, &'a Steps<'a>),
    /// To put it into an option.
    Wrap(&'a Steps<'a>),
    /// To put the value of the expression, whose first end it is, into an option.
    Just(&'a Scene<'a>, &'a TExpr, &'a Steps<'a>),
}

/// What is asked of each end: whether a truth value is as the sign says, and so on.
#[derive(Clone, Copy)]
pub enum Goal<'a> {
    Holds(bool),
    /// Whether the set at the end has the term.
    Has(bool, &'a Term<'a>),
    /// Whether the term is equal to the term at the end.
    Equal(bool, &'a Term<'a>),
    /// Whether the term is below the term at the end.
    Below(bool, &'a Term<'a>),
    /// Whether the term at the end is equal to the value.
    EqualTo(bool, &'a Source<'a>),
    /// Whether the term at the end is below the value.
    LessThan(bool, &'a Source<'a>),
    /// Whether the record of the model at the end is in the set.
    Within(bool, &'a Scene<'a>, ModelNo, &'a TSet),
    /// Whether the record of the model at the end is who is asked about.
    Is(bool, ModelNo, &'a Who<'a>),
    /// Whether the set has the term at the end.
    In(bool, &'a Source<'a>),
    /// Whether who is asked about is in the set that is chosen by the option at the end.
    Chosen(bool, &'a Scene<'a>, &'a TSet, &'a TSet, &'a Who<'a>),
    /// Whether the option at the end has a value is as the sign says, and the use, where such a
    /// value is that of one more variable, reads its field of the record that the term is.
    Taken(bool, &'a Scene<'a>, &'a Use<'a>, &'a Term<'a>),
    /// A formula of the size that the value at the end counts as.
    Cost,
}

/// A use of a field, by its number in an expression or in a set, counted from 0.
#[derive(Clone, Copy)]
pub enum Use<'a> {
    InExpr(&'a TExpr, usize),
    InSet(&'a TSet, usize),
}

/// A part of a formula that is still to be written.
#[derive(Clone, Copy)]
pub enum Part<'a> {
    /// Whether a truth value is as the sign says.
    Holds(&'a Source<'a>, bool),
    /// Whether who is asked about is in a set.
    Member(&'a Scene<'a>, &'a TSet, &'a Who<'a>, bool),
    /// Whether a field has a value at a term.
    Present(bool, ModelNo, FieldNo, &'a Term<'a>),
    /// That a use reads its field of the record that the term is.
    Reach(&'a Scene<'a>, &'a Use<'a>, &'a Term<'a>),
}

/// One step deeper into a walk.
pub(crate) fn deeper(fuel: u32) -> Result<u32, AllocError>
    ensures { IfOk result (λ less. less + 1 ≡ fuel) }
{
    fuel.checked_sub(1).ok_or(AllocError)
}

/// Below one more quantifier.
pub(crate) fn below(above: u32) -> Result<u32, AllocError>
    ensures { IfOk result (λ more. more ≡ suc above) }
{
    above.checked_add(1).ok_or(AllocError)
}

/// The term to ask about where records of the model are asked for.
pub(crate) fn asked_about<'a>(who: &Who<'a>, m: ModelNo) -> Option<&'a Term<'a>>
    ensures { IsAsked m who.now (option_map term_data (option_copied result)) }
{
    match who {
        Who::Static(_) => None,
        Who::Record(n, t) => { if *n == m { Some(*t) } else { None } }
        Who::EachKind(t) => Some(*t),
    }
}

/// Whether who is asked about is the static principal.
pub(crate) fn is_static(who: &Who<'_>, n: StaticNo) -> bool
    ensures { result ≡ asked.is_static n (who_data who.now) }
{
    match who {
        Who::Static(k) => *k == n,
        Who::Record(..) | Who::EachKind(_) => false,
    }
}

/// Whether two truth values are the same.
pub(crate) fn same_truth(a: bool, b: bool) -> bool
    ensures { result ≡ same_truth a b }
{
    if a { b } else { !b }
}

/// Whether one of two tests is passed.
pub(crate) fn any(a: bool, b: bool) -> bool
    ensures { result ≡ (a || b) }
{
    a || b
}

/// The field of a filter, how it is tested, and the value that it is tested with.
pub(crate) fn test_of(filter: &TFilter) -> (FieldNo, FilterOp, &TExpr)
    ensures { filter.now ≡ TFilter.Test result.0 result.1 result.2.now }
{
    match filter {
        TFilter::Test(f, op, e) => (*f, *op, e),
    }
}
