//! Where a use of a field stands in an expression or a set.

ghost use Rattle.std.specs.Prelude.{◌≡◌, ℕ, if◌then◌else◌, nat_lt, length, map, IfOk};
ghost use Rattle.type_schema.specs.Schema.{Schema};
ghost use Rattle.type_schema.specs.Trees as plain;
ghost use Rattle.type_schema.specs.Uses.{uses_of};
ghost use Rattle.type_schema.specs.Views.{expr_of, set_of, item_of, items_of, filter_of, filters_of};
ghost use Rattle.form_formula.specs.Trees as tree;
ghost use Rattle.duty_meaning.specs.Formulas.{Written, Scene};
ghost use Rattle.duty_meaning.specs.Reach.{in_parts, reach, items_reach, filters_reach};
ghost use Rattle.duty_builder.specs.Places.{IsIn, IsInSet, IsPlace, place_data, sought_data};

use crate::counts::{count_expr, count_set};
use crate::values::{Use, test_of};
use std::alloc::AllocError;
use text_tree::CmpOp;
use type_schema::{ModelNo, TExpr, TFilter, TItem, TSet};

/// Where a use stands, one level down.
#[derive(Clone, Copy)]
pub(crate) enum Place<'a> {
    /// There is no such use.
    Nowhere,
    /// It is the field of a filter.
    Filter,
    /// It is the access of a field of the record that the expression gives.
    Access(&'a TExpr),
    /// It is in a part.
    Within(Use<'a>),
    /// It is in a part that is taken where the expression is as the sign says.
    Where(&'a TExpr, bool, Use<'a>),
    /// It is in a part that is taken where whether the option that the expression gives has a value
    /// is as the sign says.
    Taken(&'a TExpr, bool, Use<'a>),
    /// It is in the part that is taken at each record of the model in the set.
    Each(&'a TSet, ModelNo, Use<'a>),
}

/// A use that is looked for in a list.
#[derive(Clone, Copy)]
enum Sought<'a> {
    Found(Place<'a>),
    /// It has this number in what follows.
    Left(usize),
}

/// The first place where the number is below the count, and the second otherwise.
fn pick<'a>(number: usize, count: usize, first: Place<'a>, second: Place<'a>) -> Place<'a>
    ensures { result ≡ (if nat_lt number count then first.entry else second.entry) }
{
    if number < count { first } else { second }
}

/// The place of a use.
pub(crate) fn place_of<'a>(used: &Use<'a>) -> Result<Place<'a>, AllocError>
    ensures { IfOk result (λ place. IsPlace place used.now) }
{
    match used {
        Use::InExpr(e, number) => expr_place(&**e, *number),
        Use::InSet(set, number) => set_place(&**set, *number),
    }
}

/// The place of a use in an expression.
fn expr_place(e: &TExpr, number: usize) -> Result<Place<'_>, AllocError>
    ensures { IfOk result (λ place. IsIn place (expr_of e.now) number) }
{
    match e {
        TExpr::Flag(_) | TExpr::Num(_) | TExpr::Str(_) | TExpr::Var(..) | TExpr::NoneLit => {
            Ok(Place::Nowhere)
        }
        TExpr::SomeLit(a) => Ok(Place::Within(Use::InExpr(a.get(), number))),
        TExpr::Not(a) => Ok(Place::Within(Use::InExpr(a.get(), number))),
        TExpr::Get(of, ..) => get_place(of.get(), number),
        TExpr::Eq(a, b, _) => two_exprs(a.get(), b.get(), number),
        TExpr::Iff(a, b, _) => two_exprs(a.get(), b.get(), number),
        TExpr::And(a, b) => two_exprs(a.get(), b.get(), number),
        TExpr::Or(a, b) => two_exprs(a.get(), b.get(), number),
        TExpr::Less(a, b, op) => less_place(a.get(), b.get(), *op, number),
        TExpr::Member(of, _, set) => member_place(of.get(), set.get(), number),
        TExpr::IfE(c, a, b) => if_place(c.get(), a.get(), b.get(), number),
        TExpr::MatchE(of, a, _, c) => match_place(of.get(), a.get(), c.get(), number),
    }
}

/// The place of a use in the access of a field.
fn get_place(of: &TExpr, number: usize) -> Result<Place<'_>, AllocError>
    ensures { IfOk result (λ place. (m f : ℕ) →
        IsIn place (plain.get (expr_of of.now) m f) number) }
{
    let count = count_expr(of, 0)?;
    let inner = Place::Within(Use::InExpr(of, number));
    Ok(pick(number, count, inner, Place::Access(of)))
}

/// The place of a use in one of two expressions.
fn two_exprs<'a>(a: &'a TExpr, b: &'a TExpr, number: usize) -> Result<Place<'a>, AllocError>
    ensures { IfOk result (λ place. IsIn place (plain.both (expr_of a.now)
        (expr_of b.now)) number) }
{
    let count = count_expr(a, 0)?;
    let rest = number.saturating_sub(count);
    let first = Place::Within(Use::InExpr(a, number));
    let second = Place::Within(Use::InExpr(b, rest));
    Ok(pick(number, count, first, second))
}

/// The place of a use in one of the sides of a comparison, which stand in the order of the text.
fn less_place<'a>(
    a: &'a TExpr,
    b: &'a TExpr,
    op: CmpOp,
    number: usize,
) -> Result<Place<'a>, AllocError>
    ensures { IfOk result (λ place. IsIn place
        (plain.less (expr_of a.now) (expr_of b.now) op) number) }
{
    match op {
        CmpOp::Eq | CmpOp::Ne | CmpOp::Lt | CmpOp::Ge => two_exprs(a, b, number),
        CmpOp::Le | CmpOp::Gt => two_exprs(b, a, number),
    }
}

/// The place of a use in an expression or the set that it is to be in.
fn member_place<'a>(of: &'a TExpr, set: &'a TSet, number: usize) -> Result<Place<'a>, AllocError>
    ensures { IfOk result (λ place. (m : ℕ) → IsIn place
        (plain.within (expr_of of.now) m (set_of set.now)) number) }
{
    let count = count_expr(of, 0)?;
    let rest = number.saturating_sub(count);
    let first = Place::Within(Use::InExpr(of, number));
    let second = Place::Within(Use::InSet(set, rest));
    Ok(pick(number, count, first, second))
}

/// The place of a use in a choice.
fn if_place<'a>(
    c: &'a TExpr,
    a: &'a TExpr,
    b: &'a TExpr,
    number: usize,
) -> Result<Place<'a>, AllocError>
    ensures { IfOk result (λ place. IsIn place
        (plain.if_expr (expr_of c.now) (expr_of a.now) (expr_of b.now)) number) }
{
    let count = count_expr(c, 0)?;
    let more = count_expr(a, 0)?;
    let rest = number.saturating_sub(count);
    let last = rest.saturating_sub(more);
    let first = Place::Within(Use::InExpr(c, number));
    let yes = Place::Where(c, true, Use::InExpr(a, rest));
    let no = Place::Where(c, false, Use::InExpr(b, last));
    let second = pick(rest, more, yes, no);
    Ok(pick(number, count, first, second))
}

/// The place of a use in a match on an option.
fn match_place<'a>(
    of: &'a TExpr,
    a: &'a TExpr,
    c: &'a TExpr,
    number: usize,
) -> Result<Place<'a>, AllocError>
    ensures { IfOk result (λ place. (name : plain.Name) → IsIn place
        (plain.match_expr (expr_of of.now) (expr_of a.now) name (expr_of c.now)) number) }
{
    let count = count_expr(of, 0)?;
    let more = count_expr(a, 0)?;
    let rest = number.saturating_sub(count);
    let last = rest.saturating_sub(more);
    let first = Place::Within(Use::InExpr(of, number));
    let none = Place::Taken(of, false, Use::InExpr(a, rest));
    let some = Place::Taken(of, true, Use::InExpr(c, last));
    let second = pick(rest, more, none, some);
    Ok(pick(number, count, first, second))
}

/// The place of a use in a set.
fn set_place(set: &TSet, number: usize) -> Result<Place<'_>, AllocError>
    ensures { IfOk result (λ place. IsInSet place (set_of set.now) number) }
{
    match set {
        TSet::Everyone | TSet::Nobody => Ok(Place::Nowhere),
        TSet::List(items) => items_place(items.as_slice(), number),
        TSet::Sum(a, b) => two_sets(a.get(), b.get(), number),
        TSet::Less(a, b) => two_sets(a.get(), b.get(), number),
        TSet::Find(_, filters) => filters_place(filters.as_slice(), number),
        TSet::Path(_, e) => Ok(Place::Within(Use::InExpr(e, number))),
        TSet::MapS(of, n, _, _, e) => mapped_place(of.get(), *n, e.get(), number),
        TSet::FlatS(of, n, _, body) => flat_place(of.get(), *n, body.get(), number),
        TSet::IfS(c, a, b) => if_set_place(c.get(), a.get(), b.get(), number),
        TSet::MatchS(of, a, _, c) => match_set_place(of.get(), a.get(), c.get(), number),
    }
}

/// The place of a use in one of two sets.
fn two_sets<'a>(a: &'a TSet, b: &'a TSet, number: usize) -> Result<Place<'a>, AllocError>
    ensures { IfOk result (λ place. IsInSet place (plain.union (set_of a.now)
        (set_of b.now)) number) }
{
    let count = count_set(a, 0)?;
    let rest = number.saturating_sub(count);
    let first = Place::Within(Use::InSet(a, number));
    let second = Place::Within(Use::InSet(b, rest));
    Ok(pick(number, count, first, second))
}

/// The place of a use in a set, or in an expression at each record of it.
fn mapped_place<'a>(
    of: &'a TSet,
    n: ModelNo,
    e: &'a TExpr,
    number: usize,
) -> Result<Place<'a>, AllocError>
    ensures { IfOk result (λ place. (name : plain.Name) (m : ℕ) → IsInSet place
        (plain.mapped (set_of of.now) n name m (expr_of e.now)) number) }
{
    let count = count_set(of, 0)?;
    let rest = number.saturating_sub(count);
    let first = Place::Within(Use::InSet(of, number));
    let second = Place::Each(of, n, Use::InExpr(e, rest));
    Ok(pick(number, count, first, second))
}

/// The place of a use in a set, or in another set at each record of it.
fn flat_place<'a>(
    of: &'a TSet,
    n: ModelNo,
    body: &'a TSet,
    number: usize,
) -> Result<Place<'a>, AllocError>
    ensures { IfOk result (λ place. (name : plain.Name) → IsInSet place
        (plain.flat_mapped (set_of of.now) n name (set_of body.now)) number) }
{
    let count = count_set(of, 0)?;
    let rest = number.saturating_sub(count);
    let first = Place::Within(Use::InSet(of, number));
    let second = Place::Each(of, n, Use::InSet(body, rest));
    Ok(pick(number, count, first, second))
}

/// The place of a use in a choice between sets.
fn if_set_place<'a>(
    c: &'a TExpr,
    a: &'a TSet,
    b: &'a TSet,
    number: usize,
) -> Result<Place<'a>, AllocError>
    ensures { IfOk result (λ place. IsInSet place
        (plain.if_set (expr_of c.now) (set_of a.now) (set_of b.now)) number) }
{
    let count = count_expr(c, 0)?;
    let more = count_set(a, 0)?;
    let rest = number.saturating_sub(count);
    let last = rest.saturating_sub(more);
    let first = Place::Within(Use::InExpr(c, number));
    let yes = Place::Where(c, true, Use::InSet(a, rest));
    let no = Place::Where(c, false, Use::InSet(b, last));
    let second = pick(rest, more, yes, no);
    Ok(pick(number, count, first, second))
}

/// The place of a use in a match on an option that gives sets.
fn match_set_place<'a>(
    of: &'a TExpr,
    a: &'a TSet,
    c: &'a TSet,
    number: usize,
) -> Result<Place<'a>, AllocError>
    ensures { IfOk result (λ place. (name : plain.Name) → IsInSet place
        (plain.match_set (expr_of of.now) (set_of a.now) name (set_of c.now)) number) }
{
    let count = count_expr(of, 0)?;
    let more = count_set(a, 0)?;
    let rest = number.saturating_sub(count);
    let last = rest.saturating_sub(more);
    let first = Place::Within(Use::InExpr(of, number));
    let none = Place::Taken(of, false, Use::InSet(a, rest));
    let some = Place::Taken(of, true, Use::InSet(c, last));
    let second = pick(rest, more, none, some);
    Ok(pick(number, count, first, second))
}

/// The place of a use in the items of a list.
fn items_place(items: &[TItem], number: usize) -> Result<Place<'_>, AllocError>
    ensures { IfOk result (λ place. IsInSet place
        (plain.listed (items_of (map item_of items.now))) number) }
{
    let mut left = number;
    for item in items {
        match item_place(item, left)? {
            Sought::Found(place) => return Ok(place),
            Sought::Left(number) => left = number,
        }
    }
    Ok(Place::Nowhere)
}

/// The place of a use in an item.
fn item_place(item: &TItem, number: usize) -> Result<Sought<'_>, AllocError>
    ensures { IfOk result (λ sought. (s : Schema) (written : Written) (y : tree.Term) (env : Scene)
        (above : ℕ) (rest : plain.Items) → sought_data s written y env sought
        (λ n. items_reach s written y env rest n above) above
        ≡ items_reach s written y env (item_of item.now rest) number above) }
{
    match item {
        TItem::Static(_) => Ok(Sought::Left(number)),
        TItem::One(_, e) => value_place(e, number),
    }
}

/// The place of a use in an expression, before what follows.
fn value_place(e: &TExpr, number: usize) -> Result<Sought<'_>, AllocError>
    ensures { IfOk result (λ sought. (s : Schema) (written : Written) (y : tree.Term) (env : Scene)
        (above : ℕ) (more : ℕ → tree.Formula) → sought_data s written y env sought more above
        ≡ in_parts (length (uses_of (expr_of e.now)))
        (λ n. reach s written y env (expr_of e.now) n above) more number) }
{
    let count = count_expr(e, 0)?;
    if number < count {
        return Ok(Sought::Found(Place::Within(Use::InExpr(e, number))));
    }
    Ok(Sought::Left(number - count))
}

/// The place of a use in filters.
fn filters_place(filters: &[TFilter], number: usize) -> Result<Place<'_>, AllocError>
    ensures { IfOk result (λ place. (m : ℕ) → IsInSet place
        (plain.find m (filters_of (map filter_of filters.now))) number) }
{
    let mut left = number;
    for filter in filters {
        match filter_place(filter, left)? {
            Sought::Found(place) => return Ok(place),
            Sought::Left(number) => left = number,
        }
    }
    Ok(Place::Nowhere)
}

/// The place of a use in the value of a filter, or at its field.
fn filter_place(filter: &TFilter, number: usize) -> Result<Sought<'_>, AllocError>
    ensures { IfOk result (λ sought. (s : Schema) (written : Written) (y : tree.Term) (env : Scene)
        (above m : ℕ) (rest : plain.Filters) → sought_data s written y env sought
        (λ n. filters_reach s written y env m rest n above) above
        ≡ filters_reach s written y env m (filter_of filter.now rest) number above) }
{
    let test = test_of(filter);
    let sought = value_place(test.2, number)?;
    Ok(past_field(sought))
}

/// The place of a use that has the number that is left, at the field of a filter, or else behind
/// it.
fn past_field(sought: Sought<'_>) -> Sought<'_>
    ensures { (s : Schema) (written : Written) (y : tree.Term) (env : Scene) (above : ℕ)
        (more : ℕ → tree.Formula) → sought_data s written y env result more above
        ≡ sought_data s written y env sought.entry (in_parts 1 (λ n. tree.yes) more) above }
{
    match sought {
        Sought::Found(place) => Sought::Found(place),
        Sought::Left(number) => {
            if number < 1 {
                Sought::Found(Place::Filter)
            } else {
                Sought::Left(number - 1)
            }
        }
    }
}
