//! Negations, one in the other.

ghost use Rattle.type_schema.specs.Views.{expr_of};
ghost use Rattle.duty_builder.specs.Negations.{AsksTheSame};

use type_schema::TExpr;

/// The expression below the negations that stand one in the other, and the sign with which it is
/// asked for there.
#[cycle(unnegated)]
pub(crate) fn unnegated<'e>(e: &'e TExpr, sign: bool) -> (&'e TExpr, bool)
    ensures { AsksTheSame (expr_of e.entry.now) sign (expr_of result.0.now) result.1 }
{
    match e {
        TExpr::Not(inner) => unnegated(inner.get(), !sign),
        TExpr::Num(_)
        | TExpr::Str(_)
        | TExpr::Flag(_)
        | TExpr::Var(..)
        | TExpr::NoneLit
        | TExpr::SomeLit(_)
        | TExpr::Get(..)
        | TExpr::Eq(..)
        | TExpr::Iff(..)
        | TExpr::Less(..)
        | TExpr::Member(..)
        | TExpr::And(..)
        | TExpr::Or(..)
        | TExpr::IfE(..)
        | TExpr::MatchE(..) => (e, sign),
    }
}
