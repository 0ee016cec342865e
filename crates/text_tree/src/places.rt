//! The first tokens of expressions and sets.

ghost use Rattle.std.specs.Prelude.{◌≡◌};
ghost use Rattle.text_tree.specs.Placed.{expr_at, placed_expr, placed_set, set_at};

use crate::exprs::{Expr, SetExpr};

impl Expr {
    /// The offset of its first token.
    #[tactic(auto, unfolding(crate::specs::Placed::expr_at))]
    pub fn at(&self) -> u32
        ensures { result ≡ expr_at self.now }
    {
        match self {
            Expr::Flag(at, _) => *at,
            Expr::Num(at, _) => *at,
            Expr::Str(at, _) => *at,
            Expr::Var(at, _) => *at,
            Expr::NoneLit(at) => *at,
            Expr::SomeLit(at, _) => *at,
            Expr::Get(at, _, _) => *at,
            Expr::Cmp(at, _, _, _) => *at,
            Expr::Member(at, _, _) => *at,
            Expr::Not(at, _) => *at,
            Expr::And(at, _, _) => *at,
            Expr::Or(at, _, _) => *at,
            Expr::IfE(at, _, _, _) => *at,
            Expr::MatchE(at, _, _, _) => *at,
        }
    }

    /// The expression with its first token at this offset, as of a parenthesis before it.
    #[tactic(auto, unfolding(crate::specs::Placed::placed_expr))]
    pub fn placed(self, at: u32) -> Expr
        ensures { result ≡ placed_expr at self }
    {
        match self {
            Expr::Flag(_, value) => Expr::Flag(at, value),
            Expr::Num(_, value) => Expr::Num(at, value),
            Expr::Str(_, text) => Expr::Str(at, text),
            Expr::Var(_, name) => Expr::Var(at, name),
            Expr::NoneLit(_) => Expr::NoneLit(at),
            Expr::SomeLit(_, inner) => Expr::SomeLit(at, inner),
            Expr::Get(_, of, field) => Expr::Get(at, of, field),
            Expr::Cmp(_, op, left, right) => Expr::Cmp(at, op, left, right),
            Expr::Member(_, of, set) => Expr::Member(at, of, set),
            Expr::Not(_, inner) => Expr::Not(at, inner),
            Expr::And(_, left, right) => Expr::And(at, left, right),
            Expr::Or(_, left, right) => Expr::Or(at, left, right),
            Expr::IfE(_, test, one, other) => Expr::IfE(at, test, one, other),
            Expr::MatchE(_, of, none, some) => Expr::MatchE(at, of, none, some),
        }
    }
}

impl SetExpr {
    /// The offset of its first token.
    #[tactic(auto, unfolding(crate::specs::Placed::set_at))]
    pub fn at(&self) -> u32
        ensures { result ≡ set_at self.now }
    {
        match self {
            SetExpr::Everyone(at, _) => *at,
            SetExpr::Nobody(at) => *at,
            SetExpr::List(at, _) => *at,
            SetExpr::Sum(at, _, _) => *at,
            SetExpr::Less(at, _, _) => *at,
            SetExpr::Find(at, _, _) => *at,
            SetExpr::Path(at, _) => *at,
            SetExpr::MapS(at, _, _, _) => *at,
            SetExpr::FlatS(at, _, _, _) => *at,
            SetExpr::IfS(at, _, _, _) => *at,
            SetExpr::MatchS(at, _, _, _, _) => *at,
        }
    }

    /// The set with its first token at this offset, as of a parenthesis before it.
    #[tactic(auto, unfolding(crate::specs::Placed::placed_set))]
    pub fn placed(self, at: u32) -> SetExpr
        ensures { result ≡ placed_set at self }
    {
        match self {
            SetExpr::Everyone(_, word) => SetExpr::Everyone(at, word),
            SetExpr::Nobody(_) => SetExpr::Nobody(at),
            SetExpr::List(_, items) => SetExpr::List(at, items),
            SetExpr::Sum(_, left, right) => SetExpr::Sum(at, left, right),
            SetExpr::Less(_, left, right) => SetExpr::Less(at, left, right),
            SetExpr::Find(_, model, filters) => SetExpr::Find(at, model, filters),
            SetExpr::Path(_, path) => SetExpr::Path(at, path),
            SetExpr::MapS(_, of, name, each) => SetExpr::MapS(at, of, name, each),
            SetExpr::FlatS(_, of, name, each) => SetExpr::FlatS(at, of, name, each),
            SetExpr::IfS(_, test, one, other) => SetExpr::IfS(at, test, one, other),
            SetExpr::MatchS(_, of, none, name, some) => SetExpr::MatchS(at, of, none, name, some),
        }
    }
}
