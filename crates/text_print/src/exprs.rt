//! Expressions and sets.

ghost use Rattle.std.specs.Prelude.{◌≡◌, ◌++◌, OnOk, map};
ghost use Rattle.text_print.specs.Exprs.{at_least, between, cmp_sign, commas, container, filter_sign};
ghost use Rattle.text_print.specs.Exprs.{spelled_expr, spelled_filter, spelled_item, spelled_set};
ghost use Rattle.text_print.specs.Marks.{text_of_marks};

use crate::printer::Printer;
use std::alloc::AllocError;
use text_tree::{CmpOp, Expr, Filter, FilterOp, Item, SetExpr};

/// How tightly the spelling of an expression holds together.
fn expr_rank(e: &Expr) -> u32
    ensures { result ≡ (spelled_expr e.now).rank }
{
    match e {
        Expr::IfE(..) | Expr::MatchE(..) => 0,
        Expr::Or(..) => 1,
        Expr::And(..) => 2,
        Expr::Cmp(..) | Expr::Member(..) => 3,
        Expr::Not(..) => 4,
        Expr::Flag(..) | Expr::Num(..) | Expr::Str(..) | Expr::NoneLit(..) | Expr::SomeLit(..) => 5,
        Expr::Var(..) | Expr::Get(..) => 6,
    }
}

/// How tightly the spelling of a set holds together.
fn set_rank(set: &SetExpr) -> u32
    ensures { result ≡ (spelled_set set.now).rank }
{
    match set {
        SetExpr::IfS(..) | SetExpr::MatchS(..) => 0,
        SetExpr::Sum(..) | SetExpr::Less(..) => 1,
        SetExpr::Everyone(..)
        | SetExpr::Nobody(..)
        | SetExpr::List(..)
        | SetExpr::Find(..)
        | SetExpr::MapS(..)
        | SetExpr::FlatS(..) => 2,
        SetExpr::Path(..) => 3,
    }
}

/// The sign of a comparison, with its blanks.
fn cmp_sign(op: CmpOp) -> &'static [u8]
    ensures { result.now ≡ text_of_marks (between (cmp_sign op)) }
{
    match op {
        CmpOp::Eq => b" == ",
        CmpOp::Ne => b" != ",
        CmpOp::Lt => b" < ",
        CmpOp::Le => b" <= ",
        CmpOp::Gt => b" > ",
        CmpOp::Ge => b" >= ",
    }
}

/// What stands between a filter's field and its value.
fn filter_sign(op: FilterOp) -> &'static [u8]
    ensures { result.now ≡ text_of_marks (filter_sign op) }
{
    match op {
        FilterOp::Cmp(CmpOp::Eq) => b": ",
        FilterOp::Cmp(op) => cmp_sign(op),
        FilterOp::Has => b" has ",
    }
}

impl Printer {
    /// Writes an expression, in parentheses unless it holds together so tightly.
    #[cycle(print)]
    fn expr_within(&mut self, least: u32, e: &Expr) -> Result<(), AllocError>
        ensures { OnOk result (self.new
            ≡ self.old ++ text_of_marks (at_least least (spelled_expr e.now))) }
    {
        if expr_rank(e) >= least {
            return self.expr(e);
        }
        self.put(b"(")?;
        self.expr(e)?;
        self.put(b")")?;
        Ok(())
    }

    // Long, since each form of an expression has its own arm.
    /// Writes an expression.
    #[cycle(print)]
    pub fn expr(&mut self, e: &Expr) -> Result<(), AllocError>
        ensures { OnOk result (self.new ≡ self.old ++ text_of_marks (spelled_expr e.now).marks) }
    {
        match e {
            Expr::Flag(_, true) => self.put(b"true"),
            Expr::Flag(_, false) => self.put(b"false"),
            Expr::Num(_, value) => self.number(*value),
            Expr::Str(_, value) => self.text(value.get().bytes()),
            Expr::Var(_, x) => self.put(x.name.bytes()),
            Expr::NoneLit(_) => self.put(b"none"),
            Expr::SomeLit(_, inner) => {
                self.put(b"some(")?;
                self.expr(inner.get())?;
                self.put(b")")?;
                Ok(())
            }
            Expr::Get(_, of, field) => {
                self.expr_within(6, of.get())?;
                self.put(b".")?;
                self.put(field.get().name.bytes())?;
                Ok(())
            }
            Expr::Cmp(_, op, a, b) => {
                self.expr_within(4, a.get())?;
                self.put(cmp_sign(*op))?;
                self.expr_within(4, b.get())?;
                Ok(())
            }
            Expr::Member(_, of, set) => {
                self.expr_within(4, of.get())?;
                self.put(b" in ")?;
                self.container(set.get())?;
                Ok(())
            }
            Expr::Not(_, inner) => {
                self.put(b"!")?;
                self.expr_within(5, inner.get())?;
                Ok(())
            }
            Expr::And(_, a, b) => {
                self.expr_within(2, a.get())?;
                self.put(b" && ")?;
                self.expr_within(3, b.get())?;
                Ok(())
            }
            Expr::Or(_, a, b) => {
                self.expr_within(1, a.get())?;
                self.put(b" || ")?;
                self.expr_within(2, b.get())?;
                Ok(())
            }
            Expr::IfE(_, c, a, b) => {
                self.put(b"if ")?;
                self.expr(c.get())?;
                self.put(b" then ")?;
                self.expr(a.get())?;
                self.put(b" else ")?;
                self.expr(b.get())?;
                Ok(())
            }
            Expr::MatchE(_, of, none, some) => {
                let (x, each) = some.get();
                self.put(b"match ")?;
                self.expr(of.get())?;
                self.put(b" with none -> ")?;
                self.expr(none.get())?;
                self.put(b" | some ")?;
                self.put(x.name.bytes())?;
                self.put(b" -> ")?;
                self.expr(each)?;
                Ok(())
            }
        }
    }

    /// Writes the set after `in`: a path as it is, another set in braces.
    #[cycle(print)]
    fn container(&mut self, set: &SetExpr) -> Result<(), AllocError>
        ensures { OnOk result (self.new
            ≡ self.old ++ text_of_marks (container (spelled_set set.now))) }
    {
        if set_rank(set) == 3 {
            return self.set(set);
        }
        self.put(b"{")?;
        self.set(set)?;
        self.put(b"}")?;
        Ok(())
    }

    /// Writes a set, in parentheses unless it holds together so tightly.
    #[cycle(print)]
    fn set_within(&mut self, least: u32, set: &SetExpr) -> Result<(), AllocError>
        ensures { OnOk result (self.new
            ≡ self.old ++ text_of_marks (at_least least (spelled_set set.now))) }
    {
        if set_rank(set) >= least {
            return self.set(set);
        }
        self.put(b"(")?;
        self.set(set)?;
        self.put(b")")?;
        Ok(())
    }

    // Long, since each form of a set has its own arm.
    /// Writes a set.
    #[cycle(print)]
    pub fn set(&mut self, set: &SetExpr) -> Result<(), AllocError>
        ensures { OnOk result (self.new ≡ self.old ++ text_of_marks (spelled_set set.now).marks) }
    {
        match set {
            SetExpr::Everyone(..) => self.put(b"public"),
            SetExpr::Nobody(_) => self.put(b"none"),
            SetExpr::List(_, items) => {
                self.put(b"[")?;
                self.items(items.as_slice())?;
                self.put(b"]")?;
                Ok(())
            }
            SetExpr::Sum(_, a, b) => {
                self.set_within(1, a.get())?;
                self.put(b" + ")?;
                self.set_within(2, b.get())?;
                Ok(())
            }
            SetExpr::Less(_, a, b) => {
                self.set_within(1, a.get())?;
                self.put(b" - ")?;
                self.set_within(2, b.get())?;
                Ok(())
            }
            SetExpr::Find(_, model, filters) => {
                self.put(model.get().name.bytes())?;
                self.put(b"::Find({")?;
                self.filters(filters.as_slice())?;
                self.put(b"})")?;
                Ok(())
            }
            SetExpr::Path(_, e) => self.expr_within(6, e),
            SetExpr::MapS(_, of, x, e) => {
                self.set(of.get())?;
                self.put(b".map(")?;
                self.put(x.get().name.bytes())?;
                self.put(b" -> ")?;
                self.expr(e.get())?;
                self.put(b")")?;
                Ok(())
            }
            SetExpr::FlatS(_, of, x, inner) => {
                self.set(of.get())?;
                self.put(b".flat_map(")?;
                self.put(x.get().name.bytes())?;
                self.put(b" -> ")?;
                self.set(inner.get())?;
                self.put(b")")?;
                Ok(())
            }
            SetExpr::IfS(_, c, a, b) => {
                self.put(b"if ")?;
                self.expr(c.get())?;
                self.put(b" then ")?;
                self.set(a.get())?;
                self.put(b" else ")?;
                self.set(b.get())?;
                Ok(())
            }
            SetExpr::MatchS(_, of, none, x, some) => {
                self.put(b"match ")?;
                self.expr(of.get())?;
                self.put(b" with none -> ")?;
                self.set(none.get())?;
                self.put(b" | some ")?;
                self.put(x.get().name.bytes())?;
                self.put(b" -> ")?;
                self.set(some.get())?;
                Ok(())
            }
        }
    }

    /// Writes an item of a list.
    #[cycle(print)]
    fn item(&mut self, item: &Item) -> Result<(), AllocError>
        ensures { OnOk result (self.new ≡ self.old ++ text_of_marks (spelled_item item.now)) }
    {
        match item {
            Item::Static(name) => self.put(name.name.bytes()),
            Item::One(e) => self.expr(e),
        }
    }

    /// Writes items with commas between.
    #[cycle(print)]
    fn items(&mut self, items: &[Item]) -> Result<(), AllocError>
        ensures { OnOk result (self.new
            ≡ self.old ++ text_of_marks (commas (map spelled_item items.now))) }
    {
        let mut before: &[u8] = b"";
        for item in items {
            self.put(before)?;
            self.item(item)?;
            before = b", ";
        }
        Ok(())
    }

    /// Writes a filter of `Find`.
    #[cycle(print)]
    fn filter(&mut self, filter: &Filter) -> Result<(), AllocError>
        ensures { OnOk result (self.new ≡ self.old ++ text_of_marks (spelled_filter filter.now)) }
    {
        self.put(filter.field.name.bytes())?;
        self.put(filter_sign(filter.op))?;
        self.expr(&filter.value)?;
        Ok(())
    }

    /// Writes filters with commas between.
    #[cycle(print)]
    fn filters(&mut self, filters: &[Filter]) -> Result<(), AllocError>
        ensures { OnOk result (self.new
            ≡ self.old ++ text_of_marks (commas (map spelled_filter filters.now))) }
    {
        let mut before: &[u8] = b"";
        for filter in filters {
            self.put(before)?;
            self.filter(filter)?;
            before = b", ";
        }
        Ok(())
    }
}
