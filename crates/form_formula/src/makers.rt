//! Calls that add one node each.

ghost use Rattle.std.specs.Prelude.{◌≡◌, ◌<◌, length, IfOk, OnErr};
ghost use Rattle.form_formula.specs.Nodes.{IsTerm, IsFormula};
ghost use Rattle.form_formula.specs.Added.{IsAdded};
ghost use Rattle.form_formula.specs.declared.limits.TheConstants.{MOST_ARENA_NODES};

use crate::arena::Arena;
use crate::node::Node;
use std::alloc::AllocError;
use text_ast::Txt;

/// Each call gives the number of the node that it names, which is added if it is not there.
impl Arena {
    /// Makes a variable: the sort of its quantifier, and how many quantifiers stand above that one.
    pub fn mk_bound(&mut self, sort: u32, depth: u32) -> Result<u32, AllocError>
        requires { length self.old < MOST_ARENA_NODES }
        ensures made { IfOk result (IsAdded self.old (Node.Bound sort depth) self.new) }
        ensures err { OnErr result (self.new ≡ self.old) }
    {
        self.add(Node::Bound(sort, depth))
    }

    /// Makes a number.
    pub fn mk_num(&mut self, n: i64) -> Result<u32, AllocError>
        requires { length self.old < MOST_ARENA_NODES }
        ensures made { IfOk result (IsAdded self.old (Node.Num n) self.new) }
        ensures err { OnErr result (self.new ≡ self.old) }
    {
        self.add(Node::Num(n))
    }

    /// Makes a text, as a copy of the one given.
    pub fn mk_str(&mut self, t: &Txt) -> Result<u32, AllocError>
        requires { length self.old < MOST_ARENA_NODES }
        ensures made { IfOk result (IsAdded self.old (Node.Str t.now) self.new) }
        ensures err { OnErr result (self.new ≡ self.old) }
    {
        let copy = t.copy(self.allocator())?;
        self.add(Node::Str(copy))
    }

    /// Makes the value of a function at a term.
    pub fn mk_app(&mut self, f: u32, t: u32) -> Result<u32, AllocError>
        requires room { length self.old < MOST_ARENA_NODES }
        requires term { IsTerm self.old t }
        ensures made { IfOk result (IsAdded self.old (Node.App f t) self.new) }
        ensures err { OnErr result (self.new ≡ self.old) }
    {
        self.add(Node::App(f, t))
    }

    /// Makes the formula that is always true.
    pub fn mk_yes(&mut self) -> Result<u32, AllocError>
        requires { length self.old < MOST_ARENA_NODES }
        ensures made { IfOk result (IsAdded self.old Node.Yes self.new) }
        ensures err { OnErr result (self.new ≡ self.old) }
    {
        self.add(Node::Yes)
    }

    /// Makes the formula that is never true.
    pub fn mk_no(&mut self) -> Result<u32, AllocError>
        requires { length self.old < MOST_ARENA_NODES }
        ensures made { IfOk result (IsAdded self.old Node.No self.new) }
        ensures err { OnErr result (self.new ≡ self.old) }
    {
        self.add(Node::No)
    }

    /// Makes the equality of two terms.
    pub fn mk_eq(&mut self, s: u32, t: u32) -> Result<u32, AllocError>
        requires room { length self.old < MOST_ARENA_NODES }
        requires left { IsTerm self.old s }
        requires right { IsTerm self.old t }
        ensures made { IfOk result (IsAdded self.old (Node.Eq s t) self.new) }
        ensures err { OnErr result (self.new ≡ self.old) }
    {
        self.add(Node::Eq(s, t))
    }

    /// Makes that one number is below another.
    pub fn mk_less(&mut self, s: u32, t: u32) -> Result<u32, AllocError>
        requires room { length self.old < MOST_ARENA_NODES }
        requires left { IsTerm self.old s }
        requires right { IsTerm self.old t }
        ensures made { IfOk result (IsAdded self.old (Node.Less s t) self.new) }
        ensures err { OnErr result (self.new ≡ self.old) }
    {
        self.add(Node::Less(s, t))
    }

    /// Makes that a set relation holds of two terms.
    pub fn mk_has(&mut self, f: u32, s: u32, t: u32) -> Result<u32, AllocError>
        requires room { length self.old < MOST_ARENA_NODES }
        requires left { IsTerm self.old s }
        requires right { IsTerm self.old t }
        ensures made { IfOk result (IsAdded self.old (Node.Has f s t) self.new) }
        ensures err { OnErr result (self.new ≡ self.old) }
    {
        self.add(Node::Has(f, s, t))
    }

    /// Makes that a function to truth values gives true at a term.
    pub fn mk_flag(&mut self, f: u32, t: u32) -> Result<u32, AllocError>
        requires room { length self.old < MOST_ARENA_NODES }
        requires term { IsTerm self.old t }
        ensures made { IfOk result (IsAdded self.old (Node.Flag f t) self.new) }
        ensures err { OnErr result (self.new ≡ self.old) }
    {
        self.add(Node::Flag(f, t))
    }

    /// Makes that a function has a value at a term.
    pub fn mk_some(&mut self, f: u32, t: u32) -> Result<u32, AllocError>
        requires room { length self.old < MOST_ARENA_NODES }
        requires term { IsTerm self.old t }
        ensures made { IfOk result (IsAdded self.old (Node.Present f t) self.new) }
        ensures err { OnErr result (self.new ≡ self.old) }
    {
        self.add(Node::Present(f, t))
    }

    /// Makes the negation of a formula.
    pub fn mk_not(&mut self, a: u32) -> Result<u32, AllocError>
        requires room { length self.old < MOST_ARENA_NODES }
        requires formula { IsFormula self.old a }
        ensures made { IfOk result (IsAdded self.old (Node.Not a) self.new) }
        ensures err { OnErr result (self.new ≡ self.old) }
    {
        self.add(Node::Not(a))
    }

    /// Makes that both formulas are true.
    pub fn mk_and(&mut self, a: u32, b: u32) -> Result<u32, AllocError>
        requires room { length self.old < MOST_ARENA_NODES }
        requires left { IsFormula self.old a }
        requires right { IsFormula self.old b }
        ensures made { IfOk result (IsAdded self.old (Node.And a b) self.new) }
        ensures err { OnErr result (self.new ≡ self.old) }
    {
        self.add(Node::And(a, b))
    }

    /// Makes that one of the formulas is true.
    pub fn mk_or(&mut self, a: u32, b: u32) -> Result<u32, AllocError>
        requires room { length self.old < MOST_ARENA_NODES }
        requires left { IsFormula self.old a }
        requires right { IsFormula self.old b }
        ensures made { IfOk result (IsAdded self.old (Node.Or a b) self.new) }
        ensures err { OnErr result (self.new ≡ self.old) }
    {
        self.add(Node::Or(a, b))
    }

    /// Makes that a formula is true for some element of a sort.
    pub fn mk_exists(&mut self, sort: u32, a: u32) -> Result<u32, AllocError>
        requires room { length self.old < MOST_ARENA_NODES }
        requires formula { IsFormula self.old a }
        ensures made { IfOk result (IsAdded self.old (Node.Exists sort a) self.new) }
        ensures err { OnErr result (self.new ≡ self.old) }
    {
        self.add(Node::Exists(sort, a))
    }

    /// Makes that a formula is true for each element of a sort.
    pub fn mk_forall(&mut self, sort: u32, a: u32) -> Result<u32, AllocError>
        requires room { length self.old < MOST_ARENA_NODES }
        requires formula { IsFormula self.old a }
        ensures made { IfOk result (IsAdded self.old (Node.Forall sort a) self.new) }
        ensures err { OnErr result (self.new ≡ self.old) }
    {
        self.add(Node::Forall(sort, a))
    }
}
