//! A formula as SMT-LIB.
//!
//! A sort has a predicate for the elements that there are, which may be none. A function leads from
//! these to such elements, truth values or numbers of 64 bits; a partial one has a predicate for
//! where it has a value, and an atom is false where a value is wanting. Formulas with texts are not
//! written.

ghost use Rattle.std.specs.Prelude.{◌<◌, length};

use crate::problem::Problem;
use form_formula::{Arena, FunSig, Node, Range, Signature};
use std::alloc::{AllocError, Global};

/// What an atom says of two terms.
#[derive(Clone, Copy)]
enum Sign {
    Equal,
    Below,
    /// A set relation holds of them.
    Related(u32),
}

/// What binds a variable.
#[derive(Clone, Copy)]
struct Quantifier {
    sort: u32,
    is_forall: bool,
}

/// A signature, and formulas over it.
#[derive(Clone, Copy)]
struct Source<'a> {
    signature: &'a Signature,
    arena: &'a Arena,
}

/// Whether a function is partial.
fn is_partial(signature: &Signature, f: u32) -> bool {
    match signature.funs.get(f as usize) {
        Some(sig) => sig.partial,
        None => false,
    }
}

/// Adds a number.
fn put_number(out: &mut String, n: i64) -> Result<(), AllocError> {
    let size = n.unsigned_abs();
    if n < 0 {
        write!(out, "(- {size})")
    } else {
        write!(out, "{size}")
    }
}

/// Adds a term.
fn put_term(arena: &Arena, out: &mut String, id: u32) -> Result<(), AllocError>
    requires { id < length arena.now }
{
    match arena.node(id) {
        Node::Bound(_, depth) => write!(out, "x{depth}"),
        Node::Num(n) => put_number(out, *n),
        Node::App(f, t) => {
            write!(out, "(f{f} ")?;
            put_term(arena, out, *t)?;
            out.push_str(")")
        }
        _ => Ok(()),
    }
}

/// Adds that a function has a value at a term that has one itself.
fn put_value_there(source: Source<'_>, out: &mut String, f: u32, t: u32) -> Result<(), AllocError>
    requires { t < length source.arena.now }
{
    if !is_partial(source.signature, f) {
        return Ok(());
    }
    write!(out, " (p{f} ")?;
    put_term(source.arena, out, t)?;
    out.push_str(")")
}

/// Adds, for each partial function in a term, that it has a value there.
fn put_presence(source: Source<'_>, out: &mut String, id: u32) -> Result<(), AllocError>
    requires { id < length source.arena.now }
{
    match source.arena.node(id) {
        Node::App(f, t) => {
            put_presence(source, out, *t)?;
            put_value_there(source, out, *f, *t)
        }
        _ => Ok(()),
    }
}

/// Adds a sign.
fn put_sign(out: &mut String, sign: Sign) -> Result<(), AllocError> {
    match sign {
        Sign::Equal => out.push_str("="),
        Sign::Below => out.push_str("<"),
        Sign::Related(r) => write!(out, "r{r}"),
    }
}

/// Adds what a sign says of two terms that have values.
fn put_pair(
    source: Source<'_>,
    out: &mut String,
    sign: Sign,
    s: u32,
    t: u32,
) -> Result<(), AllocError>
    requires left { s < length source.arena.now }
    requires right { t < length source.arena.now }
{
    out.push_str("(and true")?;
    put_presence(source, out, s)?;
    put_presence(source, out, t)?;
    out.push_str(" (")?;
    put_sign(out, sign)?;
    out.push_str(" ")?;
    put_term(source.arena, out, s)?;
    out.push_str(" ")?;
    put_term(source.arena, out, t)?;
    out.push_str("))")
}

/// Adds that a function has a value at a term.
fn put_present(source: Source<'_>, out: &mut String, f: u32, t: u32) -> Result<(), AllocError>
    requires { t < length source.arena.now }
{
    out.push_str("(and true")?;
    put_presence(source, out, t)?;
    put_value_there(source, out, f, t)?;
    out.push_str(")")
}

/// Adds that a function gives true at a term.
fn put_flag(source: Source<'_>, out: &mut String, f: u32, t: u32) -> Result<(), AllocError>
    requires { t < length source.arena.now }
{
    out.push_str("(and ")?;
    put_present(source, out, f, t)?;
    write!(out, " (f{f} ")?;
    put_term(source.arena, out, t)?;
    out.push_str("))")
}

/// Adds a quantifier over the elements that there are.
#[cycle(formula)]
fn put_quantified(
    source: Source<'_>,
    out: &mut String,
    quantifier: Quantifier,
    id: u32,
    depth: u32,
) -> Result<(), AllocError>
    requires { id < length source.arena.now }
{
    let sort = quantifier.sort;
    let (word, connective) = if quantifier.is_forall {
        ("forall", "=>")
    } else {
        ("exists", "and")
    };
    write!(
        out,
        "({word} ((x{depth} S{sort})) ({connective} (in{sort} x{depth}) "
    )?;
    put_formula(source, out, id, depth.saturating_add(1))?;
    out.push_str("))")
}

/// Adds a formula below so many quantifiers.
#[cycle(formula)]
fn put_formula(source: Source<'_>, out: &mut String, id: u32, depth: u32) -> Result<(), AllocError>
    requires { id < length source.arena.now }
{
    let node = source.arena.node(id);
    match node {
        Node::Yes => out.push_str("true"),
        Node::No => out.push_str("false"),
        Node::Eq(s, t) => put_pair(source, out, Sign::Equal, *s, *t),
        Node::Less(s, t) => put_pair(source, out, Sign::Below, *s, *t),
        Node::Has(r, s, t) => put_pair(source, out, Sign::Related(*r), *s, *t),
        Node::Flag(f, t) => put_flag(source, out, *f, *t),
        Node::Present(f, t) => put_present(source, out, *f, *t),
        Node::Not(a) => {
            out.push_str("(not ")?;
            put_formula(source, out, *a, depth)?;
            out.push_str(")")
        }
        Node::And(a, b) | Node::Or(a, b) => {
            let is_and = matches!(node, Node::And(..));
            out.push_str(if is_and { "(and " } else { "(or " })?;
            put_formula(source, out, *a, depth)?;
            out.push_str(" ")?;
            put_formula(source, out, *b, depth)?;
            out.push_str(")")
        }
        Node::Exists(sort, a) => {
            let quantifier = Quantifier {
                sort: *sort,
                is_forall: false,
            };
            put_quantified(source, out, quantifier, *a, depth)
        }
        Node::Forall(sort, a) => {
            let quantifier = Quantifier {
                sort: *sort,
                is_forall: true,
            };
            put_quantified(source, out, quantifier, *a, depth)
        }
        Node::Bound(..) | Node::Num(_) | Node::Str(_) | Node::App(..) => Ok(()),
    }
}

/// Adds a function.
fn put_function(out: &mut String, f: usize, sig: FunSig) -> Result<(), AllocError> {
    let from = sig.from;
    write!(out, "(declare-fun f{f} (S{from}) ")?;
    match sig.to {
        Range::Rec(sort) => write!(out, "S{sort}")?,
        Range::Flag => out.push_str("Bool")?,
        Range::Num => out.push_str("Int")?,
        Range::Str => out.push_str("String")?,
    }
    out.push_str(")\n")?;
    if sig.partial {
        writeln!(out, "(declare-fun p{f} (S{from}) Bool)")?;
    }
    put_range(out, f, sig)
}

/// Adds where the values of a function lie.
fn put_range(out: &mut String, f: usize, sig: FunSig) -> Result<(), AllocError> {
    let from = sig.from;
    write!(out, "(assert (forall ((x S{from})) (=> (and (in{from} x) ")?;
    if sig.partial {
        write!(out, "(p{f} x)) ")?;
    } else {
        out.push_str("true) ")?;
    }
    match sig.to {
        Range::Rec(sort) => write!(out, "(in{sort} (f{f} x))")?,
        Range::Num => {
            let (low, high) = (i64::MIN.unsigned_abs(), i64::MAX);
            write!(out, "(<= (- {low}) (f{f} x) {high})")?;
        }
        Range::Flag | Range::Str => out.push_str("true")?,
    }
    out.push_str(")))\n")
}

/// Adds sorts, functions and set relations.
fn put_signature(out: &mut String, signature: &Signature) -> Result<(), AllocError> {
    for sort in 0..signature.sorts {
        writeln!(out, "(declare-sort S{sort} 0)")?;
        writeln!(out, "(declare-fun in{sort} (S{sort}) Bool)")?;
    }
    for (f, sig) in signature.funs.as_slice().iter().enumerate() {
        put_function(out, f, *sig)?;
    }
    for (r, sig) in signature.sets.as_slice().iter().enumerate() {
        let (from, to) = (sig.from, sig.to);
        writeln!(out, "(declare-fun r{r} (S{from} S{to}) Bool)")?;
    }
    Ok(())
}

/// The text of a problem.
pub fn text_of(alloc: Global, problem: &Problem) -> Result<String, AllocError> {
    let source = Source {
        signature: &problem.signature,
        arena: problem.forms.arena(),
    };
    let mut out = String::new(alloc);
    out.push_str("(set-logic ALL)\n")?;
    put_signature(&mut out, source.signature)?;
    out.push_str("(assert ")?;
    if (problem.formula as usize) < source.arena.len() {
        put_formula(source, &mut out, problem.formula, 0)?;
    }
    out.push_str(")\n(check-sat)\n")?;
    Ok(out)
}
