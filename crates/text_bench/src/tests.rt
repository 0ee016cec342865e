//! A text that is longer than its tree may be, and one with each kind of expression and set.

use std::alloc::Global;
use std::test::Fail;
use text_parse::{SyntaxErr, parse_spec};
use text_print::print_spec;
use text_tree::Spec;

/// The specification that a text of these tests spells, each of which is short enough.
fn spec_of(alloc: Global, text: &[u8]) -> Result<Spec, SyntaxErr> {
    if text.len() > 1_048_576 {
        return Err(SyntaxErr::OutOfMemory);
    }
    parse_spec(alloc, text)
}

#[test]
fn a_long_sum_is_refused_at_its_token_1_025(rt: HostRuntime) -> Result<(), Fail> {
    let mut text = Vec::from_slice(rt.alloc(), b"model M{create:x->x")?;
    for _ in 0..100_000 {
        text.extend_from_slice(b"+x")?;
    }
    text.extend_from_slice(b",delete:none}")?;
    let refusal = spec_of(rt.alloc(), text.as_slice()).err();
    let at = 18 + 1_024;
    assert_eq!(rt; refusal, Some(SyntaxErr::TooManyTokens { at }));
    Ok(())
}

#[test]
fn a_canonical_text_is_printed_as_it_is(rt: HostRuntime) -> Result<(), Fail> {
    let spec = spec_of(rt.alloc(), TEXT)?;
    assert_eq!(rt; print_spec(rt.alloc(), &spec)?.as_slice(), TEXT);
    Ok(())
}

/// A specification with each kind of expression and set, as it is printed.
const TEXT: &[u8] = b"static A
principal model M {
  create: public,
  delete: none,
  a: Bool {read: x -> [x, A], write: x -> x.b + M::Find({c: 1, b has x}) - public},
  b: Set(Id(M)) {read: x -> if !x.a && x.c < -2 || true then none else public, write: public},
  c: Int {read: x -> M::Find({}).map(y -> y.d), write: x -> x.b.flat_map(y -> [y.d])},
  d: Id(M) {read: x -> match x.e with none -> [] | some y -> [x], write: public},
  e: Option(Text) {read: x -> M::Find({e: some(\"s\"), e: none}), write: public},
  f: Int {read: x -> M::Find({c: if x in x.b then 1 else x.d.c}), write: public},
  g: Int {read: x -> M::Find({c: match x.e with none -> 1 | some y -> 2}), write: public},
}
";
