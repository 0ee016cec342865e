//! Each limit of a text, on both of its sides.

use crate::tests::{Form, repeated, told};
use std::alloc::Global;
use std::test::Fail;

/// A text in which `open` and `close` stand so often round `middle`, and the report where they
/// stand once more than they may.
struct Limit {
    place: &'static str,
    form: Form,
    front: &'static str,
    open: &'static str,
    most: usize,
    middle: &'static str,
    close: &'static str,
    back: &'static str,
    over: &'static str,
}

/// The front of a create policy that is a set, of 30 bytes.
const SET: &str = "M::UpdatePolicy({create: x -> ";

/// The front of an initialiser that is an expression, of 51 bytes.
const EXPR: &str = "M::AddField(a: Int {read: none, write: none}, x -> ";

const LIMITS: [Limit; 13] = [
    Limit {
        place: "statics of a specification",
        form: Form::Spec,
        front: "",
        open: "static A ",
        most: 64,
        middle: "",
        close: "",
        back: "",
        over: "too many statics at 576",
    },
    Limit {
        place: "models of a specification",
        form: Form::Spec,
        front: "",
        open: "model M {create: none, delete: none}",
        most: 64,
        middle: "",
        close: "",
        back: "",
        over: "too many models at 2304",
    },
    Limit {
        place: "fields of a model",
        form: Form::Script,
        front: "CreateModel(model M {create: none, delete: none",
        open: ", f: Int {read: none, write: none}",
        most: 64,
        middle: "",
        close: "",
        back: "})",
        over: "too many fields at 2225",
    },
    Limit {
        place: "commands of a script",
        form: Form::Script,
        front: "",
        open: "AddStatic(A)",
        most: 256,
        middle: "",
        close: "",
        back: "",
        over: "too many commands at 3072",
    },
    Limit {
        place: "levels, of a set",
        form: Form::Script,
        front: SET,
        open: "(",
        most: 63,
        middle: "[A]",
        close: ")",
        back: "})",
        over: "too deep at 94",
    },
    // The item of the list is at level 2.
    Limit {
        place: "levels, of an expression in a set",
        form: Form::Script,
        front: "M::UpdatePolicy({create: x -> [",
        open: "(",
        most: 62,
        middle: "x",
        close: ")",
        back: "]})",
        over: "too deep at 94",
    },
    Limit {
        place: "levels, of an expression",
        form: Form::Script,
        front: EXPR,
        open: "(",
        most: 63,
        middle: "x",
        close: ")",
        back: ")",
        over: "too deep at 115",
    },
    // 1,023 tokens, and 1,025, of which the last is the bracket.
    Limit {
        place: "tokens, of a set that ends behind them",
        form: Form::Script,
        front: "M::UpdatePolicy({create: x -> [x",
        open: ", A",
        most: 510,
        middle: "",
        close: "",
        back: "]})",
        over: "too many tokens at 1565",
    },
    // 1,024 tokens, and 1,026, of which the last but one is a static.
    Limit {
        place: "tokens, of a set that goes on",
        form: Form::Script,
        front: "M::UpdatePolicy({create: x -> [!x",
        open: ", A",
        most: 510,
        middle: "",
        close: "",
        back: "]})",
        over: "too many tokens at 1565",
    },
    // 1,023 tokens, and 1,025, of which the last is a variable.
    Limit {
        place: "tokens, of an expression that ends behind them",
        form: Form::Script,
        front: "M::AddField(a: Int {read: none, write: none}, x -> x",
        open: "&&x",
        most: 511,
        middle: "",
        close: "",
        back: ")",
        over: "too many tokens at 1587",
    },
    // 1,024 tokens, and 1,026, of which the last but one is a variable.
    Limit {
        place: "tokens, of an expression that goes on",
        form: Form::Script,
        front: "M::AddField(a: Int {read: none, write: none}, x -> (!x",
        open: "&&x",
        most: 510,
        middle: "",
        close: "",
        back: "))",
        over: "too many tokens at 1586",
    },
    Limit {
        place: "bytes of a name",
        form: Form::Script,
        front: "AddStatic(A",
        open: "a",
        most: 63,
        middle: "",
        close: "",
        back: ")",
        over: "too many name bytes at 10",
    },
    Limit {
        place: "bytes of a text",
        form: Form::Script,
        front: "M::WeakenPolicy({create: none}, \"",
        open: "a",
        most: 4096,
        middle: "",
        close: "",
        back: "\")",
        over: "too many text bytes at 32",
    },
];

impl Limit {
    /// What is answered where they stand so often.
    fn told(&self, alloc: Global, times: usize) -> Result<String, Fail> {
        let front = self.front.as_bytes();
        let middle = self.middle.as_bytes();
        let back = self.back.as_bytes();
        let opened = repeated(alloc, front, self.open.as_bytes(), times, middle)?;
        let close = self.close.as_bytes();
        let text = repeated(alloc, opened.as_slice(), close, times, back)?;
        told(alloc, self.form, text.as_slice())
    }
}

#[test]
fn each_limit_is_exact(rt: HostRuntime) -> Result<(), Fail> {
    for limit in &LIMITS {
        let within = limit.told(rt.alloc(), limit.most)?;
        assert_eq!(rt; within.as_str(), "read", "of {}", limit.place);
        let over = limit.told(rt.alloc(), limit.most.saturating_add(1))?;
        assert_eq!(rt; over.as_str(), limit.over, "of {}", limit.place);
    }
    Ok(())
}

/// At level 65 what begins neither an expression nor a set is outside the grammar.
#[test]
fn what_is_too_deep_begins_something(rt: HostRuntime) -> Result<(), Fail> {
    for (front, wanted) in [
        (SET, "not grammar at token 73"),
        (EXPR, "not grammar at token 83"),
    ] {
        let text = repeated(rt.alloc(), front.as_bytes(), b"(", 64, b"]")?;
        let refusal = told(rt.alloc(), Form::Script, text.as_slice())?;
        assert_eq!(rt; refusal.as_str(), wanted);
    }
    Ok(())
}

/// A file of signs that is as long as it may be has as many tokens, and begins no specification.
#[test]
fn a_file_of_signs_is_refused(rt: HostRuntime) -> Result<(), Fail> {
    let text = vec![in rt.alloc(); b'('; 1_048_576]?;
    let refusal = told(rt.alloc(), Form::Spec, text.as_slice())?;
    assert_eq!(rt; refusal.as_str(), "not grammar at token 0");
    Ok(())
}
