//! Each place at which a form waits for a token, and refuses another one and the end of the text.

use crate::tests::{Form, tokens_of, told};
use std::alloc::Global;
use std::test::Fail;

/// Texts of one command each, by the production that they are for.
const SCRIPTS: [(&str, &str); 31] = [
    (
        "model with principal, of fields",
        "CreateModel(principal model M {create: none, delete: x -> [x], a: Bool {read: none, write: public}, b: Int {read: x -> [x], write: none},})",
    ),
    (
        "model without fields",
        "CreateModel(model M {create: public, delete: none})",
    ),
    (
        "base, each",
        "CreateModel(model M {create: none, delete: none, a: Bool {read: none, write: none}, b: Int {read: none, write: none}, c: Text {read: none, write: none}, d: Id(M) {read: none, write: none}})",
    ),
    (
        "type, Set",
        "CreateModel(model M {create: none, delete: none, a: Set(Id(M)) {read: none, write: none}})",
    ),
    (
        "type, Option",
        "CreateModel(model M {create: none, delete: none, a: Option(Id(M)) {read: none, write: none}, b: Option(Int) {read: none, write: none}})",
    ),
    ("command, DeleteModel", "DeleteModel(M)"),
    ("command, AddStatic", "AddStatic(A)"),
    ("command, RemoveStatic", "RemoveStatic(A)"),
    ("command, AddPrincipal", "AddPrincipal(M)"),
    (
        "command, AddField of an expression",
        "M::AddField(a: Option(Int) {read: none, write: public}, x -> x.a)",
    ),
    (
        "command, AddField of a set",
        "M::AddField(a: Set(Id(M)) {read: none, write: x -> [x]}, x -> [x] + x.b)",
    ),
    ("command, RemoveField", "M::RemoveField(a)"),
    (
        "command, UpdateFieldPolicy",
        "M::UpdateFieldPolicy(a, {read: none, write: x -> [x]})",
    ),
    (
        "frights, write alone",
        "M::UpdateFieldPolicy(a, {write: public})",
    ),
    (
        "command, WeakenFieldPolicy",
        "M::WeakenFieldPolicy(a, {read: public, write: none}, \"why\")",
    ),
    (
        "command, UpdatePolicy",
        "M::UpdatePolicy({create: none, delete: x -> [x]})",
    ),
    ("mrights, delete alone", "M::UpdatePolicy({delete: public})"),
    (
        "command, WeakenPolicy",
        "M::WeakenPolicy({create: public, delete: none}, \"why\")",
    ),
    (
        "expr, if",
        "M::AddField(a: Bool {read: none, write: none}, x -> if x.a then x.b else false)",
    ),
    (
        "expr, match",
        "M::AddField(a: Bool {read: none, write: none}, x -> match x.a with none -> true | some y -> y.b)",
    ),
    (
        "or, and, unary",
        "M::AddField(a: Bool {read: none, write: none}, x -> !x.a && true || x.b && !(x.c) || false)",
    ),
    (
        "cmp, each sign",
        "M::AddField(a: Bool {read: none, write: none}, x -> x.a == -1 && x.b != 2 && x.c < 3 && x.d <= 4 && x.e > 5 && x.f >= 6)",
    ),
    (
        "cmp, in",
        "M::AddField(a: Bool {read: none, write: none}, x -> x in x.a.b && x in (x).c && x in {x.d - [x]})",
    ),
    (
        "atom, some and none",
        "M::AddField(a: Bool {read: none, write: none}, x -> some(\"s\") == none)",
    ),
    (
        "set, if",
        "M::UpdatePolicy({create: x -> if x.a then public else none})",
    ),
    (
        "set, match",
        "M::UpdatePolicy({create: x -> match x.a with none -> [] | some y -> [y]})",
    ),
    (
        "sterm, with + and - between",
        "M::UpdatePolicy({create: x -> public + none - [x] + (x.a - x.b)})",
    ),
    (
        "item, each",
        "M::UpdatePolicy({create: x -> [x, A, x.a, 1, (x)]})",
    ),
    (
        "filter, each sign",
        "M::UpdatePolicy({create: x -> M::Find({a: 1, b == 2, c != 3, d < 4, e <= 5, f > 6, g >= 7, h has x})})",
    ),
    (
        "chain from Find",
        "M::UpdatePolicy({create: x -> M::Find({}).map(y -> y.a).map(z -> z).flat_map(v -> [v])})",
    ),
    (
        "chain from a path",
        "M::UpdatePolicy({create: x -> x.a.b.map(y -> y.c).flat_map(z -> z.d)})",
    ),
];

/// The same of specifications of one static or model.
const SPECS: [(&str, &str); 3] = [
    ("spec, static", "static A"),
    ("spec, model", "model M {create: none, delete: x -> [x]}"),
    (
        "spec, principal model",
        "principal model M {create: none, delete: none, a: Int {read: none, write: none},}",
    ),
];

/// Whether the text is refused as no text of the grammar at this token.
fn is_refused(alloc: Global, form: Form, text: &[u8], token: usize) -> Result<bool, Fail> {
    let wanted = format!(in alloc; "not grammar at token {token}")?;
    Ok(told(alloc, form, text)?.as_str() == wanted.as_str())
}

/// Whether a text is refused at the token that begins and ends there, where this token gives way
/// to a sign that stands in no form, and where the text ends before it.
fn is_awaited(
    alloc: Global,
    form: Form,
    text: &[u8],
    token: usize,
    (at, end): (usize, usize),
) -> Result<bool, Fail> {
    let front = text.get(..at).ok_or("no token")?;
    let mut exchanged = Vec::from_slice(alloc, front)?;
    exchanged.extend_from_slice(b"@ ")?;
    exchanged.extend_from_slice(text.get(end..).ok_or("no token")?)?;
    Ok(
        is_refused(alloc, form, exchanged.as_slice(), token)?
            && (token == 0 || is_refused(alloc, form, front, token)?),
    )
}

/// The first token of which that is not so, if there is one; one behind the last may not stand
/// there.
fn first_passed(alloc: Global, form: Form, text: &[u8]) -> Result<Option<usize>, Fail> {
    let tokens = tokens_of(alloc, text)?;
    for (number, token) in tokens.iter().enumerate() {
        let place = (token.at as usize, token.end as usize);
        if !is_awaited(alloc, form, text, number, place)? {
            return Ok(Some(number));
        }
    }
    let mut longer = Vec::from_slice(alloc, text)?;
    longer.extend_from_slice(b" @")?;
    if is_refused(alloc, form, longer.as_slice(), tokens.len())? {
        return Ok(None);
    }
    Ok(Some(tokens.len()))
}

#[test]
fn each_token_is_awaited(rt: HostRuntime) -> Result<(), Fail> {
    let alloc = rt.alloc();
    for (form, rows) in [
        (Form::Script, SCRIPTS.as_slice()),
        (Form::Spec, SPECS.as_slice()),
    ] {
        for (production, text) in rows {
            let read = told(alloc, form, text.as_bytes())?;
            assert_eq!(rt; read.as_str(), "read", "of {production}");
            let passed = first_passed(alloc, form, text.as_bytes())?;
            assert_eq!(rt; passed, None, "of {production}");
        }
    }
    Ok(())
}

/// The words that no field or variable may have as its name.
const LOWER: [&str; 22] = [
    "static",
    "principal",
    "model",
    "create",
    "delete",
    "read",
    "write",
    "public",
    "none",
    "some",
    "if",
    "then",
    "else",
    "match",
    "with",
    "in",
    "has",
    "true",
    "false",
    "map",
    "flat_map",
    "self",
];

/// The words that no static or model may have as its name.
const UPPER: [&str; 18] = [
    "Bool",
    "Int",
    "Text",
    "Id",
    "Set",
    "Option",
    "Find",
    "CreateModel",
    "DeleteModel",
    "AddField",
    "RemoveField",
    "UpdateFieldPolicy",
    "WeakenFieldPolicy",
    "UpdatePolicy",
    "WeakenPolicy",
    "AddStatic",
    "RemoveStatic",
    "AddPrincipal",
];

#[test]
fn reserved_words_are_no_names(rt: HostRuntime) -> Result<(), Fail> {
    let alloc = rt.alloc();
    for (words, front, token) in [
        (LOWER.as_slice(), "M::RemoveField(", 4),
        (UPPER.as_slice(), "DeleteModel(", 2),
    ] {
        for word in words {
            let text = format!(in alloc; "{front}{word})")?;
            let refused = is_refused(alloc, Form::Script, text.as_bytes(), token)?;
            assert!(rt; refused, "of {word}");
            let longer = format!(in alloc; "{front}{word}s)")?;
            let read = told(alloc, Form::Script, longer.as_bytes())?;
            assert_eq!(rt; read.as_str(), "read", "of {word}");
        }
    }
    Ok(())
}
