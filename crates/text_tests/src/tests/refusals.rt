//! Texts that spell no tree.

use crate::tests::script_of;
use text_parse::SyntaxErr;

#[test]
fn scripts_outside_the_grammar_are_refused(rt: HostRuntime) {
    let table = [
        ("AddStatic(A", 3),
        ("AddStatic(a)", 2),
        ("AddStatic(A),", 4),
        ("AddStatic(A) x", 4),
        ("AddField(a)", 0),
        ("static A", 0),
        ("M", 1),
        ("M:UpdatePolicy({create: none})", 1),
        ("M::DeleteModel(A)", 2),
        ("M::UpdatePolicy({})", 5),
        ("M::UpdatePolicy({read: none})", 5),
        ("M::UpdatePolicy({delete: none, create: none})", 8),
        ("M::UpdatePolicy({create: none}, \"why\")", 9),
        ("M::WeakenPolicy({create: none})", 9),
        ("M::UpdateFieldPolicy(f, {read: none,})", 11),
        ("M::RemoveField(read)", 4),
        (
            "M::AddField(a: Set(Id(M)) {read: none, write: none}, x -> 1)",
            25,
        ),
        (
            "M::AddField(a: Int {read: none, write: none}, x -> [x])",
            19,
        ),
        ("M::AddField(a: Int {read: none}, x -> 1)", 11),
        ("CreateModel(model M {create: none, delete: none}", 13),
        ("CreateModel(static A)", 2),
        (
            "M::AddField(a: Option(Set(Id(M))) {read: none, write: none}, x -> x.a)",
            8,
        ),
        // A number is 0 without a minus alone, and 2^63 behind one alone.
        ("M::AddField(a: Int {read: none, write: none}, x -> -0)", 20),
        (
            "M::AddField(a: Int {read: none, write: none}, x -> - x)",
            20,
        ),
        (
            "M::AddField(a: Int {read: none, write: none}, x -> 9223372036854775808)",
            19,
        ),
        ("M::UpdatePolicy({create: x -> [9223372036854775808]})", 10),
    ];
    for (text, token) in table {
        let refusal = script_of(rt.alloc(), text.as_bytes()).err();
        assert_eq!(rt; refusal, Some(SyntaxErr::NotGrammar { token }), "in {text}");
    }
}

#[test]
fn what_is_no_token_is_refused_before_the_grammar(rt: HostRuntime) {
    let table: [(&[u8], SyntaxErr); 5] = [
        (b"x ? \xff", SyntaxErr::NotText { at: 4 }),
        (b"x ?", SyntaxErr::BadByte { at: 2 }),
        // A byte order mark.
        (b"\xef\xbb\xbfAddStatic(A)", SyntaxErr::BadByte { at: 0 }),
        (
            b"M::AddField(a: Int {read: none, write: none}, x -> 01)",
            SyntaxErr::BadNumber { at: 51 },
        ),
        (
            b"M::WeakenPolicy({create: none}, \"why)",
            SyntaxErr::Unfinished { at: 32 },
        ),
    ];
    for (text, want) in table {
        let refusal = script_of(rt.alloc(), text).err();
        assert_eq!(rt; refusal, Some(want), "in {text:?}");
    }
}
