//! Each place of typing that refuses an expression, by a text that it refuses there.

use crate::tests::APP;
use crate::tests::texts::of_script;
use std::test::Fail;

/// Expressions in create policies of users, by what refuses them.
const EXPRESSIONS: &[(&str, &str, &str)] = &[
    // A type that its place does not ask.
    (
        "fit, a truth value",
        "wrong type",
        "u -> if u.age == ^true then [] else []",
    ),
    ("fit, a number", "wrong type", "u -> if ^1 then [] else []"),
    (
        "fit, a text",
        "wrong type",
        "u -> if ^\"s\" then [] else []",
    ),
    (
        "fit, a variable",
        "wrong type",
        "u -> if ^u then [] else []",
    ),
    (
        "fit, some",
        "wrong type",
        "u -> if ^some(1) then [] else []",
    ),
    (
        "fit, a field",
        "wrong type",
        "u -> if ^u.age then [] else []",
    ),
    (
        "fit, a field that is an id",
        "wrong type",
        "u -> if ^u.boss then [] else []",
    ),
    (
        "fit, a field that is an option",
        "wrong type",
        "u -> if ^u.deputy then [] else []",
    ),
    (
        "fit, a field that is a set",
        "wrong type",
        "u -> if ^u.friends then [] else []",
    ),
    (
        "fit, a comparison",
        "wrong type",
        "u -> if u.age == ^(1 == 1) then [] else []",
    ),
    (
        "fit, a comparison by order",
        "wrong type",
        "u -> if u.age == ^(1 < 1) then [] else []",
    ),
    (
        "fit, in",
        "wrong type",
        "u -> if u.age == ^(u in u.friends) then [] else []",
    ),
    (
        "fit, a negation",
        "wrong type",
        "u -> if u.age == ^!true then [] else []",
    ),
    (
        "fit, and",
        "wrong type",
        "u -> if u.age == ^(true && true) then [] else []",
    ),
    (
        "fit, or",
        "wrong type",
        "u -> if u.age == ^(true || true) then [] else []",
    ),
    (
        "fit, the first branch of if",
        "wrong type",
        "u -> if (if true then ^1 else true) then [] else []",
    ),
    (
        "fit, the branch for none",
        "wrong type",
        "u -> if (match u.deputy with none -> ^1 | some d -> true) then [] else []",
    ),
    // `none` and `some`.
    (
        "none_of, where nothing is asked",
        "wrong type",
        "u -> if ^none == u.deputy then [] else []",
    ),
    (
        "none_of, where a base type is asked",
        "wrong type",
        "u -> if u.age == ^none then [] else []",
    ),
    (
        "none_of, where a set is asked",
        "wrong type",
        "u -> if u in (if true then u.friends else ^none) then [] else []",
    ),
    (
        "base_of, some of an option",
        "wrong type",
        "u -> if some(^u.deputy) == none then [] else []",
    ),
    (
        "base_of, some of a set",
        "wrong type",
        "u -> if some(^u.friends) == none then [] else []",
    ),
    // Variables and fields.
    ("var_named", "unknown", "u -> [^x]"),
    (
        "var_named, in a field",
        "unknown",
        "u -> if ^age == 1 then [] else []",
    ),
    ("field_of_model", "unknown", "u -> [u.^title]"),
    (
        "field_of_model, of another model",
        "unknown",
        "u -> [u.note.^boss]",
    ),
    (
        "field_of_record, of a base type",
        "wrong type",
        "u -> [^u.age.boss]",
    ),
    (
        "field_of_record, of an option",
        "wrong type",
        "u -> [^u.deputy.boss]",
    ),
    (
        "field_of_record, of a set",
        "wrong type",
        "u -> [^u.friends.boss]",
    ),
    (
        "field_of_record, of what is in parentheses",
        "wrong type",
        "u -> [^(u.age).boss]",
    ),
    // Comparisons.
    (
        "base_of, a set compared",
        "wrong type",
        "u -> if ^u.friends == u.friends then [] else []",
    ),
    (
        "base_of, an option compared",
        "wrong type",
        "u -> if ^u.deputy != u.deputy then [] else []",
    ),
    (
        "fit, the right side",
        "wrong type",
        "u -> if u.age == ^u.email then [] else []",
    ),
    (
        "fit, the right side of !=",
        "wrong type",
        "u -> if u.boss != ^u.note then [] else []",
    ),
    (
        "fit, the left side of <",
        "wrong type",
        "u -> if ^u.email < \"s\" then [] else []",
    ),
    (
        "fit, the left side of <=",
        "wrong type",
        "u -> if ^u.open <= true then [] else []",
    ),
    (
        "fit, the left side of >",
        "wrong type",
        "u -> if ^u.boss > u then [] else []",
    ),
    (
        "fit, the left side of >=",
        "wrong type",
        "u -> if ^u.deputy >= u.deputy then [] else []",
    ),
    (
        "fit, the right side of <",
        "wrong type",
        "u -> if 1 < ^\"s\" then [] else []",
    ),
    (
        "fit, the right side of >=",
        "wrong type",
        "u -> if u.age >= ^u.open then [] else []",
    ),
    // Membership.
    (
        "typed_expr, the left side of in",
        "unknown",
        "u -> if ^x in u.friends then [] else []",
    ),
    (
        "id_of, in of a number",
        "wrong type",
        "u -> if ^u.age in u.friends then [] else []",
    ),
    (
        "id_of, in of an option",
        "wrong type",
        "u -> if ^u.deputy in u.friends then [] else []",
    ),
    (
        "id_of, in of a set",
        "wrong type",
        "u -> if ^u.friends in u.friends then [] else []",
    ),
    (
        "may_hold, a path of another model",
        "wrong type",
        "u -> if u in ^u.notes then [] else []",
    ),
    (
        "may_hold, a Find of another model",
        "wrong type",
        "u -> if u in {^Note::Find({})} then [] else []",
    ),
    (
        "may_hold, a map to another model",
        "wrong type",
        "u -> if u in {^User::Find({}).map(x -> x.note)} then [] else []",
    ),
    (
        "set_of_ids, in no set",
        "wrong type",
        "u -> if u in ^u.boss then [] else []",
    ),
    (
        "among_principals, public",
        "wrong type",
        "u -> if u in {^public} then [] else []",
    ),
    (
        "among_principals, public in parentheses",
        "wrong type",
        "u -> if u in {(^public)} then [] else []",
    ),
    (
        "among_principals, a static",
        "wrong type",
        "u -> if u in {[^Visitor]} then [] else []",
    ),
    (
        "among_principals, an unknown static",
        "wrong type",
        "u -> if u in {[^Nobody]} then [] else []",
    ),
    (
        "fit, an item of another model",
        "wrong type",
        "u -> if u in {[u, ^u.note]} then [] else []",
    ),
    // What asks truth values.
    (
        "typed_expr, not",
        "wrong type",
        "u -> if !^u.age then [] else []",
    ),
    (
        "typed_expr, the left side of &&",
        "wrong type",
        "u -> if ^u.age && true then [] else []",
    ),
    (
        "typed_expr, the right side of &&",
        "wrong type",
        "u -> if true && ^u.age then [] else []",
    ),
    (
        "typed_expr, the left side of ||",
        "wrong type",
        "u -> if ^u.age || true then [] else []",
    ),
    (
        "typed_expr, the right side of ||",
        "wrong type",
        "u -> if true || ^u.age then [] else []",
    ),
    (
        "typed_expr, the condition of if",
        "wrong type",
        "u -> [if ^u.age then u else u]",
    ),
    // Choices.
    (
        "typed_expr, the other branch of if",
        "wrong type",
        "u -> [if true then u else ^u.note]",
    ),
    (
        "typed_expr, the branch for some",
        "wrong type",
        "u -> [match u.deputy with none -> u | some d -> ^1]",
    ),
    (
        "typed_expr, a fault in the first branch",
        "unknown",
        "u -> [if true then ^x else u]",
    ),
    (
        "typed_expr, a fault in the branch for some",
        "unknown",
        "u -> [match u.deputy with none -> u | some d -> ^x]",
    ),
    (
        "typed_expr, what match takes apart",
        "unknown",
        "u -> [match ^x with none -> u | some b -> b]",
    ),
    (
        "option_of, a base type",
        "wrong type",
        "u -> [match ^u.boss with none -> u | some b -> b]",
    ),
    (
        "option_of, a set",
        "wrong type",
        "u -> [match ^u.friends with none -> u | some b -> u]",
    ),
    (
        "under, match",
        "twice",
        "u -> [match u.deputy with none -> u | some ^u -> u]",
    ),
    // Parts from left to right, then the whole.
    (
        "the left part first",
        "unknown",
        "u -> if ^x == y then [z] else []",
    ),
    (
        "the parts before the whole",
        "unknown",
        "u -> if (^x == 1) < 1 then [] else []",
    ),
    (
        "typed, each type compared",
        "",
        "u -> if u.age == 1 && u.email != \"s\" && u.open == true && u.boss != u then [] else []",
    ),
    (
        "typed, options",
        "",
        "u -> [match (if u.open then u.deputy else none) with none -> u | some d -> match some(d) with none -> u | some e -> e]",
    ),
    (
        "typed, sets of records",
        "",
        "u -> if u in {none} && u in {[]} && u.note in {u.notes + Note::Find({})} then [] else []",
    ),
];

#[test]
fn each_place_of_expressions_refuses(rt: HostRuntime) -> Result<(), Fail> {
    for (place, cause, text) in EXPRESSIONS {
        let script = format!(in rt.alloc(); "User::UpdatePolicy({{create: {text}}})")?;
        let (told, wanted) = of_script(rt.alloc(), APP, cause, "", script.as_str())?;
        assert_eq!(rt; told.as_str(), wanted.as_str(), "of {place}");
    }
    Ok(())
}
