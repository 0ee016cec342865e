//! Each place of typing that refuses a set, by a text that it refuses there.

use crate::tests::APP;
use crate::tests::texts::of_script;
use std::test::Fail;

/// Sets as create policies of users.
const SET_PARTS: &[(&str, &str, &str)] = &[
    (
        "may_hold, records that are no principals",
        "not principal",
        "u -> ^Note::Find({})",
    ),
    (
        "may_hold, a path to no principals",
        "not principal",
        "u -> ^u.notes",
    ),
    (
        "may_hold, a map to no principals",
        "not principal",
        "u -> ^User::Find({}).map(x -> x.note)",
    ),
    (
        "may_hold, in parentheses",
        "not principal",
        "u -> (^u.notes)",
    ),
    ("may_hold, an item", "not principal", "u -> [^u.note]"),
    (
        "may_hold, an item in parentheses",
        "not principal",
        "u -> [u, ^(u.note)]",
    ),
    (
        "id_of, an item of a base type",
        "wrong type",
        "u -> [^u.age]",
    ),
    (
        "id_of, an item that is an option",
        "wrong type",
        "u -> [^u.deputy]",
    ),
    (
        "id_of, an item that is a set",
        "wrong type",
        "u -> [^u.friends]",
    ),
    ("listed_static", "unknown", "u -> [^Nobody]"),
    (
        "listed_static, the name of a model",
        "unknown",
        "u -> [Visitor, ^User]",
    ),
    ("typed_items, the first", "unknown", "u -> [^x, y]"),
    ("set_of_ids, a base type", "wrong type", "u -> ^u.boss"),
    ("set_of_ids, an option", "wrong type", "u -> ^u.deputy"),
    ("set_of_ids, a variable", "wrong type", "u -> ^u"),
    (
        "typed_source, a fault in a path",
        "unknown",
        "u -> ^x.friends",
    ),
    // Find and its filters.
    ("typed_model, Find", "unknown", "u -> ^Nothing::Find({})"),
    (
        "typed_model, a static",
        "unknown",
        "u -> ^Visitor::Find({})",
    ),
    (
        "field_of_model, a filter",
        "unknown",
        "u -> User::Find({open: true, ^title: 1})",
    ),
    (
        "tested, a set compared",
        "wrong type",
        "u -> User::Find({^friends: u})",
    ),
    (
        "tested, an option compared",
        "wrong type",
        "u -> User::Find({^deputy != none})",
    ),
    (
        "tested, a set by order",
        "wrong type",
        "u -> User::Find({^friends < 1})",
    ),
    (
        "ordered, a text by <",
        "wrong type",
        "u -> User::Find({^email < \"s\"})",
    ),
    (
        "ordered, a truth value by <=",
        "wrong type",
        "u -> User::Find({^open <= true})",
    ),
    (
        "ordered, an id by >",
        "wrong type",
        "u -> User::Find({^boss > u})",
    ),
    (
        "ordered, a text by >=",
        "wrong type",
        "u -> User::Find({^email >= x})",
    ),
    (
        "tested, has of a base type",
        "wrong type",
        "u -> User::Find({^boss has u})",
    ),
    (
        "tested, has of an option",
        "wrong type",
        "u -> User::Find({^deputy has u})",
    ),
    (
        "typed_filter, a value compared",
        "wrong type",
        "u -> User::Find({age: ^\"s\"})",
    ),
    (
        "typed_filter, a value by order",
        "wrong type",
        "u -> User::Find({age > ^true})",
    ),
    (
        "typed_filter, a value of has",
        "wrong type",
        "u -> User::Find({friends has ^u.note})",
    ),
    (
        "typed_filter, a value sees no field",
        "unknown",
        "u -> User::Find({age: ^age})",
    ),
    // map and flat_map.
    (
        "typed_source, what map goes over",
        "wrong type",
        "u -> ^u.boss.map(x -> x)",
    ),
    ("under, map", "twice", "u -> User::Find({}).map(^u -> u)"),
    (
        "typed_source, the body of map",
        "unknown",
        "u -> User::Find({}).map(x -> ^y)",
    ),
    (
        "id_of, map to a base type",
        "wrong type",
        "u -> User::Find({}).map(x -> ^x.age)",
    ),
    (
        "id_of, map to an option",
        "wrong type",
        "u -> User::Find({}).map(x -> ^x.deputy)",
    ),
    (
        "id_of, map to a set",
        "wrong type",
        "u -> User::Find({}).map(x -> ^x.friends)",
    ),
    (
        "typed_set, what flat_map goes over",
        "wrong type",
        "u -> ^u.boss.flat_map(x -> [x])",
    ),
    (
        "under, flat_map",
        "twice",
        "u -> User::Find({}).flat_map(^u -> [u])",
    ),
    (
        "under, a map in a flat_map",
        "twice",
        "u -> User::Find({}).flat_map(x -> u.friends.map(^x -> x))",
    ),
    (
        "typed_set, the body of flat_map",
        "not principal",
        "u -> User::Find({}).flat_map(x -> ^x.notes)",
    ),
    // Sums, differences and choices.
    (
        "typed_set, the left side of +",
        "wrong type",
        "u -> ^u.boss + [u]",
    ),
    (
        "typed_set, the right side of +",
        "wrong type",
        "u -> [u] + ^u.boss",
    ),
    (
        "typed_set, the left side of -",
        "wrong type",
        "u -> ^u.boss - [u]",
    ),
    (
        "typed_set, the right side of -",
        "wrong type",
        "u -> [u] - ^u.boss",
    ),
    (
        "typed_set, the condition of if",
        "wrong type",
        "u -> if ^u.age then [] else []",
    ),
    (
        "typed_set, the first branch of if",
        "wrong type",
        "u -> if true then ^u.boss else []",
    ),
    (
        "typed_set, the other branch of if",
        "wrong type",
        "u -> if true then [] else ^u.boss",
    ),
    (
        "option_of, match of a base type",
        "wrong type",
        "u -> match ^u.boss with none -> [] | some b -> [b]",
    ),
    (
        "option_of, match of a set",
        "wrong type",
        "u -> match ^u.friends with none -> [] | some b -> [b]",
    ),
    (
        "typed_set, what match takes apart",
        "unknown",
        "u -> match ^x with none -> [] | some b -> [b]",
    ),
    (
        "typed_set, the branch for none",
        "wrong type",
        "u -> match u.deputy with none -> ^u.boss | some d -> [d]",
    ),
    (
        "under, match of sets",
        "twice",
        "u -> match u.deputy with none -> [] | some ^u -> []",
    ),
    (
        "typed_set, the branch for some",
        "not principal",
        "u -> match u.deputy with none -> [] | some d -> ^d.notes",
    ),
    ("typed, public and nobody", "", "u -> public + none"),
    (
        "typed, chains",
        "",
        "u -> Note::Find({owner: u, level > 1}).map(n -> n.owner).flat_map(x -> x.friends + [Visitor, x])",
    ),
    (
        "typed, has",
        "",
        "u -> User::Find({friends has u}) - u.friends.map(x -> x.boss)",
    ),
];

#[test]
fn each_place_of_sets_refuses(rt: HostRuntime) -> Result<(), Fail> {
    for (place, cause, text) in SET_PARTS {
        let script = format!(in rt.alloc(); "User::UpdatePolicy({{create: {text}}})")?;
        let (told, wanted) = of_script(rt.alloc(), APP, cause, "", script.as_str())?;
        assert_eq!(rt; told.as_str(), wanted.as_str(), "of {place}");
    }
    Ok(())
}
