//! Each place that refuses the text of a database, by a text that it refuses there.

ghost use Rattle.type_schema.specs.Proper.{IsProper};
ghost use Rattle.type_schema.specs.SchemaViews.{schema_of};

use crate::tests::{MOST_BYTES, company, read, reload};
use std::alloc::Global;
use std::test::Fail;
use text_lexer::{LexErr, Token, lex};
use type_schema::Schema;

/// Texts of one table each, by the production that they are for.
const FORMS: &[(&str, &str)] = &[
    ("database, without records", "Team @1 {}"),
    (
        "record",
        "Team @3 {@1 {} @2 {members: [], lead: none} @4 {lead: none}}",
    ),
    (
        "value, without others in it",
        "User @3 {@1 {a: true, b: false, c: 0, d: -1, e: \"s\", f: @1, g: none}}",
    ),
    (
        "value, with others in it",
        "User @3 {@1 {a: some(@1), b: [], c: [@1], d: [[none], some([-1, \"s\"]), true]}}",
    ),
];

/// Texts over the company, by what refuses them.
const FAULTS: &[(&str, &str, &str)] = &[
    (
        "table_fault, no model",
        "unknown",
        "Team @1 {} ^Ghost @0 {}",
    ),
    ("table_fault, again", "twice", "Team @1 {} ^Team @0 {}"),
    ("body_fault, zero", "bad id", "User @^0 {@0 {}}"),
    (
        "body_fault, above the last",
        "bad id",
        "User @^9223372036854775808 {}",
    ),
    (
        "record_fault, again",
        "twice",
        "Team @2 {@1 {members: [], lead: none} @^1 {}}",
    ),
    ("record_fault, zero", "bad id", "Team @2 {@^0 {boss: none}}"),
    ("record_fault, next", "bad id", "Team @2 {@^2 {boss: none}}"),
    (
        "record_fault, above next",
        "bad id",
        "Team @2 {@^9223372036854775808 {boss: none}}",
    ),
    (
        "field_fault, no field",
        "unknown",
        "Team @2 {@1 {lead: none, ^boss: 5}}",
    ),
    (
        "field_fault, of another model",
        "unknown",
        "Team @2 {@1 {^email: \"\", members: [], lead: none}}",
    ),
    (
        "field_fault, again",
        "twice",
        "Team @2 {@1 {lead: none, ^lead: 5, boss: none}}",
    ),
    (
        "row_fault, one is not given",
        "absent",
        "Team @2 {@1 {lead: none^}}",
    ),
    ("row_fault, none is given", "absent", "Team @2 {@1 {^}}"),
    // Values of a base type.
    (
        "base_fault, a text",
        "wrong shape",
        "User @2 {@1 {email: ^1}}",
    ),
    (
        "base_fault, a number",
        "wrong shape",
        "User @2 {@1 {age: ^\"1\"}}",
    ),
    (
        "base_fault, a truth value",
        "wrong shape",
        "User @2 {@1 {isAdmin: ^-1}}",
    ),
    (
        "base_fault, an id",
        "wrong shape",
        "User @2 {@1 {manager: ^1}}",
    ),
    (
        "base_fault, an id for a number",
        "wrong shape",
        "User @2 {@1 {age: ^@1}}",
    ),
    (
        "base_fault, no option",
        "wrong shape",
        "User @2 {@1 {manager: ^none}}",
    ),
    (
        "base_fault, some",
        "wrong shape",
        "User @2 {@1 {manager: ^some(@1)}}",
    ),
    (
        "base_fault, a list",
        "wrong shape",
        "User @2 {@1 {manager: ^[@1]}}",
    ),
    (
        "base_fault, a true text",
        "wrong shape",
        "User @2 {@1 {email: ^true}}",
    ),
    // Values of a set.
    (
        "value_fault, an id for a set",
        "wrong shape",
        "Team @2 {@1 {members: ^@1}}",
    ),
    (
        "value_fault, none for a set",
        "wrong shape",
        "Team @2 {@1 {members: ^none}}",
    ),
    (
        "value_fault, some for a set",
        "wrong shape",
        "Team @2 {@1 {members: ^some([@1])}}",
    ),
    (
        "value_fault, a truth value for a set",
        "wrong shape",
        "Team @2 {@1 {members: ^true}}",
    ),
    (
        "value_fault, a number for a set",
        "wrong shape",
        "Team @2 {@1 {members: ^-5}}",
    ),
    (
        "value_fault, a text for a set",
        "wrong shape",
        "Team @2 {@1 {members: ^\"\"}}",
    ),
    (
        "item_fault, a number",
        "wrong shape",
        "Team @2 {@1 {members: [@1, ^2, @1]}}",
    ),
    (
        "item_fault, a list",
        "wrong shape",
        "Team @2 {@1 {members: [^[@1]]}}",
    ),
    (
        "item_fault, some",
        "wrong shape",
        "Team @2 {@1 {members: [@3, @2, ^some(@1)]}}",
    ),
    (
        "item_fault, again",
        "twice",
        "Team @2 {@1 {members: [@1, @^1, 2]}}",
    ),
    (
        "item_fault, again behind a smaller one",
        "twice",
        "Team @2 {@1 {members: [@2, @1, @^2]}}",
    ),
    // Values of an option.
    (
        "value_fault, an id for an option",
        "wrong shape",
        "Team @2 {@1 {lead: ^@1}}",
    ),
    (
        "value_fault, a truth value for an option",
        "wrong shape",
        "Team @2 {@1 {lead: ^false}}",
    ),
    (
        "value_fault, a number for an option",
        "wrong shape",
        "Team @2 {@1 {lead: ^5}}",
    ),
    (
        "value_fault, a text for an option",
        "wrong shape",
        "Team @2 {@1 {lead: ^\"\"}}",
    ),
    (
        "value_fault, a list for an option",
        "wrong shape",
        "Team @2 {@1 {lead: ^[]}}",
    ),
    (
        "base_fault, in an option",
        "wrong shape",
        "Team @2 {@1 {lead: some(^1)}}",
    ),
    (
        "base_fault, none in an option",
        "wrong shape",
        "Team @2 {@1 {lead: some(^none)}}",
    ),
    (
        "base_fault, some in an option",
        "wrong shape",
        "Team @2 {@1 {lead: some(^some(@1))}}",
    ),
    // Fields that are given in their order are judged by another way than those that are not.
    (
        "values_fault, the first",
        "wrong shape",
        "Team @2 {@1 {members: ^none, lead: 5}}",
    ),
    (
        "values_fault, the last",
        "wrong shape",
        "Team @2 {@1 {members: [], lead: ^5}}",
    ),
    (
        "values_fault, an item again",
        "twice",
        "Team @2 {@1 {members: [@1, @^1], lead: 5}}",
    ),
    (
        "fields_fault, the first",
        "wrong shape",
        "Team @2 {@1 {lead: ^5, members: none}}",
    ),
    // Ids that name no record, where no part breaks a rule.
    (
        "id_lost, of an id",
        "dangling",
        "User @2 {@1 {email: \"\", age: 0, isAdmin: true, secret: \"\", manager: @^2}}",
    ),
    (
        "id_lost, zero",
        "dangling",
        "User @2 {@1 {email: \"\", age: 0, isAdmin: true, secret: \"\", manager: @^0}}",
    ),
    (
        "id_lost, of the table of another model",
        "dangling",
        "Team @2 {@1 {members: [@^1], lead: none}}",
    ),
    (
        "items_lost",
        "dangling",
        "User @2 {@1 {email: \"\", age: 0, isAdmin: true, secret: \"\", manager: @1}} Team @2 {@1 {members: [@1, @^9223372036854775808], lead: some(@7)}}",
    ),
    (
        "layer_lost, of some",
        "dangling",
        "Team @2 {@1 {members: [], lead: some(@^7)}}",
    ),
    (
        "field_lost, in the order of the text",
        "dangling",
        "Team @2 {@1 {lead: some(@^8), members: [@7]}}",
    ),
    (
        "records_lost, the second",
        "dangling",
        "Team @3 {@1 {members: [], lead: none} @2 {members: [@^7], lead: none}}",
    ),
    (
        "lost, behind all rules",
        "absent",
        "Team @3 {@1 {members: [@7], lead: none} @2 {lead: none^}}",
    ),
    // What comes from the tokens.
    ("sign", "bad byte", "Ghost @1 ^="),
    ("number", "bad number", "Ghost @^01 {}"),
    ("literal", "unfinished", "Ghost @1 {@1 {a: ^\"s}}"),
    (
        "read, all ids",
        "",
        "User @9223372036854775807 {@9223372036854775806 {email: \"\", age: -9223372036854775808, isAdmin: true, secret: \"\", manager: @9223372036854775806}}",
    ),
];

fn tokens_of(alloc: Global, text: &[u8]) -> Result<Vec<Token>, LexErr> {
    if text.len() > MOST_BYTES {
        return Err(LexErr::OutOfMemory);
    }
    lex(alloc, text)
}

/// What is said of a text, given or kept: `read`, or the report of why it is refused.
fn told(alloc: Global, s: &Schema, text: &[u8]) -> Result<String, Fail>
    requires { IsProper (schema_of s.now) }
{
    let given = read(alloc, s, text)?.err();
    if given != reload(alloc, s, text)?.err() {
        return Ok("one way".to_string(alloc)?);
    }
    match given {
        Some(err) => Ok(err.to_string(alloc)?),
        None => Ok("read".to_string(alloc)?),
    }
}

/// Whether the text is refused as no text of the grammar at this token.
fn is_stuck(alloc: Global, s: &Schema, text: &[u8], token: usize) -> Result<bool, Fail>
    requires { IsProper (schema_of s.now) }
{
    let wanted = format!(in alloc; "not grammar at token {token}")?;
    Ok(told(alloc, s, text)?.as_str() == wanted.as_str())
}

/// Whether a text is refused at the token that begins and ends there, where this token gives way
/// to a sign that stands in no form, and where the text ends before it.
fn is_awaited(
    alloc: Global,
    s: &Schema,
    text: &[u8],
    token: usize,
    place: (usize, usize),
) -> Result<bool, Fail>
    requires { IsProper (schema_of s.now) }
{
    let (at, end) = place;
    let front = text.get(..at).ok_or("no token")?;
    let mut exchanged = Vec::from_slice(alloc, front)?;
    exchanged.extend_from_slice(b"! ")?;
    exchanged.extend_from_slice(text.get(end..).ok_or("no token")?)?;
    Ok(
        is_stuck(alloc, s, exchanged.as_slice(), token)?
            && (token == 0 || is_stuck(alloc, s, front, token)?),
    )
}

/// The first token of which that is not so, if there is one; one behind the last may not stand
/// there.
fn first_passed(alloc: Global, s: &Schema, text: &[u8]) -> Result<Option<usize>, Fail>
    requires { IsProper (schema_of s.now) }
{
    let tokens = tokens_of(alloc, text)?;
    for (number, token) in tokens.iter().enumerate() {
        let place = (token.at as usize, token.end as usize);
        if !is_awaited(alloc, s, text, number, place)? {
            return Ok(Some(number));
        }
    }
    let mut longer = Vec::from_slice(alloc, text)?;
    longer.extend_from_slice(b" !")?;
    if is_stuck(alloc, s, longer.as_slice(), tokens.len())? {
        return Ok(None);
    }
    Ok(Some(tokens.len()))
}

#[test]
fn each_token_is_awaited(rt: HostRuntime) -> Result<(), Fail> {
    let s = company(rt.alloc())?;
    for (production, text) in FORMS {
        let passed = first_passed(rt.alloc(), &s, text.as_bytes())?;
        assert_eq!(rt; passed, None, "of {production}");
    }
    Ok(())
}

/// A text without the `^` where its fault stands, and what is said of it.
fn marked(alloc: Global, cause: &str, text: &str) -> Result<(String, String), Fail> {
    let Some((front, back)) = text.split_once('^') else {
        return Ok((text.to_string(alloc)?, "read".to_string(alloc)?));
    };
    let plain = format!(in alloc; "{front}{back}")?;
    let at = front.len();
    Ok((plain, format!(in alloc; "{cause} at {at}")?))
}

#[test]
fn each_rule_refuses(rt: HostRuntime) -> Result<(), Fail> {
    let s = company(rt.alloc())?;
    for (place, cause, text) in FAULTS {
        let (plain, wanted) = marked(rt.alloc(), cause, text)?;
        let told = told(rt.alloc(), &s, plain.as_bytes())?;
        assert_eq!(rt; told.as_str(), wanted.as_str(), "of {place}");
    }
    Ok(())
}
