//! What is said of the types of texts in which the place of a fault is marked.

use std::alloc::Global;
use std::test::Fail;
use text_parse::{SyntaxErr, parse_script, parse_spec};
use text_tree::{Script, Spec};
use type_schema::{Right, Schema, Target};
use type_scripts::{step_command, type_spec};
use type_typing::{TypeErr, UsedBy};

/// How long a text of these tests may be.
const LONGEST_TEXT: usize = 65_536;

/// A set of 24,571 nodes: its test has 11 signs. A truth value has one node, and each sign and the
/// choice make 5 more than twice as many.
const LARGE_SET: &str =
    "if ((((((((((true == true) == true) == true) == true) == true) == true) == true) == true) == true) == true) == true then [] else none";

/// A set of 1,572,859 nodes: its test has 17 signs.
const HUGE_SET: &str =
    "if ((((((((((((((((true == true) == true) == true) == true) == true) == true) == true) == true) == true) == true) == true) == true) == true) == true) == true) == true) == true then [] else none";

/// An expression of as many nodes, which has 12 signs.
const LARGE_FLAG: &str =
    "(((((((((((true == true) == true) == true) == true) == true) == true) == true) == true) == true) == true) == true) == true";

fn spec_of(alloc: Global, text: &str) -> Result<Spec, SyntaxErr> {
    if text.len() > LONGEST_TEXT {
        return Err(SyntaxErr::OutOfMemory);
    }
    parse_spec(alloc, text.as_bytes())
}

fn script_of(alloc: Global, text: &str) -> Result<Script, SyntaxErr> {
    if text.len() > LONGEST_TEXT {
        return Err(SyntaxErr::OutOfMemory);
    }
    parse_script(alloc, text.as_bytes())
}

/// The schema of a specification.
pub fn schema_of(alloc: Global, text: &str) -> Result<Schema, Fail> {
    Ok(type_spec(alloc, &spec_of(alloc, text)?)?)
}

/// A user, by its numbers.
fn user(alloc: Global, by: UsedBy) -> Result<String, Fail> {
    let (target, right) = match by {
        UsedBy::FieldType(model, field) => {
            return Ok(format!(in alloc; "{model}.{field} type")?);
        }
        UsedBy::Policy(target, right) => (target, right),
    };
    let right = match right {
        Right::Read => "read",
        Right::Write => "write",
        Right::Create => "create",
        Right::Delete => "delete",
    };
    match target {
        Target::Field(model, field) => Ok(format!(in alloc; "{model}.{field} {right}")?),
        Target::Model(model) => Ok(format!(in alloc; "{model} {right}")?),
    }
}

/// A fault, with the user of what is still used.
fn told_fault(alloc: Global, fault: TypeErr) -> Result<String, Fail> {
    let cause = fault.to_string(alloc)?;
    match fault {
        TypeErr::StillUsed { by, .. } => {
            let user = user(alloc, by)?;
            Ok(format!(in alloc; "{cause} by {user}")?)
        }
        _ => Ok(cause),
    }
}

/// The schema of the specification that the text spells, or what is said of it.
fn schema_told(alloc: Global, text: &str) -> Result<Result<Schema, String>, Fail> {
    match spec_of(alloc, text) {
        Ok(spec) => match type_spec(alloc, &spec) {
            Ok(schema) => Ok(Ok(schema)),
            Err(fault) => Ok(Err(told_fault(alloc, fault)?)),
        },
        Err(refusal) => Ok(Err(refusal.to_string(alloc)?)),
    }
}

/// What is said of the commands of a script, one after another.
fn steps_told(alloc: Global, first: Schema, script: &Script) -> Result<String, Fail> {
    let mut schema = first;
    for command in script.commands.as_slice() {
        match step_command(alloc, &schema, command) {
            Ok((after, _)) => schema = after,
            Err(fault) => return told_fault(alloc, fault),
        }
    }
    Ok("typed".to_string(alloc)?)
}

/// What is said of a script over a specification: `typed`, or the first fault.
fn told(alloc: Global, spec: &str, script: &str) -> Result<String, Fail> {
    let schema = match schema_told(alloc, spec)? {
        Ok(schema) => schema,
        Err(fault) => return Ok(fault),
    };
    match script_of(alloc, script) {
        Ok(script) => steps_told(alloc, schema, &script),
        Err(refusal) => Ok(refusal.to_string(alloc)?),
    }
}

/// A text with one large part in the place of its sign: `~` of the large set, `$` of the huge one,
/// `%` of the large expression.
fn expanded(alloc: Global, text: &str) -> Result<String, Fail> {
    for (sign, large) in [('~', LARGE_SET), ('$', HUGE_SET), ('%', LARGE_FLAG)] {
        if let Some((front, back)) = text.split_once(sign) {
            return Ok(format!(in alloc; "{front}{large}{back}")?);
        }
    }
    Ok(text.to_string(alloc)?)
}

/// A text in which a `^` stands before its fault, without it; and what is said where this is the
/// cause, and the user where one is named.
fn marked(alloc: Global, cause: &str, user: &str, text: &str) -> Result<(String, String), Fail> {
    let Some((front, back)) = text.split_once('^') else {
        return Ok((text.to_string(alloc)?, "typed".to_string(alloc)?));
    };
    let front = expanded(alloc, front)?;
    let back = expanded(alloc, back)?;
    let at = front.len();
    let wanted = format!(in alloc; "{cause} at {at}{user}")?;
    Ok((format!(in alloc; "{front}{back}")?, wanted))
}

/// What is said of a script over a specification, and what is to be said.
pub fn of_script(
    alloc: Global,
    spec: &str,
    cause: &str,
    user: &str,
    script: &str,
) -> Result<(String, String), Fail> {
    let (plain, wanted) = marked(alloc, cause, user, script)?;
    Ok((told(alloc, spec, plain.as_str())?, wanted))
}

/// The same of a specification.
pub fn of_spec(alloc: Global, cause: &str, spec: &str) -> Result<(String, String), Fail> {
    let (plain, wanted) = marked(alloc, cause, "", spec)?;
    Ok((told(alloc, plain.as_str(), "")?, wanted))
}
