//! Pairs of many sizes, up to the limits of the language, with ample memory.

use app_files::{MOST_FILE_BYTES, Status};
use app_trial::check_texts;
use std::alloc::{AllocError, Global};
use std::test::Fail;

/// How many statics, models, fields of a model and commands there are.
#[derive(Clone, Copy)]
struct Sizes {
    statics: u8,
    models: u8,
    fields: u8,
    commands: u16,
}

impl Sizes {
    fn new(statics: u8, models: u8, fields: u8, commands: u16) -> Sizes {
        Sizes {
            statics,
            models,
            fields,
            commands,
        }
    }
}

fn push_number(alloc: Global, text: &mut Vec<u8>, number: u16) -> Result<(), AllocError> {
    let digits = number.to_string(alloc)?;
    text.extend_from_slice(digits.as_bytes())
}

/// `A` to `Z`, and then `Ab` to `Zb` and so on.
fn push_static(text: &mut Vec<u8>, number: u8) -> Result<(), AllocError> {
    text.extend_from_slice(&[b'A' + number % 26])?;
    if number >= 26 {
        text.extend_from_slice(&[b'a' + number / 26])?;
    }
    Ok(())
}

/// The policy that lists all statics.
fn everyone(alloc: Global, statics: u8) -> Result<Vec<u8>, AllocError> {
    let mut text = Vec::new(alloc);
    text.extend_from_slice(b"x->[")?;
    for number in 0..statics {
        if number > 0 {
            text.extend_from_slice(b",")?;
        }
        push_static(&mut text, number)?;
    }
    text.extend_from_slice(b"]")?;
    Ok(text)
}

/// A model whose fields all may read and nobody may write.
fn push_model(
    alloc: Global,
    text: &mut Vec<u8>,
    model: u8,
    fields: u8,
    read: &[u8],
) -> Result<(), AllocError> {
    text.extend_from_slice(b"model M")?;
    push_number(alloc, text, u16::from(model))?;
    text.extend_from_slice(b"{create:none,delete:none")?;
    for field in 0..fields {
        text.extend_from_slice(b",f")?;
        push_number(alloc, text, u16::from(field))?;
        text.extend_from_slice(b":Int{read:")?;
        text.extend_from_slice(read)?;
        text.extend_from_slice(b",write:none}")?;
    }
    text.extend_from_slice(b"}")
}

fn specification(alloc: Global, sizes: Sizes, read: &[u8]) -> Result<Vec<u8>, AllocError> {
    let mut text = Vec::new(alloc);
    for number in 0..sizes.statics {
        text.extend_from_slice(b"static ")?;
        push_static(&mut text, number)?;
        text.extend_from_slice(b"\n")?;
    }
    for model in 0..sizes.models {
        push_model(alloc, &mut text, model, sizes.fields, read)?;
    }
    Ok(text)
}

/// The head of a command on field 0 of model 0, with a read policy.
fn push_command(text: &mut Vec<u8>, read: &[u8]) -> Result<(), AllocError> {
    text.extend_from_slice(b"M0::UpdateFieldPolicy(f0,{read:")?;
    text.extend_from_slice(read)
}

/// The commands keep both policies; after them one that lets the last static write.
fn scripts(alloc: Global, sizes: Sizes, read: &[u8]) -> Result<(Vec<u8>, Vec<u8>), AllocError> {
    let mut kept = Vec::new(alloc);
    for _ in 1..sizes.commands {
        push_command(&mut kept, read)?;
        kept.extend_from_slice(b",write:none})")?;
    }
    let mut loosened = Vec::from_slice(alloc, kept.as_slice())?;
    push_command(&mut kept, read)?;
    kept.extend_from_slice(b",write:none})")?;
    push_command(&mut loosened, read)?;
    loosened.extend_from_slice(b",write:x->[")?;
    push_static(&mut loosened, sizes.statics.saturating_sub(1))?;
    loosened.extend_from_slice(b"]})")?;
    Ok((kept, loosened))
}

/// The first line of the report on the loosened script.
fn leak(alloc: Global, sizes: Sizes) -> Result<Vec<u8>, AllocError> {
    let mut text = Vec::new(alloc);
    text.extend_from_slice(b"leak command ")?;
    push_number(alloc, &mut text, sizes.commands)?;
    text.extend_from_slice(b" field M0.f0 right write\n")?;
    Ok(text)
}

/// Whether the script that keeps the policies is accepted with this report, and the other leaks.
fn answers_so(alloc: Global, sizes: Sizes, accepted: &[u8]) -> Result<bool, Fail> {
    let read = everyone(alloc, sizes.statics)?;
    let spec = specification(alloc, sizes, read.as_slice())?;
    let (kept, loosened) = scripts(alloc, sizes, read.as_slice())?;
    let first = check_texts(alloc, spec.as_slice(), kept.as_slice())?;
    let second = check_texts(alloc, spec.as_slice(), loosened.as_slice())?;
    let front = leak(alloc, sizes)?;
    Ok(
        first.status == Status::Done
            && first.output.as_slice() == accepted
            && second.status == Status::Leak
            && second.output.as_slice().starts_with(front.as_slice())
            && second.output.as_slice().ends_with(b"end\n"),
    )
}

#[test]
fn pairs_of_all_sizes(rt: HostRuntime) -> Result<(), Fail> {
    let rows = [
        (
            Sizes::new(1, 1, 1, 1),
            b"accepted obligations 2\n".as_slice(),
        ),
        (Sizes::new(4, 1, 1, 1), b"accepted obligations 8\n"),
        (Sizes::new(9, 3, 2, 5), b"accepted obligations 90\n"),
        (Sizes::new(27, 8, 16, 4), b"accepted obligations 216\n"),
        (Sizes::new(2, 64, 64, 2), b"accepted obligations 8\n"),
        (Sizes::new(2, 1, 1, 256), b"accepted obligations 1024\n"),
    ];
    for (sizes, accepted) in rows {
        assert!(rt; answers_so(rt.alloc(), sizes, accepted)?);
    }
    Ok(())
}

/// A model with so many fields that are ids of another, of which the names begin with a letter.
fn push_links(
    alloc: Global,
    text: &mut Vec<u8>,
    model: &[u8],
    letter: &[u8],
    of: &[u8],
    count: u16,
) -> Result<(), AllocError> {
    text.extend_from_slice(b"model ")?;
    text.extend_from_slice(model)?;
    text.extend_from_slice(b"{create:none,delete:none")?;
    for number in 0..count {
        text.extend_from_slice(b",")?;
        text.extend_from_slice(letter)?;
        push_number(alloc, text, number)?;
        text.extend_from_slice(b":Id(")?;
        text.extend_from_slice(of)?;
        text.extend_from_slice(b"){read:none,write:none}")?;
    }
    text.extend_from_slice(b"}")
}

/// A secret that is read along so many pairs of fields.
fn linked(alloc: Global, count: u16) -> Result<Vec<u8>, AllocError> {
    let mut text = Vec::new(alloc);
    push_links(alloc, &mut text, b"A", b"f", b"B", count)?;
    push_links(alloc, &mut text, b"B", b"g", b"C", count)?;
    text.extend_from_slice(b"principal model C{create:none,delete:none,secret:Text{read:")?;
    text.extend_from_slice(b"c->A::Find({}).flat_map(a->[a.f0.g0")?;
    for number in 1..count {
        text.extend_from_slice(b",a.f")?;
        push_number(alloc, &mut text, number)?;
        text.extend_from_slice(b".g")?;
        push_number(alloc, &mut text, number)?;
    }
    text.extend_from_slice(b"]),write:none}}")?;
    Ok(text)
}

#[test]
fn formulas_up_to_the_limit(rt: HostRuntime) -> Result<(), Fail> {
    let script = b"C::UpdateFieldPolicy(secret,{read:public})";
    let rows = [
        (
            18,
            Status::Leak,
            b"leak command 1 field C.secret right read\n".as_slice(),
        ),
        (
            19,
            Status::TooLarge,
            b"too large command 1 field C.secret right read kind C terms 404 nodes 120\n",
        ),
        (
            20,
            Status::TooLarge,
            b"too large command 1 field C.secret right read kind C terms 445 nodes 126\n",
        ),
    ];
    for (count, status, front) in rows {
        let spec = linked(rt.alloc(), count)?;
        let ended = check_texts(rt.alloc(), spec.as_slice(), script)?;
        assert_eq!(rt; ended.status, status);
        assert!(rt; ended.output.as_slice().starts_with(front));
    }
    Ok(())
}

/// An initialiser in which a flag stands two to the power of `times` times.
fn doubled(alloc: Global, times: u32) -> Result<Vec<u8>, AllocError> {
    let mut part = Vec::from_slice(alloc, b"u.isAdmin == u.isAdmin")?;
    for _ in 1..times {
        let mut next = Vec::from_slice(alloc, b"(")?;
        next.extend_from_slice(part.as_slice())?;
        next.extend_from_slice(b") == (")?;
        next.extend_from_slice(part.as_slice())?;
        next.extend_from_slice(b")")?;
        part = next;
    }
    let head = b"User::AddField(eq: Bool {read: none, write: none}, u -> ";
    let mut script = Vec::from_slice(alloc, head)?;
    script.extend_from_slice(part.as_slice())?;
    script.extend_from_slice(b")")?;
    Ok(script)
}

#[test]
fn initialisers_up_to_the_limit(rt: HostRuntime) -> Result<(), Fail> {
    let spec = b"principal model User {
  create: public,
  delete: none,
  isAdmin: Bool {read: public, write: none},
}
";
    let rows = [
        (6, Status::Done, b"accepted obligations 64\n".as_slice()),
        (
            7,
            Status::TypesRefused,
            b"s.scm: command 1: expanded 49535 at 56\n",
        ),
    ];
    for (times, status, report) in rows {
        let script = doubled(rt.alloc(), times)?;
        let ended = check_texts(rt.alloc(), spec, script.as_slice())?;
        assert_eq!(rt; ended.status, status);
        assert!(rt; ended.output.as_slice() == report);
    }
    Ok(())
}

/// Three fields, each over the one before, take apart what is kept of a truth value that a command
/// removed.
#[test]
fn removed_truth_values_are_counted(rt: HostRuntime) -> Result<(), Fail> {
    let spec = b"principal model X {
  create: none,
  delete: none,
  a: Bool {read: none, write: none},
}
";
    let script = b"X::AddField(b: Bool {read: none, write: none}, x -> x.a)
X::RemoveField(a)
X::AddField(e: Bool {read: none, write: none}, x -> match some(x.b) with none -> x.b
  | some y -> if y && y && y && y && y && y && y && y then x.b else x.b)
X::AddField(f: Bool {read: none, write: none}, x -> match some(x.e) with none -> x.b
  | some y -> if y && y && y && y && y && y && y && y then x.b else x.b)
X::AddField(g: Bool {read: none, write: none}, x -> match some(x.f) with none -> x.b
  | some y -> if y && y && y && y && y && y && y && y then x.b else x.b)
";
    let ended = check_texts(rt.alloc(), spec, script)?;
    assert_eq!(rt; ended.status, Status::TypesRefused);
    let report = b"s.scm: command 5: expanded 27855 at 443\n";
    assert!(rt; ended.output.as_slice() == report.as_slice());
    Ok(())
}

/// Added fields, the first of which is these fields of the record, and each other one has the one
/// before twice, one in the other.
fn nested(alloc: Global, first: &[u8], fields: u16) -> Result<Vec<u8>, AllocError> {
    let mut text = Vec::new(alloc);
    for number in 1..=fields {
        text.extend_from_slice(b"User::AddField(a")?;
        push_number(alloc, &mut text, number)?;
        text.extend_from_slice(b": Id(User) {read: none, write: none}, u -> u")?;
        if number == 1 {
            text.extend_from_slice(first)?;
        } else {
            for _ in 0..2 {
                text.extend_from_slice(b".a")?;
                push_number(alloc, &mut text, number - 1)?;
            }
        }
        text.extend_from_slice(b")\n")?;
    }
    Ok(text)
}

/// Terms that are long are refused for their size, and not for how deep a walk through them goes,
/// where they are chains of fields. What goes too deep for the stack otherwise is refused for want
/// of memory.
#[test]
fn added_fields_within_added_fields(rt: HostRuntime) -> Result<(), Fail> {
    let spec = b"principal model User {
  create: public,
  delete: none,
  manager: Id(User) {read: u -> [u.manager], write: none},
}
";
    let managers = b".manager.manager".as_slice();
    for (first, fields, status) in [
        (managers, 9, Status::Done),
        (managers, 10, Status::TooLarge),
        (managers, 13, Status::TooLarge),
        (managers, 14, Status::TypesRefused),
        (b"".as_slice(), 12, Status::OutOfMemory),
    ] {
        let script = nested(rt.alloc(), first, fields)?;
        let ended = check_texts(rt.alloc(), spec, script.as_slice())?;
        assert_eq!(rt; ended.status, status);
    }
    Ok(())
}

/// Puts the text at the end so many times.
fn repeat(text: &mut Vec<u8>, part: &[u8], times: u32) -> Result<(), AllocError> {
    for _ in 0..times {
        text.extend_from_slice(part)?;
    }
    Ok(())
}

/// Added fields, each with 62 negations, one in the other, of the one before, which goes then.
fn negated(alloc: Global, fields: u16) -> Result<Vec<u8>, AllocError> {
    let mut text = Vec::new(alloc);
    for number in 1..=fields {
        text.extend_from_slice(b"User::AddField(a")?;
        push_number(alloc, &mut text, number)?;
        text.extend_from_slice(b": Bool {read: none, write: none}, u -> ")?;
        repeat(&mut text, b"!(", 62)?;
        text.extend_from_slice(b"u.a")?;
        push_number(alloc, &mut text, number - 1)?;
        repeat(&mut text, b")", 62)?;
        text.extend_from_slice(b")\nUser::RemoveField(a")?;
        push_number(alloc, &mut text, number - 1)?;
        text.extend_from_slice(b")\n")?;
    }
    Ok(text)
}

/// Negations that stand one in the other take no stack where formulas are written.
#[test]
fn many_negations(rt: HostRuntime) -> Result<(), Fail> {
    let spec = b"principal model User {
  create: public,
  delete: none,
  a0: Bool {read: public, write: none},
}
";
    let script = negated(rt.alloc(), 120)?;
    let ended = check_texts(rt.alloc(), spec, script.as_slice())?;
    assert_eq!(rt; ended.status, Status::Done);
    assert!(rt; ended.output.as_slice() == b"accepted obligations 120\n".as_slice());
    Ok(())
}

/// One static more than there may be.
#[test]
fn statics_at_the_limit(rt: HostRuntime) -> Result<(), Fail> {
    let spec = specification(rt.alloc(), Sizes::new(64, 1, 1, 0), b"none")?;
    let ended = check_texts(rt.alloc(), spec.as_slice(), b"AddStatic(Another)")?;
    assert_eq!(rt; ended.status, Status::TypesRefused);
    assert!(rt; ended.output.as_slice() == b"s.scm: command 1: crowded at 10\n".as_slice());
    Ok(())
}

#[test]
fn files_at_the_limit(rt: HostRuntime) -> Result<(), Fail> {
    let alloc = rt.alloc();
    let mut blanks = vec![in alloc; b' '; MOST_FILE_BYTES]?;
    let ended = check_texts(alloc, blanks.as_slice(), b"")?;
    assert_eq!(rt; ended.status, Status::Done);
    assert!(rt; ended.output.as_slice() == b"accepted obligations 0\n".as_slice());
    blanks.push(b' ').map_err(AllocError::from)?;
    let ended = check_texts(alloc, blanks.as_slice(), b"")?;
    assert_eq!(rt; ended.status, Status::TooLong);
    assert!(rt; ended.output.as_slice() == b"too long n.spec\n".as_slice());
    assert_eq!(rt; ended.fetches, 1);
    Ok(())
}
