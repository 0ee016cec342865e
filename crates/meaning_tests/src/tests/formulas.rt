//! Formulas of obligations on the structure of the worked database.

ghost use Rattle.std.specs.Prelude.{◌≡◌, IfOk};

use crate::tests::databases::two_users;
use crate::tests::typed;
use duty_formulas::{Numbered, flow_formula, gain_formula};
use duty_listing::duties;
use duty_meaning::Duty;
use duty_numbering::{Numbering, structure_of};
use form_formula::{Arena, Structure, holds};
use std::alloc::Global;
use std::test::Fail;
use type_schema::TScript;

/// Whether the formula of the obligation is true on the structure.
fn is_true(alloc: Global, t: &TScript, duty: Duty, structure: &Structure) -> Result<bool, Fail> {
    let numbering = Numbering::of(alloc, &t.start)?;
    let of = Numbered {
        script: t,
        numbering: &numbering,
    };
    let mut arena = Arena::new(alloc)?;
    let id = match duty.spot {
        Some(spot) => flow_formula(alloc, &mut arena, &of, duty, spot)?,
        None => gain_formula(alloc, &mut arena, &of, duty)?,
    };
    Ok(holds(alloc, structure, &arena, id)?)
}

/// Whether each of the obligations has a formula that is true on the structure.
fn are_true(
    alloc: Global,
    t: &TScript,
    duties: &[Duty],
    structure: &Structure,
) -> Result<Vec<bool>, Fail> {
    let mut truths = Vec::new(alloc);
    for duty in duties {
        truths.push(is_true(alloc, t, *duty, structure)?)?;
    }
    Ok(truths)
}

/// Whether each obligation of the script has a formula that is true on the two users.
fn truths_of(alloc: Global, script: &[u8]) -> Result<Vec<bool>, Fail> {
    let t = typed(alloc, script)?;
    let database = two_users(alloc, &t.start)?;
    let structure = structure_of(alloc, &database, &t.start)?;
    let duties = duties(alloc, &t)?;
    are_true(alloc, &t, duties.as_slice(), &structure)
}

#[test]
fn a_formula_is_true_where_the_obligation_fails(rt: HostRuntime) -> Result<(), Fail> {
    let table: [(&[u8], &[bool]); 9] = [
        (
            b"User::UpdateFieldPolicy(email, {read: u -> [u]})",
            &[false],
        ),
        (b"User::UpdateFieldPolicy(email, {write: public})", &[true]),
        (
            b"User::AddField(level: Int {read: public, write: none}, u -> if u.isAdmin then 2 else 0)
              User::UpdateFieldPolicy(secret, {read: u -> User::Find({level >= 2})})",
            &[false, false],
        ),
        (
            b"User::AddField(level: Int {read: public, write: none}, u -> if u.isAdmin then 2 else 0)
              User::UpdateFieldPolicy(secret, {read: u -> User::Find({level >= 0})})",
            &[false, true],
        ),
        (
            b"User::AddField(tmp: Text {read: none, write: none}, u -> u.secret)
              User::RemoveField(secret)
              User::AddField(secret: Text {read: public, write: none}, u -> u.tmp)",
            &[false, true],
        ),
        (
            b"User::UpdateFieldPolicy(secret, {read: u -> User::Find({isAdmin: true}) - [u.manager]})",
            &[false],
        ),
        (
            b"User::UpdateFieldPolicy(age, {read: u -> [u] - [u.manager]})",
            &[true],
        ),
        (
            b"User::AddField(peers: Set(Id(User)) {read: public, write: none}, u -> User::Find({age > 17}))",
            &[true],
        ),
        (
            b"User::AddField(boss: Bool {read: public, write: none}, u -> u in {User::Find({isAdmin: true})})
              User::UpdateFieldPolicy(secret, {read: u -> User::Find({boss: true})})",
            &[false, false],
        ),
    ];
    for (script, want) in table {
        let truths = truths_of(rt.alloc(), script)?;
        assert_eq!(rt; truths.as_slice(), want, "in {script:?}");
    }
    Ok(())
}

/// A comparison of truth values with itself, so many deep: 11 nodes at first, and then four times
/// as many and 3 with each.
fn compared(alloc: Global, depth: u32) -> Result<Vec<u8>, Fail> {
    let mut text = Vec::from_slice(alloc, b"u.isAdmin == u.isAdmin")?;
    for _ in 1..depth {
        let mut next = Vec::from_slice(alloc, b"(")?;
        next.extend_from_slice(text.as_slice())?;
        next.extend_from_slice(b") == (")?;
        next.extend_from_slice(text.as_slice())?;
        next.extend_from_slice(b")")?;
        text = next;
    }
    Ok(text)
}

/// A policy of 19,993 nodes, where one may have 20,000: a filter with a comparison that is five
/// deep has 6,149, and one with four 1,541.
fn policy(alloc: Global) -> Result<Vec<u8>, Fail> {
    let mut text = Vec::from_slice(alloc, b"u -> none")?;
    for depth in [5, 5, 5, 4] {
        text.extend_from_slice(b" + User::Find({isAdmin: ")?;
        text.extend_from_slice(compared(alloc, depth)?.as_slice())?;
        text.extend_from_slice(b"})")?;
    }
    Ok(text)
}

/// A script that updates a policy and adds a field with the same policy. What the initialiser asks
/// before it reads the field with the updated one has 6,143 nodes.
fn large(alloc: Global) -> Result<Vec<u8>, Fail> {
    let policy = policy(alloc)?;
    let asked = compared(alloc, 5)?;
    let mut text = Vec::from_slice(alloc, b"User::UpdateFieldPolicy(age, {read: ")?;
    text.extend_from_slice(policy.as_slice())?;
    text.extend_from_slice(b"}) User::AddField(old: Bool {read: ")?;
    text.extend_from_slice(policy.as_slice())?;
    text.extend_from_slice(b", write: none}, u -> if (")?;
    text.extend_from_slice(asked.as_slice())?;
    text.extend_from_slice(b") && (")?;
    text.extend_from_slice(asked.as_slice())?;
    text.extend_from_slice(b") then u.age > 17 else false)")?;
    Ok(text)
}

/// The formula of the last obligation has both policies, what the initialiser asks before it reads
/// the age, and nine nodes more: 46,138. Who may read the added field may read the age, so it is
/// false.
#[test]
fn formulas_near_the_limits_are_made(rt: HostRuntime) -> Result<(), Fail> {
    let t = typed(rt.alloc(), large(rt.alloc())?.as_slice())?;
    let database = two_users(rt.alloc(), &t.start)?;
    let structure = structure_of(rt.alloc(), &database, &t.start)?;
    let duties = duties(rt.alloc(), &t)?;
    let Some(duty) = duties.as_slice().last() else {
        return Err(Fail::new("no obligation"));
    };
    assert_eq!(rt; is_true(rt.alloc(), &t, *duty, &structure)?, false);
    Ok(())
}
