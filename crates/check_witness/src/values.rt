//! Values, and sets of ids.

ghost use Rattle.std.specs.Prelude.{◌≡◌, ◌==◌, ◌&&◌, ◌+◌, ◌++◌, ◌∷◌, [], if◌then◌else◌};
ghost use Rattle.std.specs.Prelude.{suc, filter, map, option_copied, IfOk, OnOk};
ghost use Rattle.std.specs.List.{list_any, range_with_len};
ghost use Rattle.std.specs.Option.{option_map_or};
ghost use Rattle.data_meaning.specs.Values as plain;
ghost use Rattle.data_records.specs.Views.{value_data};
ghost use Rattle.check_witness.specs.Built.{value_at};

use data_records::Value;
use form_formula::SVal;
use sqlite_items::{Boxed, Items};
use std::alloc::{AllocError, Global};

/// What a function has, as a value.
fn value_of(alloc: Global, v: &SVal) -> Result<Value, AllocError>
    ensures { IfOk result (λ r. value_data r ≡ value_at v.now) }
{
    match v {
        SVal::Rec(x) => Ok(Value::Id(u64::from(*x) + 1)),
        SVal::Flag(b) => Ok(Value::Flag(*b)),
        SVal::Num(n) => Ok(Value::Num(*n)),
        SVal::Str(text) => Ok(Value::Str(text.copy(alloc)?)),
    }
}

/// What a field holds that is no option and no set.
pub(crate) fn plain_value(alloc: Global, held: Option<&SVal>) -> Result<Value, AllocError>
    ensures { IfOk result (λ r. value_data r
        ≡ option_map_or value_at (option_copied held.entry) plain.Nothing) }
{
    match held {
        Some(v) => value_of(alloc, v),
        None => Ok(Value::Nothing),
    }
}

/// What an option holds.
pub(crate) fn option_value(alloc: Global, held: Option<&SVal>) -> Result<Value, AllocError>
    ensures { IfOk result (λ r. value_data r
        ≡ option_map_or (λ v. plain.Just (value_at v)) (option_copied held.entry) plain.Nothing) }
{
    match held {
        Some(v) => {
            let inner = value_of(alloc, v)?;
            Ok(Value::Just(Boxed::new(alloc, inner)?))
        }
        None => Ok(Value::Nothing),
    }
}

/// The elements that pairs relate to this one.
fn related(alloc: Global, pairs: &[(u32, u32)], x: u32) -> Result<Vec<u32>, AllocError>
    ensures { IfOk result (λ ys. ys.items
        ≡ map (λ p. p.1) (filter (λ p. p.0 == x) pairs.now)) }
{
    let mut others = Vec::new(alloc);
    for pair in pairs {
        if pair.0 == x {
            others.push(pair.1)?;
        }
    }
    Ok(others)
}

/// Whether an element is among these.
fn is_among(others: &[u32], y: u32) -> bool
    ensures { result ≡ list_any (λ z. z == y) others.now }
{
    others.iter().any(|other| *other == y)
}

/// Adds the id of an element, if it is among these.
fn push_id(ids: &mut Items<u64>, others: &[u32], y: u32) -> Result<(), AllocError>
    ensures { OnOk result (ids.new ≡ ids.old
        ++ (if list_any (λ z. z == y) others.now then (y + 1) ∷ [] else [])) }
{
    if is_among(others, y) {
        ids.push(u64::from(y) + 1)?;
    }
    Ok(())
}

/// The ids of the elements below `size` that are among these.
fn ids_among(alloc: Global, others: &[u32], size: u32) -> Result<Items<u64>, AllocError>
    ensures { IfOk result (λ ids. ids ≡ map suc
        (filter (λ y. list_any (λ z. z == y) others.now) (range_with_len 0 size))) }
{
    let mut ids = Items::new(alloc);
    for y in 0..size {
        push_id(&mut ids, others, y)?;
    }
    Ok(ids)
}

/// The ids of the elements below `size` that pairs relate to this one.
fn related_ids(
    alloc: Global,
    pairs: &[(u32, u32)],
    x: u32,
    size: u32,
) -> Result<Items<u64>, AllocError>
    ensures { IfOk result (λ ids. ids ≡ map suc (filter
        (λ y. list_any (λ p. (p.0 == x) && (p.1 == y)) pairs.now) (range_with_len 0 size))) }
{
    let others = related(alloc, pairs, x)?;
    ids_among(alloc, others.as_slice(), size)
}

/// The set of the ids of the elements below `size` that pairs relate to this one.
pub(crate) fn set_value(
    alloc: Global,
    pairs: &[(u32, u32)],
    x: u32,
    size: u32,
) -> Result<Value, AllocError>
    ensures { IfOk result (λ r. value_data r ≡ plain.Ids (map suc (filter
        (λ y. list_any (λ p. (p.0 == x) && (p.1 == y)) pairs.now) (range_with_len 0 size)))) }
{
    Ok(Value::Ids(related_ids(alloc, pairs, x, size)?))
}
