//! The calls of a case, each failing in turn.

use crate::cases::{Case, status_of};
use crate::found::{Found, found_of, number_of};
use crate::objects::{Ended, Fault, NO_FAULT, Object, World, failing, run_words};
use std::alloc::{AllocError, Global};
use std::{io, str};
use store_keeper::MemKeeper;

/// How many calls are tried at most.
const MOST_CALLS: u64 = 2_000;

/// How many calls `init` makes of the store.
const INIT_CALLS: u64 = 2;

/// A store as it is before the case. Calls of it fail from then on.
fn store_of(
    alloc: Global,
    world: World<'_>,
    is_set: bool,
    fault: Fault,
) -> Result<MemKeeper, AllocError> {
    if !is_set {
        return Ok(MemKeeper::new(alloc, None, failing(alloc, Object::Store, fault)?));
    }
    let object = fault.object;
    let number = fault.number.saturating_add(INIT_CALLS);
    let later = Fault { object, number };
    let mut store = MemKeeper::new(alloc, None, failing(alloc, Object::Store, later)?);
    run_words(
        alloc,
        world,
        &["init", "u.spec", "d.txt"],
        &mut store,
        NO_FAULT,
    )?;
    Ok(store)
}

/// What is shown of the store, once more than one call of it was made.
fn shown_of(alloc: Global, world: World<'_>, store: &mut MemKeeper) -> Result<Vec<u8>, AllocError> {
    run_words(alloc, world, &["show"], store, NO_FAULT)?;
    Ok(run_words(alloc, world, &["show"], store, NO_FAULT)?.output)
}

/// What the case comes to with the fault, and what is shown of the store behind it.
fn tried(
    alloc: Global,
    world: World<'_>,
    case: &Case<'_>,
    fault: Fault,
) -> Result<(Ended, Vec<u8>), AllocError> {
    let mut store = store_of(alloc, world, case.is_set, fault)?;
    let ended = run_words(alloc, world, case.words.as_slice(), &mut store, fault)?;
    let shown = shown_of(alloc, world, &mut store)?;
    Ok((ended, shown))
}

/// What the case comes to where its call of the number fails.
fn found_at(
    alloc: Global,
    world: World<'_>,
    case: &Case<'_>,
    number: u64,
    whole: &[u8],
    seen: &mut Vec<Vec<u8>>,
) -> Result<Found, AllocError> {
    let object = case.object;
    let (ended, shown) = tried(alloc, world, case, Fault { object, number })?;
    let store = number_of(seen, shown)?;
    Ok(found_of(&ended, whole, store))
}

/// Prints what the case comes to from this call on.
fn print_found(rt: &HostRuntime, number: u64, found: Found) -> io::Result<()> {
    let part = if found.is_cut { " and a part" } else { "" };
    let other = if found.is_front {
        ""
    } else {
        " of something else"
    };
    let (status, store) = (found.status, found.store);
    print!(rt; "from {number}: status {status}, store {store}, ")?;
    println!(rt; "lines {}{part}{other}", found.lines)
}

/// Prints what the case comes to at each call that fails, wherever that changes.
fn print_tries(
    rt: &HostRuntime,
    world: World<'_>,
    case: &Case<'_>,
    whole: &[u8],
    seen: &mut Vec<Vec<u8>>,
) -> io::Result<()> {
    let mut last = None;
    for number in 0..MOST_CALLS {
        let number = number.saturating_mul(case.step);
        let found = found_at(rt.alloc(), world, case, number, whole, seen)?;
        if last != Some(found) {
            print_found(rt, number, found)?;
        }
        if status_of(case.object) != Some(found.status) {
            return Ok(());
        }
        last = Some(found);
    }
    Ok(())
}

/// Prints what the case puts out where no call fails, and what it comes to where one does.
pub(crate) fn print_case(
    rt: &HostRuntime,
    world: World<'_>,
    case: &Case<'_>,
    seen: &mut Vec<Vec<u8>>,
) -> io::Result<()> {
    let (ended, _) = tried(rt.alloc(), world, case, NO_FAULT)?;
    let whole = ended.output.as_slice();
    print!(rt; "{}", str::from_utf8(whole).unwrap_or("no text\n"))?;
    print_tries(rt, world, case, whole, seen)
}
