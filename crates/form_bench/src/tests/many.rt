//! Truth on a structure with as many elements as a database has records at most.

use form_formula::{Arena, SVal, Structure, holds};
use sqlite_items::Items;
use std::alloc::{AllocError, Global};
use std::test::Fail;

/// How many elements there are.
const ELEMENTS: u32 = 20_000;

/// The structure of so many elements of one sort, with a function that is true of the last alone.
fn last_alone(alloc: Global) -> Result<Structure, AllocError> {
    let mut column = Items::new(alloc);
    for element in 0..ELEMENTS {
        let is_last = element.wrapping_add(1) == ELEMENTS;
        column.push(Some(SVal::Flag(is_last)))?;
    }
    let mut funs = Items::new(alloc);
    funs.push(column)?;
    let sizes = Items::from_slice(alloc, &[ELEMENTS])?;
    Ok(Structure {
        sizes,
        funs,
        sets: Items::new(alloc),
    })
}

/// Whether the function is true of some element, at a look at each.
fn is_true_of_some(alloc: Global, structure: &Structure) -> Result<bool, AllocError> {
    let mut arena = Arena::new(alloc)?;
    let element = arena.mk_bound(0, 0)?;
    let flag = arena.mk_flag(0, element)?;
    let some = arena.mk_exists(0, flag)?;
    holds(alloc, structure, &arena, some)
}

/// Whether there is an element beside which the function is true of each: for each of them the
/// first of the others decides.
fn is_true_of_each_beside_some(alloc: Global, structure: &Structure) -> Result<bool, AllocError> {
    let mut arena = Arena::new(alloc)?;
    let element = arena.mk_bound(0, 1)?;
    let flag = arena.mk_flag(0, element)?;
    let each = arena.mk_forall(0, flag)?;
    let some = arena.mk_exists(0, each)?;
    holds(alloc, structure, &arena, some)
}

#[test]
fn quantifiers_stop_where_it_is_decided(rt: HostRuntime) -> Result<(), Fail> {
    let structure = last_alone(rt.alloc())?;
    assert!(rt; is_true_of_some(rt.alloc(), &structure)?);
    assert!(rt; !is_true_of_each_beside_some(rt.alloc(), &structure)?);
    Ok(())
}
