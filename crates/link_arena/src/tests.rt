//! What no clause says: that the constructor succeeds, small examples, and that calls are fast.
use crate::Rings;
use std::alloc::{AllocError, Global};
use std::test::Fail;

// Puts a node at the end of a list, wherever it was.
fn put(rings: &mut Rings, list: u32, node: u32) {
    if list as usize >= rings.lists() || node as usize >= rings.nodes() {
        return;
    }
    if rings.is_linked(node) {
        rings.move_to(list, node);
    } else {
        rings.push_back(list, node);
    }
}

// Takes a node out, if it is in a list.
fn take_out(rings: &mut Rings, node: u32) {
    if (node as usize) < rings.nodes() && rings.is_linked(node) {
        rings.unlink(node);
    }
}

fn first(rings: &Rings, list: u32) -> Option<u32> {
    if (list as usize) < rings.lists() {
        rings.first(list)
    } else {
        None
    }
}

fn next(rings: &Rings, node: u32) -> Option<u32> {
    if (node as usize) < rings.nodes() && rings.is_linked(node) {
        rings.next(node)
    } else {
        None
    }
}

// The nodes of a list, found by a walk.
fn items(alloc: Global, rings: &Rings, list: u32) -> Result<Vec<u32>, AllocError> {
    let mut items = Vec::new(alloc);
    let mut at = first(rings, list);
    for _ in 0..rings.nodes() {
        let Some(node) = at else {
            break;
        };
        items.push(node)?;
        at = next(rings, node);
    }
    Ok(items)
}

#[test]
fn a_move_to_the_same_list_puts_the_node_last(rt: HostRuntime) -> Result<(), Fail> {
    let alloc = rt.alloc();
    let mut rings = Rings::new(alloc, 2, 4)?;
    for node in 0..3 {
        put(&mut rings, 1, node);
    }
    assert!(rt; items(alloc, &rings, 1)?.as_slice() == [0, 1, 2].as_slice());
    put(&mut rings, 1, 0);
    assert!(rt; items(alloc, &rings, 1)?.as_slice() == [1, 2, 0].as_slice());
    put(&mut rings, 1, 0);
    assert!(rt; items(alloc, &rings, 1)?.as_slice() == [1, 2, 0].as_slice());
    take_out(&mut rings, 0);
    assert!(rt; items(alloc, &rings, 1)?.as_slice() == [1, 2].as_slice());
    assert_eq!(rt; next(&rings, 2), None);
    assert_eq!(rt; first(&rings, 0), None);
    assert_eq!(rt; rings.lists(), 2);
    assert_eq!(rt; rings.nodes(), 4);
    Ok(())
}

// The same calls on plain vectors.
fn plain_take_out(lists: &mut [Vec<u32>], node: u32) {
    for list in lists.iter_mut() {
        list.retain(|other| *other != node);
    }
}

fn plain_put(lists: &mut [Vec<u32>], list: u32, node: u32) -> Result<(), AllocError> {
    plain_take_out(lists, node);
    if let Some(list) = lists.get_mut(list as usize) {
        list.push(node)?;
    }
    Ok(())
}

#[test]
fn random_calls_agree_with_vectors(rt: HostRuntime) -> Result<(), Fail> {
    let alloc = rt.alloc();
    let mut rings = Rings::new(alloc, 3, 7)?;
    let mut plain = Vec::new(alloc);
    for _ in 0..3 {
        plain.push(Vec::new(alloc))?;
    }
    let mut seed = 20_240_229u64;
    for call in 0..3000 {
        seed = seed
            .wrapping_mul(6_364_136_223_846_793_005)
            .wrapping_add(1_442_695_040_888_963_407);
        let node = ((seed >> 33) % 7) as u32;
        let list = ((seed >> 43) % 4) as u32;
        if list == 3 {
            take_out(&mut rings, node);
            plain_take_out(&mut plain, node);
        } else {
            put(&mut rings, list, node);
            plain_put(&mut plain, list, node)?;
        }
        for (list, want) in plain.iter().enumerate() {
            let found = items(alloc, &rings, (list % 4) as u32)?;
            assert!(rt; found.as_slice() == want.as_slice(), "call {call}");
        }
    }
    Ok(())
}

// How many nodes a walk over the list passes.
fn walk_length(rings: &Rings, list: u32) -> usize {
    let mut at = first(rings, list);
    for passed in 0..rings.nodes() {
        let Some(node) = at else {
            return passed;
        };
        at = next(rings, node);
    }
    rings.nodes()
}

#[test]
fn a_million_nodes_are_walked_and_moved(rt: HostRuntime) -> Result<(), Fail> {
    let nodes = 1_000_000;
    let mut rings = Rings::new(rt.alloc(), 2, nodes as usize)?;
    for node in 0..nodes {
        put(&mut rings, 0, node);
    }
    assert_eq!(rt; walk_length(&rings, 0), nodes as usize);
    for node in 0..nodes {
        put(&mut rings, 1, node);
    }
    assert_eq!(rt; walk_length(&rings, 1), nodes as usize);
    assert_eq!(rt; first(&rings, 0), None);
    assert_eq!(rt; first(&rings, 1), Some(0));
    Ok(())
}
