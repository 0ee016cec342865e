//! The pairs of set relations.

ghost use Rattle.std.specs.Prelude.{◌≡◌, IfOk, map};
ghost use Rattle.std.specs.List.{range_with_len};
ghost use Rattle.std.specs.Option.{option_to_list};
ghost use Rattle.decide_models.specs.Columns.{related_in, relation_at};

use crate::found::Found;
use crate::places::element_or_first;
use ground_problem::PairNode;
use sqlite_items::Items;
use std::alloc::{AllocError, Global};

/// The pair of elements that a set relation relates, if it is this one and holds.
fn related_in(
    related: &Items<bool>,
    elements: &Items<Option<u32>>,
    relation: u32,
    place: usize,
    pair: PairNode,
) -> Option<(u32, u32)>
    ensures { option_to_list result ≡ related_in related.now elements.now relation (place, pair) }
{
    match related.get(place) {
        Some(true) if pair.relation == relation => Some((
            element_or_first(elements, pair.holder),
            element_or_first(elements, pair.member),
        )),
        Some(_) | None => None,
    }
}

/// The pairs of a set relation.
fn relation_at(
    alloc: Global,
    related: &Items<bool>,
    elements: &Items<Option<u32>>,
    pairs: &[PairNode],
    relation: u32,
) -> Result<Items<(u32, u32)>, AllocError>
    ensures { IfOk result (λ found. found ≡ relation_at related.now elements.now pairs.now
        relation) }
{
    let mut found = Items::new(alloc);
    for (place, pair) in pairs.iter().enumerate() {
        if let Some(both) = related_in(related, elements, relation, place, *pair) {
            found.push(both)?;
        }
    }
    Ok(found)
}

/// The pairs of each set relation.
#[tactic(auto, using(crate::proofs::Steps::map_range_more))]
pub(crate) fn relations(
    alloc: Global,
    found: &Found,
    elements: &Items<Option<u32>>,
    pairs: &[PairNode],
    count: u32,
) -> Result<Items<Items<(u32, u32)>>, AllocError>
    ensures { IfOk result (λ relations. relations ≡ map (relation_at found.now.related elements.now
        pairs.now) (range_with_len 0 count)) }
{
    let mut relations = Items::new(alloc);
    for relation in 0..count {
        let pairs = relation_at(alloc, &found.related, elements, pairs, relation)?;
        relations.push(pairs)?;
    }
    Ok(relations)
}
