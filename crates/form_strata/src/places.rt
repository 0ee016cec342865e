//! The places in a graph of the edges to each vertex.

ghost use Rattle.std.specs.Prelude.{◌≡◌, ◌<◌, ◌∷◌, ◌++◌, [], ℕ, map, length, slice_set, IfOk, OnOk};
ghost use Rattle.form_strata.specs.Places.{places_at, AreGrouped};
ghost use Rattle.form_strata.specs.Search.{AreEdgesBelow};

use std::alloc::{AllocError, Global};

/// The places of the edges to each vertex below a number, from the last one to the first.
pub(crate) fn places_of(
    alloc: Global,
    graph: &[(u32, u32)],
    vertices: u32,
) -> Result<Vec<Vec<usize>>, AllocError>
    requires { AreEdgesBelow graph.now vertices }
    ensures { IfOk result (λ places. AreGrouped graph.now 0 vertices
        (map (λ l. l.items) places.items)) }
{
    let mut places = no_places(alloc, vertices)?;
    let mut place = graph.len();
    while 0 < place {
        place -= 1;
        push_place(&mut places, graph[place].1, place)?;
    }
    Ok(places)
}

/// An empty list for each vertex below a number.
fn no_places(alloc: Global, vertices: u32) -> Result<Vec<Vec<usize>>, AllocError>
    ensures size { IfOk result (λ places. length places.items ≡ vertices) }
    ensures empty { IfOk result (λ places. (v : ℕ) →
        places_at (map (λ l. l.items) places.items) v ≡ []) }
{
    let mut places = Vec::new(alloc);
    for _ in 0..vertices {
        places.push(Vec::new(alloc))?;
    }
    Ok(places)
}

/// Puts the place of an edge at the end of the list of the vertex that it leads to.
fn push_place(places: &mut Vec<Vec<usize>>, to: u32, place: usize) -> Result<(), AllocError>
    requires { to < length places.old.items }
    ensures { OnOk result (map (λ l. l.items) places.new.items
        ≡ slice_set (map (λ l. l.items) places.old.items) to
        (places_at (map (λ l. l.items) places.old.items) to ++ place ∷ [])) }
{
    places[to as usize].push(place)?;
    Ok(())
}
