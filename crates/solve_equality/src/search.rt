//! A search along the equalities of a class.
ghost use Rattle.std.specs.Prelude.{◌≡◌, ◌<◌, length};
ghost use Rattle.solve_equality.specs.Visits.{visit_at};
ghost use Rattle.solve_equality.specs.Search.{IsTree, IsClosed, Grows, AroundIsVisited};

use crate::edges::Edges;
use crate::visits::{Visit, Visits};

/// Visits all terms that edges lead to from `start`, in place of what `visits` held.
pub fn search(edges: &Edges, visits: &mut Visits, start: u32)
    requires within { start < edges.now.terms }
    requires same_terms { visits.old.terms ≡ edges.now.terms }
    ensures begins { 0 < length visits.new.visits }
    ensures starts { (visit_at visits.new.visits 0).term ≡ start }
    ensures tree { IsTree edges.now.pairs visits.new.visits }
    ensures closed { IsClosed edges.now.pairs visits.new.visits }
    ensures terms { visits.new.terms ≡ visits.old.terms }
{
    visits.clear();
    visits.add(Visit {
        term: start,
        via: 0,
        from: 0,
    });
    let mut place = 0;
    while place < visits.len() {
        visit_neighbours(edges, visits, place as u32);
        place += 1;
    }
}

/// Visits the terms that one edge leads to from the term visited at `place`.
fn visit_neighbours(edges: &Edges, visits: &mut Visits, place: u32)
    requires within { place < length visits.old.visits }
    requires same_terms { visits.old.terms ≡ edges.now.terms }
    requires tree { IsTree edges.now.pairs visits.old.visits }
    ensures tree { IsTree edges.now.pairs visits.new.visits }
    ensures around { AroundIsVisited edges.now.pairs visits.new.visits
        (visit_at visits.old.visits place).term }
    ensures grows { Grows visits.old.visits visits.new.visits }
    ensures terms { visits.new.terms ≡ visits.old.terms }
{
    let term = visits.at(place as usize).term;
    let mut next = edges.newest(term);
    while let Some(edge) = next {
        let hop = edges.hop(edge, term);
        if !visits.has(hop.other) {
            visits.add(Visit {
                term: hop.other,
                via: edge,
                from: place,
            });
        }
        next = hop.older;
    }
}
