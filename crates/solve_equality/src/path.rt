//! The way by which a search came to a term.
ghost use Rattle.std.specs.Prelude.{◌≡◌, ◌<◌, ◌≤◌, [], length};
ghost use Rattle.solve_equality.specs.Search.{AreLinked, IsPath};

use crate::edges::Edges;
use crate::search::search;
use crate::visits::Visits;
use solve_theory::LitBuf;

/// Writes the numbers of the edges on a shortest way between two linked terms into `path`.
pub fn write_path(links: &Edges, visits: &mut Visits, left: u32, right: u32, path: &mut LitBuf<u32>)
    requires left_in { left < links.now.terms }
    requires same_terms { visits.old.terms ≡ links.now.terms }
    requires linked { AreLinked links.now.pairs left right }
    requires empty { path.old.items ≡ [] }
    requires room { length links.now.pairs ≤ path.old.capacity }
    ensures path { IsPath links.now.pairs path.new.items left right }
    ensures capacity { path.new.capacity ≡ path.old.capacity }
    ensures terms { visits.new.terms ≡ visits.old.terms }
{
    search(links, visits, left);
    let mut place = visits.place_of(right);
    while place > 0 {
        let visit = visits.at(place);
        path.push(visit.via);
        place = visit.from as usize;
    }
}
