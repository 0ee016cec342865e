//! The push of a literal with its edges.
ghost use Rattle.std.specs.Prelude.{◌≡◌, ◌<◌, ◌≤◌, [], ◌∷◌, ◌++◌, length, vec_len, vec_capacity};
ghost use Rattle.std.specs.Prelude.{IfSome};
ghost use Rattle.solve_equality.specs.EntryEnds.{link_of, gap_of, AreEnds};

use crate::edges::Edges;
use crate::entry::Entry;
use solve_theory::push_within;

/// Puts an entry at the end of the list, with the edges that it makes.
pub fn record(entries: &mut Vec<Entry>, links: &mut Edges, gaps: &mut Edges, entry: Entry)
    requires room { vec_len entries.old < vec_capacity entries.old }
    requires link_room { length links.old.pairs < links.old.capacity }
    requires gap_room { length gaps.old.pairs < gaps.old.capacity }
    requires link { IfSome (link_of entry) (AreEnds links.old.terms) }
    requires gap { IfSome (gap_of entry) (AreEnds gaps.old.terms) }
    ensures entries { entries.new.items ≡ entries.old.items ++ entry ∷ [] }
    ensures room { vec_capacity entries.old ≤ vec_capacity entries.new }
    ensures links { links.new ≡ record links.old { pairs = links.old.pairs ++ link_of entry ∷ [] } }
    ensures gaps { gaps.new ≡ record gaps.old { pairs = gaps.old.pairs ++ gap_of entry ∷ [] } }
{
    links.push(entry.link());
    gaps.push(entry.gap());
    push_within(entries, entry);
}
