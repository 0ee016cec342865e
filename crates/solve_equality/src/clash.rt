//! Why a join of two classes leaves no model.
ghost use Rattle.std.specs.Prelude.{◌≡◌, ◌≢◌, ℕ, ◌<◌, ◌⊎◌, true, length, IfSome, IfNone};
ghost use Rattle.solve_equality.specs.Visits.{has_visited};
ghost use Rattle.solve_equality.specs.Edges.{pair_at, Joins};
ghost use Rattle.solve_equality.specs.Partition.{class_at, anchor_at};
ghost use Rattle.solve_equality.specs.Clash.{IsGapInto, IsClash};

use crate::edges::Edges;
use crate::entry::Failure;
use crate::partition::Partition;
use crate::visits::Visits;

/// What forbids that the class `from`, whose members are given, is put into the class `into`: that
/// both have a fixed term, or a difference between a term of the one and a term of the other.
pub fn find_clash(
    parts: &Partition,
    gaps: &Edges,
    members: &Visits,
    from: u32,
    into: u32,
) -> Option<Failure>
    requires from_in { from < length parts.now.anchors }
    requires into_in { into < length parts.now.anchors }
    requires classes { length parts.now.classes ≡ gaps.now.terms }
    requires terms { members.now.terms ≡ gaps.now.terms }
    ensures found { IfSome result (IsClash parts.now gaps.now members.now.visits from into) }
    ensures free { IfNone result ((anchor_at parts.now into ≡ None) ⊎
        (anchor_at parts.now from ≡ None)) }
    ensures none { IfNone result ((k s t : ℕ) → k < length gaps.now.pairs →
        Joins (pair_at gaps.now.pairs k) s t → has_visited members.now.visits t ≡ true →
        class_at parts.now s ≢ into) }
{
    if let (Some(left), Some(right)) = (parts.anchor_of(from), parts.anchor_of(into)) {
        return Some(Failure {
            left,
            right,
            forbidden_by: None,
        });
    }
    for place in 0..members.len() {
        let member = members.at(place).term;
        if let Some(clash) = find_gap(parts, gaps, member, into) {
            return Some(clash);
        }
    }
    None
}

/// The newest difference between a term and one of the class `into`.
fn find_gap(parts: &Partition, gaps: &Edges, term: u32, into: u32) -> Option<Failure>
    requires within { term < gaps.now.terms }
    requires classes { length parts.now.classes ≡ gaps.now.terms }
    ensures found { IfSome result (IsGapInto parts.now gaps.now term into) }
    ensures none { IfNone result ((k s : ℕ) → k < length gaps.now.pairs →
        Joins (pair_at gaps.now.pairs k) s term → class_at parts.now s ≢ into) }
{
    let mut next = gaps.newest(term);
    while let Some(edge) = next {
        let hop = gaps.hop(edge, term);
        if parts.class_of(hop.other) == into {
            return Some(Failure {
                left: term,
                right: hop.other,
                forbidden_by: Some(edge),
            });
        }
        next = hop.older;
    }
    None
}
