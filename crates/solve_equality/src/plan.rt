//! Which of two classes a join relabels.
ghost use Rattle.std.specs.Prelude.{◌≡◌, ◌≢◌, ◌<◌, ◌⊎◌, length};
ghost use Rattle.solve_equality.specs.Partition.{class_at, anchor_at};

use crate::entry::Join;
use crate::partition::Partition;

/// The join of the classes of two terms in which the smaller class is relabelled.
pub fn plan_join(parts: &Partition, left: u32, right: u32) -> Join
    requires left_in { left < length parts.now.classes }
    requires right_in { right < length parts.now.classes }
    requires left_class { class_at parts.now left < length parts.now.anchors }
    requires right_class { class_at parts.now right < length parts.now.anchors }
    requires apart { class_at parts.now left ≢ class_at parts.now right }
    ensures left { result.left ≡ left }
    ensures right { result.right ≡ right }
    ensures near { (result.near ≡ left) ⊎ (result.near ≡ right) }
    ensures near_from { class_at parts.now result.near ≡ result.from }
    ensures ends { ((class_at parts.now left ≡ result.from) ×
        (class_at parts.now right ≡ result.into)) ⊎
        ((class_at parts.now left ≡ result.into) × (class_at parts.now right ≡ result.from)) }
    ensures apart { result.from ≢ result.into }
    ensures kept { result.anchor ≡ anchor_at parts.now result.into }
{
    let left_class = parts.class_of(left);
    let right_class = parts.class_of(right);
    if parts.is_no_greater(left_class, right_class) {
        Join {
            left,
            right,
            near: left,
            from: left_class,
            into: right_class,
            anchor: parts.anchor_of(right_class),
        }
    } else {
        Join {
            left,
            right,
            near: right,
            from: right_class,
            into: left_class,
            anchor: parts.anchor_of(left_class),
        }
    }
}
