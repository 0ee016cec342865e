//! What lawful trees show.

ghost use Rattle.certify_clauses.specs.Trees.{TreesRefute};

/// Where there is a lawful tree, there is no lawful assignment.
pub fn lawful_trees_refute()
    ensures { TreesRefute }
{}
