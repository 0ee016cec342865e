//! What holds of the clauses of any formula.

ghost use Rattle.certify_problem.specs.Problems.{StructuresGiveAssignments, VariablesAreBelow};

/// Where some structure passes a formula over ground terms, some assignment is lawful for its
/// clauses over them.
pub fn structures_give_assignments()
    ensures { StructuresGiveAssignments }
{}

/// The variables of a formula's clauses are there.
pub fn variables_are_below()
    ensures { VariablesAreBelow }
{}
