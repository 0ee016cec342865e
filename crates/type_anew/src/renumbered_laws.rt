//! Laws over the definitions alone. Each is the contract of a function that does nothing.

ghost use Rattle.type_anew.specs.RenumberedLaws.{DatabasesMove, PoliciesMeanTheSame};

/// A database over a proper schema, without further tables, is over the schema numbered anew once
/// it is numbered anew, has the same records with the same values, and keeps the order of tables.
pub fn databases_move()
    ensures { DatabasesMove }
{}

/// A policy numbered anew allows on a database numbered anew whom it allowed before.
pub fn policies_mean_the_same()
    ensures { PoliciesMeanTheSame }
{}
