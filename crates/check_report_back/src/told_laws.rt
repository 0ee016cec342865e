//! Laws over the definitions alone. Each is the contract of a function that does nothing.

ghost use Rattle.check_report_back.specs.Told.{BuiltStandInOrder, WitnessTextsTell};

/// Two witnesses of a script have one text only if they are one.
pub fn witness_texts_tell()
    ensures { WitnessTextsTell }
{}

/// The database of a structure has the tables of the schema's models, in their order, as the
/// database of a witness has them.
pub fn built_stand_in_order()
    ensures { BuiltStandInOrder }
{}
