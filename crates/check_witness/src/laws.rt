//! Laws over the definitions alone. Each is the contract of a function that does nothing.

ghost use Rattle.check_witness.specs.Back.{BuiltDatabasesStart, BuiltDatabasesTellTheTruth};
ghost use Rattle.check_witness.specs.Back.{ScriptsAreBuildable, StructuresComeBack};
ghost use Rattle.check_witness.specs.Failing.{SatisfiedObligationsFail};
ghost use Rattle.check_witness.specs.Worked.{WorkedDatabases};
ghost use Rattle.check_witness.specs.WorkedTexts.{WorkedTexts};

/// The structure of the database that is built of a structure, whose pairs rise, is that structure.
pub fn structures_come_back()
    ensures { StructuresComeBack }
{}

/// A formula is true on the structure of the database that is built of a structure exactly where it
/// is true on that structure, in whatever order its pairs stand.
pub fn built_databases_tell_the_truth()
    ensures { BuiltDatabasesTellTheTruth }
{}

/// The database that is built of a structure is over the schema and has no further tables, so it is
/// a start database of each script whose start databases are over that schema.
pub fn built_databases_start()
    ensures { BuiltDatabasesStart }
{}

/// Each structure over the signature of the schema of a script's start databases has a database.
pub fn scripts_are_buildable()
    ensures { ScriptsAreBuildable }
{}

/// Where a structure satisfies the formula of an obligation of a script, the obligation fails on
/// the database of the structure: somebody gains the right there, or may read what leaks.
pub fn satisfied_obligations_fail()
    ensures { SatisfiedObligationsFail }
{}

/// Worked databases, which show what the definition gives on structures of users.
pub fn worked_databases()
    ensures { WorkedDatabases }
{}

/// Worked texts of witnesses: of a gain, of a right on a model that the script creates, of a flow.
pub fn worked_texts()
    ensures { WorkedTexts }
{}
