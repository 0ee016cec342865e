//! Laws over the definitions alone. Each is the contract of a function that does nothing.

ghost use Rattle.check_report_back.specs.Printed.{WitnessesComeBack};
ghost use Rattle.check_report_back.specs.Scripts.{SchemasAreNumbered};

/// What is read of the text of a witness is that witness.
pub fn witnesses_come_back()
    ensures { WitnessesComeBack }
{}

/// The models of a proper schema, and those of start databases of a script, are known by their
/// numbers, and so are the fields of each.
pub fn schemas_are_numbered()
    ensures { SchemasAreNumbered }
{}
