//! A law over the definitions alone: the contract of a function that does nothing.

ghost use Rattle.data_back.specs.Printed.{TablesAreRead};

/// The table of a model of a database, printed under a name, is read behind the name.
pub fn printed_tables_are_read()
    ensures { TablesAreRead }
{}
