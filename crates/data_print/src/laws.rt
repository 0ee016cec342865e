//! A law over the definitions alone: the contract of a function that does nothing.

ghost use Rattle.data_print.specs.Told.{TextsTellDatabases};

/// The text of a database over a schema tells it: databases with the tables of the schema's models,
/// in their order, have one text only if they are one.
pub fn texts_tell_databases()
    ensures { TextsTellDatabases }
{}
