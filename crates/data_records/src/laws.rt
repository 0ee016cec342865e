//! Laws over the definitions alone. Each is the contract of a function that does nothing.

ghost use Rattle.data_records.specs.Keeping.{DatabasesStay, RecordsHaveFields};

/// Over a proper schema, a database without records is a database, and each change that is not
/// refused leaves a database a database.
pub fn databases_stay()
    ensures { DatabasesStay }
{}

/// A record of a database over a schema has the fields of its model.
pub fn records_have_fields()
    ensures { RecordsHaveFields }
{}
