//! A law over the definitions alone, the contract of a function that does nothing.

ghost use Rattle.data_meaning.specs.FieldsTyped.{FieldsAreTyped};

/// In a database over a schema, each field of a record that is there has a value of its type, and
/// each id in it names a record that is there.
pub fn fields_are_typed()
    ensures { FieldsAreTyped }
{}
