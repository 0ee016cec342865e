//! What holds of lawful models.

ghost use Rattle.certify_atoms.specs.Columns.{ModelsHaveColumns};

/// A lawful model has columns that are models of both procedures: with them each atom says what its
/// fact is in the model. And the model meets the clauses on the order of numbers.
pub fn models_have_columns()
    ensures { ModelsHaveColumns }
{}
