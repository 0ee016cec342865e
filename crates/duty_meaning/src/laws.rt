//! Laws over the definitions alone. Each is the contract of a function that does nothing.

ghost use Rattle.duty_meaning.specs.Failing.{FalseFormulasSecure};
ghost use Rattle.duty_meaning.specs.Flows.{FlowFormulasAreTrue};
ghost use Rattle.duty_meaning.specs.Gains.{GainFormulasAreTrue};
ghost use Rattle.duty_meaning.specs.Listed.{ObligationsAreListed};
ghost use Rattle.duty_meaning.specs.Over.{FormulasAreOver, SignaturesFit};
ghost use Rattle.duty_meaning.specs.Reads.{UsesRead};
ghost use Rattle.duty_meaning.specs.Shapes.{StructuresAreOver, UnsatisfiedSecure};
ghost use Rattle.duty_meaning.specs.Truths.{FormulasAreTrue};
ghost use Rattle.duty_meaning.specs.Worked.{ExpandedIsCounted, WorkedFormulas};

/// On the structure of a database over a schema, the formula of a well typed condition is true
/// where the condition is, and that of a policy where the policy allows; and so are the negations.
pub fn formulas_are_true()
    ensures { FormulasAreTrue }
{}

/// On each start database of a script, the formula of an obligation against gains is true exactly
/// where some principal of its kind gains the right at its command.
pub fn gain_formulas_are_true()
    ensures { GainFormulasAreTrue }
{}

/// On each start database of a script, the formula of an obligation against flow leaks is true
/// exactly where some principal of its kind may read the added field on a record and may not read
/// a cell that the use reads there.
pub fn flow_formulas_are_true()
    ensures { FlowFormulasAreTrue }
{}

/// The list of a script's obligations has just those: of each right that a command updates, and of
/// each use in the initialiser of a field that a command adds, with each kind at the command.
pub fn obligations_are_listed()
    ensures { ObligationsAreListed }
{}

/// The formula of each obligation of a script is closed, and over the signature of the schema of
/// its start databases.
pub fn formulas_are_over()
    ensures { FormulasAreOver }
{}

/// The schema of the start databases of a script has a signature, if it has fewer than 2^32
/// functions and fewer than 2^32 set relations.
pub fn signatures_fit()
    ensures { SignaturesFit }
{}

/// The structure of each start database of a script is a structure over the signature of the schema
/// of start databases.
pub fn structures_are_over()
    ensures { StructuresAreOver }
{}

/// If no formula of an obligation of a script is true on a structure over that signature, the
/// script is secure at each of its commands.
pub fn unsatisfied_secure()
    ensures { UnsatisfiedSecure }
{}

/// No formula of an obligation of a script is true on the structure of a start database exactly
/// where the script is secure at each of its commands.
pub fn false_formulas_secure()
    ensures { FalseFormulasSecure }
{}

/// What an initialiser touches on a database is what its uses of fields read.
pub fn uses_read_what_is_touched()
    ensures { UsesRead }
{}

/// Worked formulas and sizes, which show what the definitions give on a schema of users.
pub fn worked_formulas()
    ensures { WorkedFormulas }
{}

/// An expression that compares truth values seven deep is 49,535 large.
pub fn expanded_is_counted()
    ensures { ExpandedIsCounted }
{}
