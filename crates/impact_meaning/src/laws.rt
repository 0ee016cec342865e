//! Laws over the definitions alone. Each is the contract of a function that does nothing.

ghost use Rattle.impact_meaning.specs.Laws.{UndeclaredAreScripts, WeakeningsAreListed, WeakeningsFailAlike};

/// A script with its weakenings taken for updates is a script.
pub fn undeclared_are_scripts()
    ensures { UndeclaredAreScripts }
{}

/// The list of a script's weakenings has just those: each right that a command weakens, with each
/// kind at the command.
pub fn weakenings_are_listed()
    ensures { WeakeningsAreListed }
{}

/// A witness shows what a weakening newly allows exactly where the obligation of the update fails by
/// it that the weakening is taken for.
pub fn weakenings_fail_alike()
    ensures { WeakeningsFailAlike }
{}
