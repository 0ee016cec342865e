//! Laws over the definitions alone: each is the contract of a function that does nothing.

ghost use Rattle.door_serve.specs.Laws.{EnteringIsOpening, MigrationsAreSecure, NoSessionRunsAhead};

use check_scripts::accepted_are_secure;

/// Where `migrate` changes what is stored, the script in the file is secure, what is stored then is
/// its meaning, and each session is stale.
pub fn migrations_are_secure()
    ensures { MigrationsAreSecure }
{
    accepted_are_secure();
}

/// No step brings a session to a later version than the door's.
pub fn no_session_runs_ahead()
    ensures { NoSessionRunsAhead }
{}

/// To enter is what `open` does where its principal is one of the schema.
pub fn entering_is_opening()
    ensures { EnteringIsOpening }
{}
