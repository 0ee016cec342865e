//! A law over the definitions alone: the contract of a function that does nothing.

ghost use Rattle.store_keeper.specs.Renumbered.{RenumberedAreSettled};

use type_anew::{schemas_come_anew, specs_have_room};

/// The schema that `renumber` gives may be stored.
pub fn renumbered_are_settled()
    ensures { RenumberedAreSettled }
{
    schemas_come_anew();
    specs_have_room();
}
