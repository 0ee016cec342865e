//! What typing refuses of a script.

use sqlite_items::Items;
use type_typing::TypeErr;

/// Why a script is not well typed.
#[derive(Debug, Drop)]
pub struct Fault {
    /// The number of the first bad command, from 1.
    pub command: u32,
    /// What is wrong with it.
    pub err: TypeErr,
    /// Who still uses what it removes, by the names that are there before it. Empty where that is
    /// not the fault.
    pub user: Items<u8>,
}
