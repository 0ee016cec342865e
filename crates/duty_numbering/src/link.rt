//! Two models of a database, whose records are elements.

ghost use Rattle.std.specs.Prelude.{◌≡◌};
ghost use Rattle.data_meaning.specs.Database.{ids_of};

use crate::places::Places;
use data_records::Database;
use type_schema::ModelNo;

/// A model with a field, and the model of the ids that it holds.
#[derive(Drop)]
pub(crate) struct Link<'a> {
    pub(crate) database: &'a Database,
    pub(crate) source: ModelNo,
    pub(crate) target: ModelNo,
    pub(crate) sources: Places<u64>,
    pub(crate) targets: Places<u64>,
    pub(crate) ghost sources_are: { sources ≡ ids_of database.now source },
    pub(crate) ghost targets_are: { targets ≡ ids_of database.now target },
}
