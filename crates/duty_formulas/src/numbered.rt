//! A script with the numbers of the schema of its start databases.

ghost use Rattle.std.specs.Prelude.{◌≡◌, length};
ghost use Rattle.type_schema.specs.SchemaViews.{schema_of, script_of};
ghost use Rattle.duty_meaning.specs.Duties.{written_at};
ghost use Rattle.duty_meaning.specs.Structures.{sort_of};
ghost use Rattle.duty_numbering.specs.Numbers.{numbers_of};
ghost use Rattle.duty_builder.specs.Values.{schema_in, written_upto};

use crate::policies::schema_at;
use duty_builder::Start;
use duty_numbering::Numbering;
use type_schema::{ModelNo, TScript};

/// A script with the numbers of the schema of its start databases.
#[derive(Clone, Copy)]
pub struct Numbered<'a> {
    /// The script.
    pub script: &'a TScript,
    /// The numbers.
    pub numbering: &'a Numbering,
    pub ghost numbered: { numbering.now ≡ numbers_of (schema_of script.now.start) },
}

impl<'a> Numbered<'a> {
    /// The sort that a model is.
    pub fn sort_of(&self, m: ModelNo) -> u32
        ensures { result ≡ sort_of (schema_of self.now.script.now.start) m }
    {
        self.numbering.sort_of(m)
    }

    /// The schema of start databases, with the fields that the script added in its first k
    /// commands.
    pub fn start_at(&self, k: usize) -> Start<'a>
        ensures schema { schema_in result ≡ schema_of self.now.script.now.start }
        ensures written { written_upto result (length result.added.now)
            ≡ written_at (script_of self.now.script.now) k }
    {
        Start {
            schema: &self.script.start,
            numbering: self.numbering,
            added: schema_at(self.script, k).added.as_slice(),
        }
    }
}
