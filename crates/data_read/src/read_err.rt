//! Why a text is no database over a schema.

ghost use Rattle.std.specs.Prelude.{◌≡◌};
ghost use Rattle.data_read.specs.Causes.{of_refusal, of_syntax};

use data_judge::{Fault, Refusal};
use data_records::Limit;
use text_parse::SyntaxErr;
use thiserror::Error;

/// What is answered in place of a database. `at` is the offset of a byte.
#[derive(Clone, Copy, Debug, PartialEq, Eq, Error)]
pub enum ReadErr {
    /// The text has no tokens, or they are none of a database.
    #[error("{0}")]
    Syntax(SyntaxErr),
    /// The name of no model of the schema, or of no field of the model.
    #[error("unknown at {at}")]
    Unknown { at: u32 },
    /// The brace that ends a record to which a field is not given.
    #[error("absent at {at}")]
    Absent { at: u32 },
    /// A model, record, field or id of a set that stood before.
    #[error("twice at {at}")]
    Twice { at: u32 },
    /// A value, or a part of one, that is not of the field's type.
    #[error("wrong shape at {at}")]
    WrongShape { at: u32 },
    /// The id of a record that is zero or not below the next, or a next that is out of range.
    #[error("bad id at {at}")]
    BadId { at: u32 },
    /// The first id in a value that names no record.
    #[error("dangling at {at}")]
    Dangling { at: u32 },
    /// More than 20,000 records, or a weight above 33,554,432.
    #[error("the database is full")]
    Full { what: Limit },
    #[error("out of memory")]
    OutOfMemory,
}

impl From<SyntaxErr> for ReadErr {
    ghost from_gives = { λ e err. err ≡ of_syntax e };

    fn from(e: SyntaxErr) -> ReadErr {
        match e {
            SyntaxErr::OutOfMemory => ReadErr::OutOfMemory,
            SyntaxErr::NotText { .. }
            | SyntaxErr::BadByte { .. }
            | SyntaxErr::BadNumber { .. }
            | SyntaxErr::Unfinished { .. }
            | SyntaxErr::NotGrammar { .. }
            | SyntaxErr::TooDeep { .. }
            | SyntaxErr::TooManyTokens { .. }
            | SyntaxErr::TooMany { .. } => ReadErr::Syntax(e),
        }
    }
}

impl From<Refusal> for ReadErr {
    ghost from_gives = { λ e err. err ≡ of_refusal e };

    fn from(e: Refusal) -> ReadErr {
        match e {
            Refusal::Broken(Fault::Unknown { at }) => ReadErr::Unknown { at },
            Refusal::Broken(Fault::Absent { at }) => ReadErr::Absent { at },
            Refusal::Broken(Fault::Twice { at }) => ReadErr::Twice { at },
            Refusal::Broken(Fault::WrongShape { at }) => ReadErr::WrongShape { at },
            Refusal::Broken(Fault::BadId { at }) => ReadErr::BadId { at },
            Refusal::Dangling { at } => ReadErr::Dangling { at },
            Refusal::Full { what } => ReadErr::Full { what },
            Refusal::OutOfMemory => ReadErr::OutOfMemory,
        }
    }
}
