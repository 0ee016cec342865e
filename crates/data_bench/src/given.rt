//! The specification and the database of the files.

ghost use Rattle.std.specs.Prelude.{◌<◌, ◌^◌, IfOk, IfSome, length};
ghost use Rattle.type_schema.specs.Proper.{IsProper};
ghost use Rattle.type_schema.specs.SchemaViews as view;

use data_read::{ReadErr, read_database};
use data_records::Database;
use std::time::Instant;
use std::{fs, io};
use text_parse::parse_spec;
use type_schema::Schema;
use type_scripts::type_spec;

/// The bytes of a file that is short enough to be read.
fn bytes_of(rt: &HostRuntime, path: &str) -> io::Result<Vec<u8>>
    ensures { IfOk result (λ bytes. length bytes.items < 2 ^ 32) }
{
    let bytes = fs::read(rt, path)?;
    if bytes.len() > u32::MAX as usize {
        return Err(io::ErrorKind::InvalidData.into());
    }
    Ok(bytes)
}

/// The schema of the specification in the file, or None where that is refused, which is said.
pub(crate) fn schema_of(rt: &HostRuntime, path: &str) -> io::Result<Option<Schema>>
    ensures { IfOk result (λ s. IfSome s (λ s. IsProper (view.schema_of s))) }
{
    let text = bytes_of(rt, path)?;
    let spec = match parse_spec(rt.alloc(), text.as_slice()) {
        Ok(spec) => spec,
        Err(refusal) => {
            println!(rt; "{refusal}")?;
            return Ok(None);
        }
    };
    match type_spec(rt.alloc(), &spec) {
        Ok(s) => Ok(Some(s)),
        Err(refusal) => {
            println!(rt; "{refusal}")?;
            Ok(None)
        }
    }
}

/// The database in the file, or None where that is refused, and how long it takes to be read.
pub(crate) fn database_of(rt: &HostRuntime, path: &str, s: &Schema) -> io::Result<Option<Database>>
    requires { IsProper (view.schema_of s.now) }
{
    let text = bytes_of(rt, path)?;
    let start = Instant::now(rt)?;
    let read = read_database(rt.alloc(), text.as_slice(), s);
    let time = start.elapsed(rt)?.as_micros();
    eprintln!(rt; "read: {time} microseconds")?;
    match read {
        Ok(database) => Ok(Some(database)),
        Err(ReadErr::OutOfMemory) => Err(io::ErrorKind::OutOfMemory.into()),
        Err(refusal) => {
            println!(rt; "{refusal}")?;
            Ok(None)
        }
    }
}
