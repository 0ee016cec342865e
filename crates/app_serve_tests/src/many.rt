//! A database with many records.

use std::{fs, io};

/// Writes a file with the data of so many records without fields, with what the next number is.
pub(crate) fn write_many(rt: &HostRuntime, name: &str, count: u64, next: u64) -> io::Result<()> {
    let mut text = format!(in rt.alloc(); "Link @1 {{}}\nDot @{next} {{\n")?;
    for number in 0..count {
        let number = number.saturating_add(1);
        let record = format!(in rt.alloc(); "@{number} {{}}\n")?;
        text.push_str(record.as_str())?;
    }
    text.push_str("}\n")?;
    fs::write(rt, name, text.as_str())
}
