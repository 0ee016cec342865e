//! What the library of the store takes alone: it writes rows to a database file, or reads them.
//! `bench/store` runs it beside the program.
//!
//! `write FILE ROWS` makes the file with a row for each line of the text ROWS, all in one
//! transaction. `open FILE` opens it. `read FILE` opens it and reads all rows. `change FILE ROWS`
//! does so, and then writes these rows anew, in one transaction.
#![tactic(auto)]

mod rows;

use crate::rows::{change_rows, count_rows, write_rows};
use sqlite::{Alter, Connection, Error, FileFrom, FileStore, Wary};
use std::process::ExitCode;
use std::{env, fs, io};

/// A database file.
type Opened = FileStore<FileFrom<Wary>>;

/// Opens the file.
fn opened(rt: &HostRuntime, file: &str) -> Result<Connection<Opened>, Error> {
    match Connection::open_from(rt, file, false, Wary) {
        Ok(conn) => Ok(conn),
        Err((error, _left)) => Err(error),
    }
}

/// Does in the file what the word says, and gives the number of rows that it was done with.
fn worked<S: Alter>(conn: &mut Connection<S>, verb: &str, rows: &str) -> Result<usize, Error> {
    match verb {
        "write" => write_rows(conn, rows),
        "change" => change_rows(conn, rows),
        "open" => Ok(0),
        _ => count_rows(conn),
    }
}

/// Does what the words say, and gives the number of rows that it was done with.
fn done(rt: &HostRuntime, verb: &str, file: &str, rows: &str) -> Result<usize, Error> {
    let mut conn = opened(rt, file)?;
    let count = worked(&mut conn, verb, rows)?;
    conn.close()?;
    Ok(count)
}

fn main(rt: HostRuntime) -> io::Result<ExitCode> {
    let mut words = env::args(&rt)?.skip(1);
    let (Some(verb), Some(file)) = (words.next(), words.next()) else {
        println!(rt; "store_bench write FILE ROWS, change FILE ROWS, read FILE, open FILE")?;
        return Ok(ExitCode::SUCCESS);
    };
    let rows = match words.next() {
        Some(path) => fs::read_to_string(&rt, path.as_str())?,
        None => String::new(rt.alloc()),
    };
    match done(&rt, verb.as_str(), file.as_str(), rows.as_str()) {
        Ok(count) => {
            println!(rt; "rows {count}")?;
            Ok(ExitCode::SUCCESS)
        }
        Err(error) => {
            println!(rt; "{error}")?;
            Ok(ExitCode::FAILURE)
        }
    }
}
