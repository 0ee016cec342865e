//! Reads a specification and a database over it from the two files that the command line names,
//! and says how long the database takes to be read, printed, asked and changed. `bench/data` runs
//! it. A third word names the one of these that is done: `read`, `print`, `lists`, `find`, `each`
//! or `change`.
//!
//! - `asked`: how often policies allow, and who is in sets.
//! - `changed`: fields that are changed.
//! - `given`: the specification and the database of the files.
#![tactic(auto)]

mod asked;
mod changed;
mod given;

use crate::asked::{Asked, Which, first_principals, largest_set, size_of};
use crate::changed::change_fields;
use crate::given::{database_of, schema_of};
use data_print::print_database;
use data_records::Database;
use std::process::ExitCode;
use std::time::Instant;
use std::{env, io};
use type_schema::Schema;

/// For how many principals each record is read.
const PRINCIPALS: usize = 100;

/// How often lists and paths are asked.
const QUESTIONS: u64 = 1_000_000;

/// How often a set is looked through.
const FINDS: u32 = 100;

/// How many fields are changed.
const CHANGES: u64 = 10_000;

fn main(rt: HostRuntime) -> io::Result<ExitCode> {
    let mut words = env::args(&rt)?.skip(1);
    let (Some(spec), Some(data)) = (words.next(), words.next()) else {
        println!(rt; "data_bench SPEC DATA [read|print|lists|find|each|change]")?;
        return Ok(ExitCode::FAILURE);
    };
    let Some(s) = schema_of(&rt, spec.as_str())? else {
        return Ok(ExitCode::FAILURE);
    };
    let Some(database) = database_of(&rt, data.as_str(), &s)? else {
        return Ok(ExitCode::FAILURE);
    };
    let word = words.next();
    time_parts(
        &rt,
        &s,
        database,
        word.as_ref().map_or("", |word| word.as_str()),
    )?;
    Ok(ExitCode::SUCCESS)
}

/// Whether the word names the part, or no word was given.
fn names(word: &str, part: &str) -> bool {
    word.is_empty() || word == part
}

/// Times what the word names, which may be empty, behind the reading.
fn time_parts(rt: &HostRuntime, s: &Schema, database: Database, word: &str) -> io::Result<()> {
    let mut database = database;
    if names(word, "print") {
        time_printing(rt, s, &database)?;
    }
    if names(word, "lists") {
        time_lists(rt, s, &database)?;
    }
    if names(word, "find") {
        time_set(rt, s, &database)?;
    }
    if names(word, "each") {
        time_readings(rt, s, &database)?;
    }
    if names(word, "change") {
        time_changes(rt, s, &mut database)?;
    }
    Ok(())
}

/// Says how long it took since the start.
fn say(rt: &HostRuntime, what: &str, start: Instant) -> io::Result<()> {
    let time = start.elapsed(rt)?.as_micros();
    eprintln!(rt; "{what}: {time} microseconds")
}

/// Prints the database.
fn time_printing(rt: &HostRuntime, s: &Schema, database: &Database) -> io::Result<()> {
    let start = Instant::now(rt)?;
    let text = print_database(rt.alloc(), database, s)?;
    say(rt, "printed", start)?;
    let count = text.len();
    println!(rt; "printed again: {count} bytes")
}

/// Asks policies that are lists or fields of the record.
fn time_lists(rt: &HostRuntime, s: &Schema, database: &Database) -> io::Result<()> {
    let whom = first_principals(rt.alloc(), database, s, PRINCIPALS)?;
    let start = Instant::now(rt)?;
    let mut asked = Asked::new(Which::Lists, QUESTIONS);
    asked.ask_all(rt.alloc(), database, s, whom.as_slice())?;
    say(rt, "lists", start)?;
    let Asked { count, allowed, .. } = asked;
    println!(rt; "lists and paths: {count} asked, {allowed} allowed")
}

/// Looks who is in the first set that seeks records, again and again.
fn time_set(rt: &HostRuntime, s: &Schema, database: &Database) -> io::Result<()> {
    let Some((set, id)) = largest_set(s, database) else {
        return Ok(());
    };
    let start = Instant::now(rt)?;
    let mut count: usize = 0;
    for _turn in 0..FINDS {
        count = size_of(rt.alloc(), database, set, id)?;
    }
    say(rt, "found", start)?;
    println!(rt; "found: {count} members, {FINDS} times")
}

/// Reads each record for the principals.
fn time_readings(rt: &HostRuntime, s: &Schema, database: &Database) -> io::Result<()> {
    let whom = first_principals(rt.alloc(), database, s, PRINCIPALS)?;
    let start = Instant::now(rt)?;
    let mut asked = Asked::new(Which::All, u64::MAX);
    asked.ask_all(rt.alloc(), database, s, whom.as_slice())?;
    say(rt, "read for each", start)?;
    let Asked { count, allowed, .. } = asked;
    println!(rt; "read by policy: {count} asked, {allowed} allowed")
}

/// Changes fields.
fn time_changes(rt: &HostRuntime, s: &Schema, database: &mut Database) -> io::Result<()> {
    let start = Instant::now(rt)?;
    let count = change_fields(rt.alloc(), database, s, CHANGES)?;
    say(rt, "changed", start)?;
    println!(rt; "changed: {count} fields")
}
