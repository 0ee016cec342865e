//! Reads a specification from the standard input, or a script where the first word of the command
//! line is `script`, prints it again, and says how long each takes. `bench/texts` runs it.
#![tactic(auto)]

#[cfg(test)]
mod tests;

ghost use Rattle.std.specs.Prelude.{◌<◌, ◌^◌, length};

use std::io::{BufReader, ErrorKind};
use std::process::ExitCode;
use std::rt::Env;
use std::time::Instant;
use std::{env, io};
use text_parse::{SyntaxErr, parse_script, parse_spec};
use text_print::{print_script, print_spec};
use text_tree::{Script, Spec};

fn main(rt: HostRuntime) -> io::Result<ExitCode> {
    let alloc = rt.alloc();
    let text = io::read_to_string(alloc, BufReader::new(alloc, rt.reader())?)?;
    let bytes = text.as_bytes();
    if bytes.len() > u32::MAX as usize {
        println!(rt; "too long")?;
        return Ok(ExitCode::FAILURE);
    }
    if is_script(&rt)? {
        time_script(&rt, bytes)
    } else {
        time_spec(&rt, bytes)
    }
}

/// Whether the first word of the command line is `script`.
fn is_script(rt: &(impl Env + AllocGlobal)) -> io::Result<bool> {
    let word = env::args(rt)?.nth(1);
    Ok(word.is_some_and(|word| word.as_str() == "script"))
}

/// Reads a specification and prints it again.
fn time_spec(rt: &HostRuntime, bytes: &[u8]) -> io::Result<ExitCode>
    requires { length bytes.now < 2 ^ 32 }
{
    let start = Instant::now(rt)?;
    match parse_spec(rt.alloc(), bytes) {
        Ok(spec) => time_printed_spec(rt, start, &spec),
        Err(refusal) => say_refused(rt, start, refusal),
    }
}

/// Reads a script and prints it again.
fn time_script(rt: &HostRuntime, bytes: &[u8]) -> io::Result<ExitCode>
    requires { length bytes.now < 2 ^ 32 }
{
    let start = Instant::now(rt)?;
    match parse_script(rt.alloc(), bytes) {
        Ok(script) => time_printed_script(rt, start, &script),
        Err(refusal) => say_refused(rt, start, refusal),
    }
}

/// Prints a specification that was read since the start.
fn time_printed_spec(rt: &HostRuntime, start: Instant, spec: &Spec) -> io::Result<ExitCode> {
    say_read(rt, start)?;
    let start = Instant::now(rt)?;
    let text = print_spec(rt.alloc(), spec)?;
    say_printed(rt, start, text.len())
}

/// Prints a script that was read since the start.
fn time_printed_script(rt: &HostRuntime, start: Instant, script: &Script) -> io::Result<ExitCode> {
    say_read(rt, start)?;
    let start = Instant::now(rt)?;
    let text = print_script(rt.alloc(), script)?;
    say_printed(rt, start, text.len())
}

/// Says how long the reading took.
fn say_read(rt: &HostRuntime, start: Instant) -> io::Result<()> {
    let time = start.elapsed(rt)?.as_micros();
    eprintln!(rt; "read: {time} microseconds")?;
    Ok(())
}

/// Says how many bytes the canonical text has, and how long it took to make.
fn say_printed(rt: &HostRuntime, start: Instant, count: usize) -> io::Result<ExitCode> {
    let time = start.elapsed(rt)?.as_micros();
    println!(rt; "printed again: {count} bytes")?;
    eprintln!(rt; "printed: {time} microseconds")?;
    Ok(ExitCode::SUCCESS)
}

/// Says why the text is refused, and how long that took.
fn say_refused(rt: &HostRuntime, start: Instant, refusal: SyntaxErr) -> io::Result<ExitCode> {
    say_read(rt, start)?;
    match refusal {
        SyntaxErr::OutOfMemory => Err(ErrorKind::OutOfMemory.into()),
        refusal => {
            println!(rt; "{refusal}")?;
            Ok(ExitCode::FAILURE)
        }
    }
}
