//! Standard input.
ghost use Rattle.std.specs.Prelude.{◌≡◌, ◌<◌, ◌≤◌, length, None, IfOk, MatchResult, OnErr};
ghost use Rattle.std.specs.Io.KnownBytes.{ReadConsumes};
ghost use Rattle.app_flow.specs.Faults.{Rose, next_count};
ghost use Rattle.door_lines.specs.Attempts.{AttemptReads, faults_behind};
ghost use Rattle.door_lines.specs.Attempts as attempts;

use crate::source::Source;
use app_flow::Failed;
use std::io;
use std::io::{ErrorKind, Read};
use std::marker::Model;

/// Standard input, or another reader.
#[derive(Drop)]
pub struct StdSource<R: Read> {
    reader: R,
    faults: u64,
}

// Clauses see the reader and the count of faults.
impl<R: Read> Model for StdSource<R> {
    ghost use Rattle.door_lines.specs.Sources.{StdSourceState};

    ghost Value = { StdSourceState R };

    ghost view = { λ s. record { reader = s.reader; faults = s.faults } };
}

impl<R: Read> StdSource<R> {
    /// The source over `reader`, as over the standard input that `main` is given.
    pub fn new(reader: R) -> StdSource<R>
        ensures { result ≡ record { reader = reader; faults = 0 } }
    {
        StdSource { reader, faults: 0 }
    }

    /// How many calls of `take` failed.
    pub fn faults(&self) -> u64
        ensures { result ≡ self.now.faults }
    {
        self.faults
    }

    /// Reads once. A failure is counted where it is met.
    fn attempt(&mut self, buf: &mut [u8]) -> Attempt
        ensures taken { AttemptReads (R.remaining self.old.reader)
            (R.remaining self.new.reader) result buf.new }
        ensures counts { self.new.faults ≡ faults_behind result self.old.faults }
        ensures rose { result ≡ Attempt.Failed → Rose self.old.faults self.new.faults }
        ensures never_falls { self.old.faults ≤ self.new.faults }
    {
        let attempt = attempt_of(self.reader.read(buf));
        if matches!(attempt, Attempt::Failed) {
            self.faults = self.faults.saturating_add(1);
        }
        attempt
    }
}

/// What one read comes to.
#[derive(Clone, Copy)]
enum Attempt {
    /// So many bytes came; none at the end.
    Came(usize),
    /// A signal came in between, so that the call goes on.
    Interrupted,
    /// The reader failed.
    Failed,
}

/// What an answer of a reader is.
fn attempt_of(answer: io::Result<usize>) -> Attempt
    ensures { result ≡ attempts.attempt_of answer }
{
    match answer {
        Ok(n) => Attempt::Came(n),
        Err(e) if e.kind() == ErrorKind::Interrupted => Attempt::Interrupted,
        Err(_) => Attempt::Failed,
    }
}

impl<R: Read> Source for StdSource<R> {
    ghost told = { λ _. None };

    ghost faults = { λ source. source.faults };

    fn take(&mut self, buf: &mut [u8]) -> Result<usize, Failed>
        requires { 0 < length buf.old }
        ensures within { IfOk result (λ n. n ≤ length buf.new) }
        ensures read { ReadConsumes (R.remaining self.old.reader)
            (R.remaining self.new.reader) result buf.new }
        ensures counts { MatchResult result (λ _. self.new.faults
            ≡ self.old.faults) (λ _. self.new.faults ≡ next_count self.old.faults) }
        ensures counted { OnErr result (Rose self.old.faults self.new.faults) }
        ensures never_falls { self.old.faults ≤ self.new.faults }
    {
        for _ in 0..u64::MAX {
            match self.attempt(buf) {
                Attempt::Came(n) => return Ok(n),
                Attempt::Failed => return Err(Failed),
                Attempt::Interrupted => {}
            }
        }
        self.faults = self.faults.saturating_add(1);
        Err(Failed)
    }
}
