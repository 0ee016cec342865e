//! Sources in memory.
ghost use Rattle.std.specs.Prelude.{◌≡◌, ◌<◌, ◌≤◌, ◌↔◌, drop, length, min, Contains, Some, []};
ghost use Rattle.std.specs.Prelude.{IfOk, IsErr, OnErr, take};
ghost use Rattle.app_flow.specs.Faults.{Rose, next_count};

use crate::source::Source;
use app_flow::Failed;
use std::marker::Model;

/// How many bytes a source in memory gives into so many places.
fn give(bytes: &[u8], buf: &mut [u8], most: usize) -> usize
    ensures size { result ≡ min (min (length bytes.now) (length buf.old)) most }
    ensures given { take result buf.new ≡ take result bytes.now }
{
    let n = bytes.len().min(buf.len()).min(most);
    buf[..n].copy_from_slice(&bytes[..n]);
    n
}

/// A source that tells what is left, and fails where it was told to.
///
/// A call fails whose number, counted from 0, is in its list. It gives at most `step` bytes at once.
#[derive(Drop)]
pub struct MemSource {
    bytes: Vec<u8>,
    at: usize,
    step: usize,
    failing: Vec<u64>,
    takes: u64,
    faults: u64,
}

impl Model for MemSource {
    ghost use Rattle.std.specs.Prelude.{◌<◌, ◌≤◌, drop, vec_len};
    ghost use Rattle.door_lines.specs.Sources.{MemSourceState};

    ghost Value = { MemSourceState };

    ghost view = { λ s. record {
      left = drop s.at s.bytes.items;
      step = s.step;
      failing = s.failing.items;
      takes = s.takes;
      faults = s.faults;
    } };

    ghost invariant = { λ s. (s.at ≤ vec_len s.bytes) × (0 < s.step) };
}

impl MemSource {
    /// A source of these bytes, that gives at most `step` of them at once.
    pub fn new(bytes: Vec<u8>, step: usize, failing: Vec<u64>) -> MemSource
        requires { 0 < step }
        ensures { result ≡ record {
          left = bytes.items;
          step = step;
          failing = failing.items;
          takes = 0;
          faults = 0;
        } }
    {
        MemSource {
            bytes,
            at: 0,
            step,
            failing,
            takes: 0,
            faults: 0,
        }
    }

    /// The bytes that are left.
    pub fn left(&self) -> &[u8]
        ensures { result.now ≡ self.now.left }
    {
        &self.bytes[self.at..]
    }

    /// How many calls of `take` there were.
    pub fn takes(&self) -> u64
        ensures { result ≡ self.now.takes }
    {
        self.takes
    }

    /// How many of them failed.
    pub fn faults(&self) -> u64
        ensures { result ≡ self.now.faults }
    {
        self.faults
    }
}

impl Source for MemSource {
    ghost told = { λ source. Some source.left };

    ghost faults = { λ source. source.faults };

    fn take(&mut self, buf: &mut [u8]) -> Result<usize, Failed>
        requires { 0 < length buf.old }
        ensures fails { IsErr result ↔ Contains self.old.failing self.old.takes }
        ensures size { IfOk result
            (λ n. n ≡ min (min (length self.old.left) (length buf.old)) self.old.step) }
        ensures given { IfOk result (λ n. take n buf.new ≡ take n self.old.left) }
        ensures ok { IfOk result (λ n. self.new ≡ record self.old {
          left = drop n self.old.left;
          takes = next_count self.old.takes;
        }) }
        ensures err { OnErr result (self.new ≡ record self.old {
          takes = next_count self.old.takes;
          faults = next_count self.old.faults;
        }) }
        ensures ended { result ≡ Ok 0 → self.new.left ≡ [] }
        ensures counted { OnErr result (Rose self.old.faults self.new.faults) }
        ensures never_falls { self.old.faults ≤ self.new.faults }
    {
        let fails = self.failing.contains(&self.takes);
        self.takes = self.takes.saturating_add(1);
        if fails {
            self.faults = self.faults.saturating_add(1);
            return Err(Failed);
        }
        let n = give(&self.bytes[self.at..], buf, self.step);
        self.at += n;
        Ok(n)
    }
}

/// A source that tells what is left, and never fails.
#[derive(Drop)]
pub struct SureSource {
    bytes: Vec<u8>,
    at: usize,
}

impl Model for SureSource {
    ghost use Rattle.std.specs.Prelude.{ℕ, ◌≤◌, List, drop, vec_len};

    ghost Value = { List ℕ };

    ghost view = { λ s. drop s.at s.bytes.items };

    ghost invariant = { λ s. s.at ≤ vec_len s.bytes };
}

impl SureSource {
    /// A source of these bytes.
    pub fn new(bytes: Vec<u8>) -> SureSource
        ensures { result ≡ bytes.items }
    {
        SureSource { bytes, at: 0 }
    }

    /// The bytes that are left.
    pub fn left(&self) -> &[u8]
        ensures { result.now ≡ self.now }
    {
        &self.bytes[self.at..]
    }
}

impl Source for SureSource {
    ghost told = { λ source. Some source };

    ghost faults = { λ _. 0 };

    fn take(&mut self, buf: &mut [u8]) -> Result<usize, Failed>
        requires { 0 < length buf.old }
        ensures size { result ≡ Ok (min (length self.old) (length buf.old)) }
        ensures given { IfOk result (λ n. take n buf.new ≡ take n self.old) }
        ensures left { IfOk result (λ n. self.new ≡ drop n self.old) }
    {
        let n = give(&self.bytes[self.at..], buf, usize::MAX);
        self.at += n;
        Ok(n)
    }
}
