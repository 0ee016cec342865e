//! Sinks in memory.
ghost use Rattle.std.specs.Prelude.{◌≡◌, ℕ, ◌<◌, ◌≤◌, ◌↔◌, [], ◌++◌, length, take, None, Some};
ghost use Rattle.std.specs.Prelude.{OnOk, IfOk, OnErr, IsErr};
ghost use Rattle.std.specs.Option.{option_copied};
ghost use Rattle.app_flow.specs.Faults.{Rose, next_count};
ghost use Rattle.app_flow.specs.Sinks.{FailsNext, taken_of, told_after};

use crate::outside::{Failed, Sink};
use std::alloc::{AllocError, Global};
use std::marker::Model;

/// A sink that tells its bytes and fails where it was told to.
///
/// A put fails whose number, counted from 0, is in its list, and every put once its room is full.
#[derive(Drop)]
pub struct MemSink {
    bytes: Vec<u8>,
    room: usize,
    step: usize,
    failing: Vec<u64>,
    puts: u64,
    faults: u64,
}

impl Model for MemSink {
    ghost use Rattle.std.specs.Prelude.{◌<◌, ◌≤◌, vec_len, length};
    ghost use Rattle.std.specs.Vec.{vec_capacity};
    ghost use Rattle.app_flow.specs.Sinks.{MemSinkState};

    ghost Value = { MemSinkState };

    ghost view = { λ s. record {
      bytes = s.bytes.items;
      room = s.room;
      step = s.step;
      failing = s.failing.items;
      puts = s.puts;
      faults = s.faults;
    } };

    ghost invariant = { λ s. (length s.bytes.items ≤ s.room) × (s.room ≤ vec_capacity s.bytes) ×
        (0 < s.step) };
}

impl MemSink {
    /// A sink with room for `room` bytes that takes at most `step` of them at once.
    pub fn new(
        alloc: Global,
        room: usize,
        step: usize,
        failing: Vec<u64>,
    ) -> Result<MemSink, AllocError>
        requires { 0 < step }
        ensures { IfOk result (λ sink. sink ≡ record {
          bytes = [];
          room = room;
          step = step;
          failing = failing.items;
          puts = 0;
          faults = 0;
        }) }
    {
        Ok(MemSink {
            bytes: Vec::with_capacity(alloc, room)?,
            room,
            step,
            failing,
            puts: 0,
            faults: 0,
        })
    }

    /// All bytes that were put.
    pub fn bytes(&self) -> &[u8]
        ensures { result.now ≡ self.now.bytes }
    {
        self.bytes.as_slice()
    }

    /// How many calls of `put` there were.
    pub fn puts(&self) -> u64
        ensures { result ≡ self.now.puts }
    {
        self.puts
    }

    /// How many of them failed.
    pub fn faults(&self) -> u64
        ensures { result ≡ self.now.faults }
    {
        self.faults
    }
}

impl Sink for MemSink {
    ghost told = { λ sink. Some sink.bytes };

    ghost faults = { λ sink. sink.faults };

    fn put(&mut self, piece: &[u8]) -> Result<usize, Failed>
        requires { 0 < length piece.now }
        ensures some { IfOk result (λ n. 0 < n) }
        ensures counted { OnErr result (Rose self.old.faults self.new.faults) }
        ensures never_falls { self.old.faults ≤ self.new.faults }
        ensures fails { IsErr result ↔ FailsNext self.old }
        ensures taken { IfOk result (λ n. n ≡ taken_of self.old (length piece.now)) }
        ensures ok { IfOk result (λ n. self.new ≡ record self.old {
          bytes = self.old.bytes ++ take n piece.now;
          puts = next_count self.old.puts;
        }) }
        ensures err { OnErr result (self.new ≡ record self.old {
          puts = next_count self.old.puts;
          faults = next_count self.old.faults;
        }) }
    {
        let fails = self.failing.contains(&self.puts) || self.bytes.len() == self.room;
        self.puts = self.puts.saturating_add(1);
        if fails {
            self.faults = self.faults.saturating_add(1);
            return Err(Failed);
        }
        let n = piece.len().min(self.step).min(self.room - self.bytes.len());
        self.bytes.extend_from_slice(&piece[..n]).unwrap();
        Ok(n)
    }
}

/// A sink that never fails.
///
/// It tells its bytes as long as they fit into the room that it took when it was made; once they
/// do not, it goes on taking bytes and tells nothing.
#[derive(Drop)]
pub struct SureSink {
    bytes: Vec<u8>,
    room: usize,
    overrun: bool,
}

impl Model for SureSink {
    ghost use Rattle.std.specs.Prelude.{◌<◌, ◌≤◌, vec_len, length, None, Some, if◌then◌else◌};
    ghost use Rattle.std.specs.Vec.{vec_capacity};
    ghost use Rattle.app_flow.specs.Sinks.{SureSinkState};

    ghost Value = { SureSinkState };

    ghost view = { λ s. record {
      told = if s.overrun then None else Some s.bytes.items;
      room = s.room;
    } };

    ghost invariant = { λ s. (length s.bytes.items ≤ s.room) × (s.room ≤ vec_capacity s.bytes) };
}

impl SureSink {
    /// A sink that can tell up to `room` bytes.
    pub fn new(alloc: Global, room: usize) -> Result<SureSink, AllocError>
        ensures { IfOk result (λ sink. sink ≡ record { told = Some []; room = room }) }
    {
        Ok(SureSink {
            bytes: Vec::with_capacity(alloc, room)?,
            room,
            overrun: false,
        })
    }

    /// All bytes that were put, or `None` where they did not fit.
    pub fn bytes(&self) -> Option<&[u8]>
        ensures { option_copied result ≡ self.now.told }
    {
        if self.overrun {
            return None;
        }
        Some(self.bytes.as_slice())
    }
}

impl Sink for SureSink {
    ghost told = { λ sink. sink.told };

    ghost faults = { λ _. 0 };

    fn put(&mut self, piece: &[u8]) -> Result<usize, Failed>
        requires { 0 < length piece.now }
        ensures whole { result ≡ Ok (length piece.now) }
        ensures told { self.new
            ≡ record self.old { told = told_after self.old.room self.old.told piece.now } }
    {
        if self.room - self.bytes.len() < piece.len() {
            self.overrun = true;
        }
        if !self.overrun {
            self.bytes.extend_from_slice(piece).unwrap();
        }
        Ok(piece.len())
    }
}
