// A sink in memory.
ghost use Rattle.std.specs.Prelude.{◌≡◌, ◌<◌, ◌≤◌, [], length, take, Some, IfOk, OnOk, OnErr};
ghost use Rattle.mug_outside.specs.Told.{behind};
ghost use Rattle.mug_outside.specs.Cause.{HasCause, counted};
ghost use Rattle.mug_outside.specs.Schedule.{IsDue, next};
ghost use Rattle.mug_outside.specs.MemSink.{sink_of, IsListedOrStarved};

use crate::{Failed, Failing, Sink};
use mug_text::NoMemory;
use std::alloc::Global;
use std::marker::Model;

/// Keeps what is written to it. The calls that are listed fail, and those that find no memory to
/// grow.
#[derive(Debug, Drop)]
pub struct MemSink {
    bytes: Vec<u8>,
    failing: Failing,
    faults: u64,
    starved: u64,
}

impl Model for MemSink {
    ghost use Rattle.mug_outside.specs.MemSink.{SinkState};

    ghost Value = { SinkState };

    ghost view = { λ s. record {
      taken = s.bytes.items;
      schedule = s.failing;
      faults = s.faults;
      starved = s.starved;
    } };
}

impl MemSink {
    /// No call is to fail.
    pub fn new(alloc: Global) -> MemSink
        ensures { result ≡ sink_of [] }
    {
        MemSink {
            bytes: Vec::new(alloc),
            failing: Failing::none(alloc),
            faults: 0,
            starved: 0,
        }
    }

    /// The calls of these numbers are to fail, counted from 1.
    pub fn failing(alloc: Global, calls: &[u64]) -> Result<MemSink, NoMemory>
        ensures { IfOk result (λ made. made ≡ sink_of calls.now) }
    {
        let failing = Failing::listed(alloc, calls)?;
        Ok(MemSink {
            bytes: Vec::new(alloc),
            failing,
            faults: 0,
            starved: 0,
        })
    }

    /// What it took.
    pub fn as_slice(&self) -> &[u8]
        ensures { result.now ≡ self.now.taken }
    {
        &self.bytes
    }

    /// How often it has failed.
    pub fn faults(&self) -> u64
        ensures { result ≡ self.now.faults }
    {
        self.faults
    }

    /// How often it found no memory to grow.
    pub fn starved(&self) -> u64
        ensures { result ≡ self.now.starved }
    {
        self.starved
    }
}

impl Sink for MemSink {
    ghost taken = { λ s. Some s.taken };

    ghost faults = { λ s. s.faults };

    /// Takes all the bytes, or none.
    fn write(&mut self, bytes: &[u8]) -> Result<usize, Failed>
        ensures size { IfOk result (λ n. n ≤ length bytes.now) }
        ensures some { IfOk result (λ n. 0 < length bytes.now → 0 < n) }
        ensures told { IfOk result (λ n.
            Some self.new.taken ≡ behind (take n bytes.now) (Some self.old.taken)) }
        ensures kept { OnErr result (Some self.new.taken ≡ Some self.old.taken) }
        ensures cause { HasCause self.old.faults self.new.faults result }

        ensures schedule { self.new.schedule ≡ next self.old.schedule }
        ensures all { IfOk result (λ n. n ≡ length bytes.now) }
        ensures not_due { OnOk result (¬ IsDue self.old.schedule) }
        ensures no_fault { OnOk result (self.new.faults ≡ self.old.faults) }
        ensures not_starved { OnOk result (self.new.starved ≡ self.old.starved) }
        ensures fault { OnErr result (self.new.faults ≡ counted self.old.faults) }
        ensures reason { OnErr result (IsListedOrStarved self.old self.new) }
    {
        if self.failing.next_fails() {
            self.faults = self.faults.saturating_add(1);
            return Err(Failed);
        }
        if self.bytes.extend_from_slice(bytes).is_err() {
            self.faults = self.faults.saturating_add(1);
            self.starved = self.starved.saturating_add(1);
            return Err(Failed);
        }
        Ok(bytes.len())
    }
}
