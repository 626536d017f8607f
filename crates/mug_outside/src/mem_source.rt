// A source in memory.
ghost use Rattle.std.specs.Prelude.{◌≡◌, ◌<◌, ◌≤◌, [], length, take, min, Some, IfOk, IfSome, OnOk, OnErr, IsErr, ◌↔◌};
ghost use Rattle.mug_outside.specs.Told.{ahead};
ghost use Rattle.mug_outside.specs.Cause.{HasCause, counted};
ghost use Rattle.mug_outside.specs.Schedule.{IsDue, next};
ghost use Rattle.mug_outside.specs.MemSource.{source_of};

use crate::{Failed, Failing, Source};
use mug_text::{Bytes, NoMemory};
use std::alloc::Global;
use std::marker::Model;

/// Bytes in memory to read. The calls that are listed fail, and no others.
#[derive(Debug, Drop)]
pub struct MemSource {
    bytes: Bytes,
    at: usize,
    failing: Failing,
    faults: u64,
}

impl Model for MemSource {
    ghost use Rattle.std.specs.Prelude.{◌≤◌, length, drop};
    ghost use Rattle.mug_outside.specs.MemSource.{SourceState};

    ghost Value = { SourceState };

    ghost view = { λ s. record {
      left = drop s.at s.bytes;
      schedule = s.failing;
      faults = s.faults;
    } };

    ghost invariant = { λ s. s.at ≤ length s.bytes };
}

impl MemSource {
    /// No call is to fail.
    pub fn new(alloc: Global, bytes: Bytes) -> MemSource
        ensures { result ≡ source_of bytes [] }
    {
        MemSource {
            bytes,
            at: 0,
            failing: Failing::none(alloc),
            faults: 0,
        }
    }

    /// The calls of these numbers are to fail, counted from 1.
    pub fn failing(alloc: Global, bytes: Bytes, calls: &[u64]) -> Result<MemSource, NoMemory>
        ensures { IfOk result (λ made. made ≡ source_of bytes calls.now) }
    {
        let failing = Failing::listed(alloc, calls)?;
        Ok(MemSource {
            bytes,
            at: 0,
            failing,
            faults: 0,
        })
    }

    /// How often it has failed.
    pub fn faults(&self) -> u64
        ensures { result ≡ self.now.faults }
    {
        self.faults
    }
}

impl Source for MemSource {
    ghost left = { λ s. Some s.left };

    ghost faults = { λ s. s.faults };

    /// Gives as much as fits.
    fn read(&mut self, into: &mut [u8]) -> Result<usize, Failed>
        ensures size { IfOk result (λ n. n ≤ length into.new) }
        ensures told { IfOk result (λ n.
            Some self.old.left ≡ ahead (take n into.new) (Some self.new.left)) }
        ensures end { IfOk result (λ n. n ≡ 0 → 0 < length into.new
            → IfSome (Some self.old.left) (λ bytes. bytes ≡ [])) }
        ensures kept { OnErr result (Some self.new.left ≡ Some self.old.left) }
        ensures cause { HasCause self.old.faults self.new.faults result }

        ensures due { IsErr result ↔ IsDue self.old.schedule }
        ensures schedule { self.new.schedule ≡ next self.old.schedule }
        ensures count { IfOk result (λ n. n ≡ min (length into.old) (length self.old.left)) }
        ensures fault { OnErr result (self.new.faults ≡ counted self.old.faults) }
        ensures no_fault { OnOk result (self.new.faults ≡ self.old.faults) }
    {
        if self.failing.next_fails() {
            self.faults = self.faults.saturating_add(1);
            return Err(Failed);
        }
        let rest = &self.bytes.as_slice()[self.at..];
        let n = into.len().min(rest.len());
        into[..n].copy_from_slice(&rest[..n]);
        self.at += n;
        Ok(n)
    }
}
