// A disk in memory.
ghost use Rattle.std.specs.Prelude.{◌≡◌, ◌↔◌, ◌⊎◌, ◌-◌, ◌≤◌, [], ◌∷◌, length, take, drop, min, IsErr, IsTrue, IfOk, OnOk, OnErr, Some, vec_len};
ghost use Rattle.mug_outside.specs.Cause.{HasCause, Rose, counted};
ghost use Rattle.mug_outside.specs.Schedule.{IsDue, next};
ghost use Rattle.mug_disk.specs.Held.{over, Torn};
ghost use Rattle.mug_disk.specs.State.{start, listed};

use crate::Disk;
use mug_outside::{Failed, Failing};
use mug_text::NoMemory;
use std::alloc::Global;
use std::marker::Model;

/// A disk in memory, of which chosen calls fail.
///
/// A call that fails leaves its bytes as they were.
#[derive(Debug, Drop)]
pub struct MemDisk {
    held: Vec<u8>,
    moment: u64,
    faults: u64,
    starved: u64,
    writes: Failing,
    reads: Failing,
}

impl Model for MemDisk {
    ghost use Rattle.mug_disk.specs.State.{DiskState};

    ghost Value = { DiskState };

    ghost view = { λ d. record {
      held = d.held.items;
      moment = d.moment;
      faults = d.faults;
      starved = d.starved;
      writes = d.writes;
      reads = d.reads;
    } };
}

impl MemDisk {
    /// An empty disk, of which no call is to fail.
    pub fn new(alloc: Global) -> MemDisk
        ensures { result ≡ start [] (listed []) (listed []) }
    {
        MemDisk::with(Vec::new(alloc), Failing::none(alloc), Failing::none(alloc))
    }

    /// An empty disk. The writes and syncs of these numbers are to fail, counted together from 1.
    pub fn failing(alloc: Global, calls: &[u64]) -> Result<MemDisk, NoMemory>
        ensures { IfOk result (λ disk. disk ≡ start [] (listed calls.now) (listed [])) }
    {
        let writes = Failing::listed(alloc, calls)?;
        Ok(MemDisk::with(Vec::new(alloc), writes, Failing::none(alloc)))
    }

    /// An empty disk. The calls of `len` and `read_at` of these numbers are to fail, counted
    /// together from 1.
    pub fn failing_reads(alloc: Global, calls: &[u64]) -> Result<MemDisk, NoMemory>
        ensures { IfOk result (λ disk. disk ≡ start [] (listed []) (listed calls.now)) }
    {
        let reads = Failing::listed(alloc, calls)?;
        Ok(MemDisk::with(Vec::new(alloc), Failing::none(alloc), reads))
    }

    /// A disk that holds a copy of these bytes, of which no call is to fail.
    pub fn holding(alloc: Global, bytes: &[u8]) -> Result<MemDisk, NoMemory>
        ensures { IfOk result (λ disk. disk ≡ start bytes.now (listed []) (listed [])) }
    {
        let held = bytes.to_vec(alloc)?;
        Ok(MemDisk::with(held, Failing::none(alloc), Failing::none(alloc)))
    }

    /// A disk that holds these bytes; `writes` chooses among its writes and syncs, and `reads`
    /// among its calls of `len` and `read_at`.
    pub fn with(bytes: Vec<u8>, writes: Failing, reads: Failing) -> MemDisk
        ensures { result ≡ start bytes.items writes reads }
    {
        MemDisk {
            held: bytes,
            moment: 0,
            faults: 0,
            starved: 0,
            writes,
            reads,
        }
    }

    /// The bytes that it holds.
    pub fn as_slice(&self) -> &[u8]
        ensures { result.now ≡ self.now.held }
    {
        &self.held
    }

    /// The number of writes and syncs so far, failed ones included.
    pub fn moment(&self) -> u64
        ensures { result ≡ self.now.moment }
    {
        self.moment
    }

    /// How many calls failed.
    pub fn faults(&self) -> u64
        ensures { result ≡ self.now.faults }
    {
        self.faults
    }

    /// How many calls failed because there was no memory to grow.
    pub fn starved(&self) -> u64
        ensures { result ≡ self.now.starved }
    {
        self.starved
    }

    // Counts a write or a sync, and tells whether it is to fail.
    fn write_fails(&mut self) -> bool
        ensures counted { self.new
            ≡ record self.old { moment = counted self.old.moment; writes = next self.old.writes } }
        ensures fails { IsTrue result ↔ IsDue self.old.writes }
    {
        self.moment = self.moment.saturating_add(1);
        self.writes.next_fails()
    }

    // Counts a call that fails.
    fn failed(&mut self) -> Failed
        ensures counted { self.new ≡ record self.old { faults = counted self.old.faults } }
        ensures later { self.old.faults ≤ self.new.faults }
        ensures rose { Rose self.old.faults self.new.faults }
    {
        self.faults = self.faults.saturating_add(1);
        Failed
    }
}

#[tactic(auto, using(crate::proofs::Cause::caused))]
impl Disk for MemDisk {
    ghost held = { λ d. Some d.held };

    ghost moment = { λ d. d.moment };

    ghost faults = { λ d. d.faults };

    fn len(&mut self) -> Result<u64, Failed>
        ensures told { IfOk result (λ n. n ≡ length self.old.held) }
        ensures held { self.new.held ≡ self.old.held }
        ensures moment { self.new.moment ≡ self.old.moment }
        ensures cause { HasCause self.old.faults self.new.faults result }

        ensures due { IsErr result ↔ IsDue self.old.reads }
        ensures no_fault { OnOk result (self.new.faults ≡ self.old.faults) }
        ensures fault { OnErr result (self.new.faults ≡ counted self.old.faults) }
        ensures starved { self.new.starved ≡ self.old.starved }
        ensures writes { self.new.writes ≡ self.old.writes }
        ensures reads { self.new.reads ≡ next self.old.reads }
    {
        if self.reads.next_fails() {
            return Err(self.failed());
        }
        Ok(self.held.len() as u64)
    }

    fn read_at(&mut self, at: u64, into: &mut [u8]) -> Result<usize, Failed>
        ensures size { IfOk result (λ n. n ≤ length into.new) }
        ensures told { IfOk result (λ n.
            take n into.new ≡ take (length into.new) (drop at self.old.held)) }
        ensures held { self.new.held ≡ self.old.held }
        ensures moment { self.new.moment ≡ self.old.moment }
        ensures cause { HasCause self.old.faults self.new.faults result }

        ensures number { IfOk result (λ n. n ≡ min (length into.new) (length self.old.held - at)) }
        ensures behind { IfOk result (λ n. drop n into.new ≡ drop n into.old) }
        ensures untouched { OnErr result (into.new ≡ into.old) }
        ensures due { IsErr result ↔ IsDue self.old.reads }
        ensures no_fault { OnOk result (self.new.faults ≡ self.old.faults) }
        ensures fault { OnErr result (self.new.faults ≡ counted self.old.faults) }
        ensures starved { self.new.starved ≡ self.old.starved }
        ensures writes { self.new.writes ≡ self.old.writes }
        ensures reads { self.new.reads ≡ next self.old.reads }
    {
        if self.reads.next_fails() {
            return Err(self.failed());
        }
        Ok(copy_from(&self.held, at as usize, into))
    }

    fn write_at(&mut self, at: u64, bytes: &[u8]) -> Result<(), Failed>
        requires { at ≤ length self.old.held }
        ensures written { OnOk result (self.new.held ≡ over at bytes.now self.old.held) }
        ensures torn { OnErr result (Torn at (length bytes.now) self.old.held self.new.held) }
        ensures moment { self.new.moment ≡ counted self.old.moment }
        ensures cause { HasCause self.old.faults self.new.faults result }

        ensures unchanged { OnErr result (self.new.held ≡ self.old.held) }

        // It fails where it is to fail, and else where it is starved.
        ensures due { IsDue self.old.writes → IsErr result }
        ensures due_not_starved { IsDue self.old.writes → self.new.starved ≡ self.old.starved }
        ensures starved { OnErr result
            (IsDue self.old.writes ⊎ (self.new.starved ≡ counted self.old.starved)) }
        ensures ok_not_starved { OnOk result (self.new.starved ≡ self.old.starved) }

        ensures no_fault { OnOk result (self.new.faults ≡ self.old.faults) }
        ensures fault { OnErr result (self.new.faults ≡ counted self.old.faults) }
        ensures writes { self.new.writes ≡ next self.old.writes }
        ensures reads { self.new.reads ≡ self.old.reads }
    {
        if self.write_fails() {
            return Err(self.failed());
        }
        if overwrite(&mut self.held, at as usize, bytes).is_err() {
            self.starved = self.starved.saturating_add(1);
            return Err(self.failed());
        }
        Ok(())
    }

    fn sync(&mut self) -> Result<(), Failed>
        ensures held { self.new.held ≡ self.old.held }
        ensures moment { self.new.moment ≡ counted self.old.moment }
        ensures cause { HasCause self.old.faults self.new.faults result }

        ensures due { IsErr result ↔ IsDue self.old.writes }
        ensures no_fault { OnOk result (self.new.faults ≡ self.old.faults) }
        ensures fault { OnErr result (self.new.faults ≡ counted self.old.faults) }
        ensures starved { self.new.starved ≡ self.old.starved }
        ensures writes { self.new.writes ≡ next self.old.writes }
        ensures reads { self.new.reads ≡ self.old.reads }
    {
        if !self.write_fails() {
            return Ok(());
        }
        Err(self.failed())
    }
}

// Copies what stands in `held` from place `at` on into the front of `into`, and gives how much.
fn copy_from(held: &[u8], at: usize, into: &mut [u8]) -> usize
    ensures number { result ≡ min (length into.new) (length held.now - at) }
    ensures told { take result into.new ≡ take (length into.new) (drop at held.now) }
    ensures behind { drop result into.new ≡ drop result into.old }
{
    let from = at.min(held.len());
    let rest = &held[from..];
    let n = into.len().min(rest.len());
    into[..n].copy_from_slice(&rest[..n]);
    n
}

// Writes `bytes` from place `at` on, in place: first what goes past the end, since growing can
// fail, then what lies within.
fn overwrite(held: &mut Vec<u8>, at: usize, bytes: &[u8]) -> Result<(), NoMemory>
    requires { at ≤ vec_len held.old }
    ensures ok { OnOk result (held.new.items ≡ over at bytes.now held.old.items) }
    ensures err { OnErr result (held.new.items ≡ held.old.items) }
{
    let within = bytes.len().min(held.len() - at);
    let (inner, past) = bytes.split_at(within);
    held.extend_from_slice(past)?;
    held[at..at + within].copy_from_slice(inner);
    Ok(())
}
