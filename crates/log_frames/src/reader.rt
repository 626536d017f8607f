// Reads a session file frame by frame.
ghost use Rattle.std.specs.Prelude.{◌≡◌, ℕ, ◌+◌, ◌≤◌, List, length, max, drop, IfOk, IfSome, IsErrOf, OnErr, MatchOption};
ghost use Rattle.mug_outside.specs.Cause.{Rose};
ghost use Rattle.log_frames.specs.Frames.{frame};
ghost use Rattle.log_frames.specs.Reading.{NextAt, NextTells, SaysSize};

use mug_disk::Disk;
use std::marker::Model;
use thiserror::Error;

/// Reads frames from a disk, and stands at the offset of a gate.
#[derive(Debug, Drop)]
pub struct FrameReader {
    at: u64,
}

impl Model for FrameReader {
    ghost Value = { ℕ };

    ghost view = { λ r. r.at };
}

/// What stands behind a gate.
#[derive(Clone, Copy, Debug, PartialEq, Eq)]
pub enum Next {
    /// An open, whole frame, whose length stands at this offset.
    Frame { from: u64 },
    /// The gate is closed or missing, or the frame is incomplete.
    End,
}

/// Why a frame was not read.
#[derive(Clone, Copy, Debug, PartialEq, Eq, Error)]
pub enum FrameFault {
    /// The disk failed.
    #[error("read fault")]
    ReadFault,
    #[error("out of memory")]
    NoMemory,
}

// The length that stands behind an open gate.
fn size_at(front: &[u8]) -> Option<u32>
    ensures { MatchOption result ((size : ℕ) → SaysSize front.now size → ⊥)
        (λ size. SaysSize front.now size) }
{
    match front {
        [gate, a, b, c, d] if *gate == 1 => Some(u32::from_be_bytes([*a, *b, *c, *d])),
        _ => None,
    }
}

impl FrameReader {
    /// A reader at the offset of the next gate.
    pub fn at(offset: u64) -> FrameReader
        ensures { result ≡ offset }
    {
        FrameReader { at: offset }
    }

    /// The offset of the next gate.
    pub fn offset(&self) -> u64
        ensures { result ≡ self.now }
    {
        self.at
    }

    /// Reads the payload of the frame behind the gate, if that is open and whole, and goes on to
    /// the next gate. The payload's buffer is not made longer than the file.
    pub fn next<D: Disk>(&mut self, disk: &mut D, payload: &mut Vec<u8>) -> Result<Next, FrameFault>
        ensures told { IfOk result (λ next. IfSome (D.held disk.old) (λ held.
            NextTells next (drop self.old held) payload.new.items (drop self.new held))) }
        ensures place { IfOk result (λ next.
            NextAt next self.old self.new (length payload.new.items)) }
        ensures short { IfSome (D.held disk.old) (λ held.
            length payload.new.items ≤ max (length payload.old.items) (length held)) }
        ensures kept { OnErr result (self.new ≡ self.old) }
        ensures fault { IsErrOf result FrameFault.ReadFault
            → Rose (D.faults disk.old) (D.faults disk.new) }
        ensures later { D.faults disk.old ≤ D.faults disk.new }
        ensures held { D.held disk.new ≡ D.held disk.old }
        ensures moment { D.moment disk.new ≡ D.moment disk.old }
    {
        let Ok(len) = disk.len() else {
            return Err(FrameFault::ReadFault);
        };
        let mut front = [0; 5];
        let Ok(n) = disk.read_at(self.at, &mut front) else {
            return Err(FrameFault::ReadFault);
        };
        let size = match size_at(&front[..n]) {
            Some(size) => size,
            None => return Ok(Next::End),
        };
        if self.at >= len || len - self.at <= 5 + size as u64 {
            return Ok(Next::End);
        }
        payload.clear();
        if payload.resize(size as usize, 0).is_err() {
            return Err(FrameFault::NoMemory);
        }
        let from = self.at + 1;
        let Ok(got) = disk.read_at(from + 4, payload) else {
            return Err(FrameFault::ReadFault);
        };
        if got < payload.len() {
            return Ok(Next::End);
        }
        self.at = from + 4 + size as u64;
        Ok(Next::Frame { from })
    }
}
