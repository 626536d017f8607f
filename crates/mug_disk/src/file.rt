// A disk over an open file.
ghost use Rattle.std.specs.Prelude.{◌≡◌, ◌≤◌, length, IfOk, IsErr, None, OnOk, OnErr, true, false};
ghost use Rattle.mug_outside.specs.Cause.{HasCause, Rose, counted};

use crate::Disk;
use mug_outside::Failed;
use std::fs::OpenFile;
use std::io;
use std::io::{ErrorKind, Read, Seek, SeekFrom, Write};
use std::marker::Model;

/// A disk over an open file of a runtime, or in the place of one that could not be opened.
///
/// It tells nothing of what the file holds.
#[derive(Debug, Drop)]
pub struct FileDisk<F> {
    file: Option<F>,
    moment: u64,
    faults: u64,
}

impl<F> Model for FileDisk<F> {
    ghost use Rattle.std.specs.Prelude.{is_some};
    ghost use Rattle.mug_disk.specs.State.{FileState};

    ghost Value = { FileState };

    ghost view = { λ d. record { there = is_some d.file; moment = d.moment; faults = d.faults } };
}

impl<F> FileDisk<F> {
    /// A disk over a file that is open for what is to be done with it.
    pub fn new(file: F) -> FileDisk<F>
        ensures { result ≡ record { there = true; moment = 0; faults = 0 } }
    {
        FileDisk {
            file: Some(file),
            moment: 0,
            faults: 0,
        }
    }

    /// In the place of a file that could not be opened: each call fails.
    pub fn missing() -> FileDisk<F>
        ensures { result ≡ record { there = false; moment = 0; faults = 0 } }
    {
        FileDisk {
            file: None,
            moment: 0,
            faults: 0,
        }
    }

    // Counts a call that fails.
    fn failed(&mut self) -> Failed
        ensures counted { self.new ≡ record self.old { faults = counted self.old.faults } }
        ensures later { self.old.faults ≤ self.new.faults }
        ensures rose { Rose self.old.faults self.new.faults }
    {
        self.faults = self.faults.saturating_add(1);
        Failed
    }
}

#[tactic(auto, using(crate::proofs::Cause::caused))]
impl<F: Read + Write + Seek + OpenFile> Disk for FileDisk<F> {
    ghost held = { λ _. None };

    ghost moment = { λ d. d.moment };

    ghost faults = { λ d. d.faults };

    fn len(&mut self) -> Result<u64, Failed>
        ensures moment { self.new.moment ≡ self.old.moment }
        ensures cause { HasCause self.old.faults self.new.faults result }

        ensures missing { self.old.there ≡ false → IsErr result }
        ensures there { self.new.there ≡ self.old.there }
        ensures no_fault { OnOk result (self.new.faults ≡ self.old.faults) }
        ensures fault { OnErr result (self.new.faults ≡ counted self.old.faults) }
    {
        if let Some(file) = &mut self.file
            && let Ok(length) = file.seek(SeekFrom::End(0))
        {
            return Ok(length);
        }
        Err(self.failed())
    }

    fn read_at(&mut self, at: u64, into: &mut [u8]) -> Result<usize, Failed>
        ensures size { IfOk result (λ n. n ≤ length into.new) }
        ensures moment { self.new.moment ≡ self.old.moment }
        ensures cause { HasCause self.old.faults self.new.faults result }

        ensures missing { self.old.there ≡ false → IsErr result }
        ensures there { self.new.there ≡ self.old.there }
        ensures no_fault { OnOk result (self.new.faults ≡ self.old.faults) }
        ensures fault { OnErr result (self.new.faults ≡ counted self.old.faults) }
    {
        if let Some(file) = &mut self.file
            && let Ok(n) = fill(file, at, into)
        {
            return Ok(n);
        }
        Err(self.failed())
    }

    fn write_at(&mut self, at: u64, bytes: &[u8]) -> Result<(), Failed>
        ensures moment { self.new.moment ≡ counted self.old.moment }
        ensures cause { HasCause self.old.faults self.new.faults result }

        ensures missing { self.old.there ≡ false → IsErr result }
        ensures there { self.new.there ≡ self.old.there }
        ensures no_fault { OnOk result (self.new.faults ≡ self.old.faults) }
        ensures fault { OnErr result (self.new.faults ≡ counted self.old.faults) }
    {
        self.moment = self.moment.saturating_add(1);
        if let Some(file) = &mut self.file
            && put(file, at, bytes).is_ok()
        {
            return Ok(());
        }
        Err(self.failed())
    }

    fn sync(&mut self) -> Result<(), Failed>
        ensures moment { self.new.moment ≡ counted self.old.moment }
        ensures cause { HasCause self.old.faults self.new.faults result }

        ensures missing { self.old.there ≡ false → IsErr result }
        ensures there { self.new.there ≡ self.old.there }
        ensures no_fault { OnOk result (self.new.faults ≡ self.old.faults) }
        ensures fault { OnErr result (self.new.faults ≡ counted self.old.faults) }
    {
        self.moment = self.moment.saturating_add(1);
        if let Some(file) = &mut self.file
            && file.sync_all().is_ok()
        {
            return Ok(());
        }
        Err(self.failed())
    }
}

// Reads into `into` from place `at` on as far as the file goes, and gives how much.
fn fill<F: Read + Seek>(file: &mut F, at: u64, into: &mut [u8]) -> io::Result<usize>
    ensures { IfOk result (λ n. n ≤ length into.new) }
{
    file.seek(SeekFrom::Start(at))?;
    let mut filled = 0;
    for _ in 0..u64::MAX {
        if filled == into.len() {
            return Ok(filled);
        }
        match file.read(&mut into[filled..]) {
            Ok(0) => return Ok(filled),
            Ok(n) => filled += n,
            Err(error) if error.kind() == ErrorKind::Interrupted => {}
            Err(error) => return Err(error),
        }
    }
    Err(io::Error::from(ErrorKind::Interrupted))
}

// Writes all of `bytes` from place `at` on.
fn put<F: Write + Seek>(file: &mut F, at: u64, bytes: &[u8]) -> io::Result<()> {
    file.seek(SeekFrom::Start(at))?;
    file.write_all(bytes)
}
