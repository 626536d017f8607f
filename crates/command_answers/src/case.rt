// A disk, and what the next command is given beside it.
use crate::shown::shown;
use mug_disk::MemDisk;
use mug_outside::{Failing, MemSink, MemSource};
use mug_text::{Bytes, NoMemory};
use mugshot_cli::{Status, mugshot};
use std::alloc::Global;

/// What a source gives, and which of its calls fail.
#[derive(Drop)]
pub struct Given {
    pub bytes: Vec<u8>,
    pub fails: Vec<u64>,
}

impl Given {
    pub fn nothing(alloc: Global) -> Given {
        Given {
            bytes: Vec::new(alloc),
            fails: Vec::new(alloc),
        }
    }

    fn source(&self, alloc: Global) -> Result<MemSource, NoMemory> {
        let bytes = Bytes::of(alloc, &self.bytes)?;
        MemSource::failing(alloc, bytes, &self.fails)
    }
}

// What the command answers; what it did is in the streams and on the disk.
fn called(
    alloc: Global,
    words: &[String],
    page: &mut MemSource,
    arrivals: &mut MemSource,
    disk: &mut MemDisk,
    out: &mut MemSink,
    err: &mut MemSink,
) -> Status {
    mugshot(alloc, words, page, arrivals, disk, out, err)
}

// A status, what both streams took, and a moment.
fn answer(
    alloc: Global,
    status: Status,
    out: &MemSink,
    err: &MemSink,
    moment: u64,
) -> Result<String, NoMemory> {
    let code = status.code();
    let printed = shown(alloc, out.as_slice())?;
    let said = shown(alloc, err.as_slice())?;
    Ok(format!(in alloc; "{code} [{printed}] [{said}] {moment}")?)
}

/// The disk of a case, and what its next command reads and writes.
#[derive(Drop)]
pub struct Case {
    alloc: Global,
    pub page: Given,
    pub arrivals: Given,
    pub out_fails: Vec<u64>,
    pub err_fails: Vec<u64>,
    disk: MemDisk,
}

impl Case {
    pub fn new(alloc: Global) -> Case {
        Case {
            alloc,
            page: Given::nothing(alloc),
            arrivals: Given::nothing(alloc),
            out_fails: Vec::new(alloc),
            err_fails: Vec::new(alloc),
            disk: MemDisk::new(alloc),
        }
    }

    /// Puts another disk in place of the one that is there.
    pub fn hold(&mut self, bytes: Vec<u8>, writes: &[u64], reads: &[u64]) -> Result<(), NoMemory> {
        let writes = Failing::listed(self.alloc, writes)?;
        let reads = Failing::listed(self.alloc, reads)?;
        self.disk = MemDisk::with(bytes, writes, reads);
        Ok(())
    }

    /// Runs the command of these words: its status, what it printed on both streams, and the disk's
    /// writes and syncs so far.
    pub fn run(&mut self, words: &[String]) -> Result<String, NoMemory> {
        let mut page = self.page.source(self.alloc)?;
        let mut arrivals = self.arrivals.source(self.alloc)?;
        let mut out = MemSink::failing(self.alloc, &self.out_fails)?;
        let mut err = MemSink::failing(self.alloc, &self.err_fails)?;
        let status = called(
            self.alloc,
            words,
            &mut page,
            &mut arrivals,
            &mut self.disk,
            &mut out,
            &mut err,
        );
        answer(self.alloc, status, &out, &err, self.disk.moment())
    }

    /// What the disk holds.
    pub fn held(&self) -> Result<String, NoMemory> {
        shown(self.alloc, self.disk.as_slice())
    }
}
