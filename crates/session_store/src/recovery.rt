// Recovers the items of a session file, whatever a stop made of its end.
ghost use Rattle.std.specs.Prelude.{◌≡◌, ◌↔◌, ℕ, ◌<◌, ◌≤◌, List, [], ◌++◌, IfOk, IfSome, IsErrOf, IsTrue, MatchBool, MatchOption, ◌∷◌};
ghost use Rattle.mug_outside.specs.Cause.{Rose};
ghost use Rattle.session_store.specs.Session.{AreItems, HasHeader, IsLog, KeepsRules, items_of, magic, payload_of};
ghost use Rattle.session_store.specs.inner.Steps.{Follows, FollowsNot, IsNoPayload, MayStand};
ghost use Rattle.session_store.specs.Telling.{Tells};
ghost use Rattle.input_log.specs.declared.item.LogItem.{LogItem};

use input_log::{LogItem, decode};
use log_frames::{FrameFault, FrameReader, Next};
use mug_disk::Disk;
use mug_outside::Failed;
use mug_text::{Listed, NoMemory};
use std::alloc::Global;
use std::marker::Model;
use thiserror::Error;

/// The items of a session file, and the offset just after its last open, whole frame.
#[derive(Debug, Drop)]
pub struct Session {
    items: Listed<LogItem>,
    end: u64,
}

impl Model for Session {
    ghost use Rattle.session_store.specs.Session.{KeepsRules, SessionState};

    ghost Value = { SessionState };

    ghost view = { λ s. record { items = s.items; end = s.end } };

    ghost invariant = { λ s. KeepsRules s.items };
}

impl Session {
    /// The items in a row.
    pub fn items(&self) -> &[LogItem]
        ensures items { result.now ≡ self.now.items }
        ensures rules { KeepsRules result.now }
    {
        self.items.as_slice()
    }

    /// The offset just after the last open, whole frame.
    pub fn end(&self) -> u64
        ensures { result ≡ self.now.end }
    {
        self.end
    }
}

/// Why a session was not recovered.
#[derive(Clone, Copy, Debug, PartialEq, Eq, Error)]
pub enum RecoverFault {
    /// There is no whole header.
    #[error("not a session")]
    NotASession,
    /// The frame whose length stands at this offset doesn't read.
    #[error("damaged session at {at}")]
    Damaged { at: u64 },
    /// The disk failed.
    #[error("disk fault")]
    DiskFault,
    #[error("out of memory")]
    NoMemory,
}

impl From<NoMemory> for RecoverFault {
    ghost use Rattle.session_store.specs.declared.recovery.RecoverFault.TheVariants.{NoMemory as no_memory};

    ghost from_gives = { λ _ fault. fault ≡ no_memory };

    fn from(_error: NoMemory) -> RecoverFault {
        RecoverFault::NoMemory
    }
}

impl From<Failed> for RecoverFault {
    ghost use Rattle.session_store.specs.declared.recovery.RecoverFault.TheVariants.{DiskFault as disk_fault};

    ghost from_gives = { λ _ fault. fault ≡ disk_fault };

    fn from(_error: Failed) -> RecoverFault {
        RecoverFault::DiskFault
    }
}

impl From<FrameFault> for RecoverFault {
    ghost use Rattle.session_store.specs.Telling.{of_frame};

    ghost from_gives = { λ error fault. fault ≡ of_frame error };

    fn from(error: FrameFault) -> RecoverFault {
        match error {
            FrameFault::ReadFault => RecoverFault::DiskFault,
            FrameFault::NoMemory => RecoverFault::NoMemory,
        }
    }
}

// The items of a payload, where it is nothing but items.
fn read_items(alloc: Global, payload: &[u8]) -> Result<Option<Vec<LogItem>>, NoMemory>
    ensures { IfOk result (λ found. MatchOption found (IsNoPayload payload.now)
        (λ items. AreItems items.items × (payload.now ≡ payload_of items.items))) }
{
    let mut items = Vec::new(alloc);
    let mut at = 0;
    while at < payload.len() {
        match decode(alloc, &payload[at..])? {
            Some((item, len)) => {
                items.push(item)?;
                at += len;
            }
            None => return Ok(None),
        }
    }
    Ok(Some(items))
}

// Whether the items may stand in the first frame, or in a later one.
fn may_stand(first: bool, items: &[LogItem]) -> bool
    ensures { IsTrue result ↔ MayStand first items.now }
{
    if first {
        match items {
            [head] => head.is_head(),
            _ => false,
        }
    } else {
        !items.is_empty() && items.iter().all(|item| !item.is_head())
    }
}

// Reads a frame after the items of the frames before it, and tells whether it reads.
fn read_frame(alloc: Global, payload: &[u8], items: &mut Vec<LogItem>) -> Result<bool, NoMemory>
    ensures { IfOk result (λ reads. (before : List (List LogItem)) → IsLog before
        → items.old.items ≡ items_of before
        → MatchBool reads (Follows before payload.now items.old.items items.new.items)
        (FollowsNot before payload.now)) }
{
    let first = items.is_empty();
    let Some(mut group) = read_items(alloc, payload)? else {
        return Ok(false);
    };
    if !may_stand(first, &group) {
        return Ok(false);
    }
    items.append(&mut group)?;
    Ok(true)
}

// Nine bytes, of which the first eight are the magic ones.
fn is_header(front: &[u8]) -> bool
    ensures { IsTrue result ↔ ((gate : ℕ) × (front.now ≡ magic ++ gate ∷ [])) }
{
    match front.strip_prefix(b"MUGSHOT1") {
        Some([_gate]) => true,
        _ => false,
    }
}

// Reads the frames after a whole header.
fn read_frames<D: Disk>(alloc: Global, disk: &mut D) -> Result<Session, RecoverFault>
    ensures told { IfSome (D.held disk.old) (λ held. HasHeader held → Tells result held) }
    ensures not_a_session { IsErrOf result RecoverFault.NotASession → ⊥ }
    ensures fault { IsErrOf result RecoverFault.DiskFault
        → Rose (D.faults disk.old) (D.faults disk.new) }
    ensures later { D.faults disk.old ≤ D.faults disk.new }
    ensures held { D.held disk.new ≡ D.held disk.old }
    ensures moment { D.moment disk.new ≡ D.moment disk.old }
{
    let mut reader = FrameReader::at(8);
    let mut items = Vec::new(alloc);
    let mut payload = Vec::new(alloc);
    'frames: loop {
        let from = match reader.next(disk, &mut payload)? {
            Next::Frame { from } => from,
            Next::End => {
                let end = reader.offset() + 1;
                return Ok(Session {
                    items: Listed::of(items),
                    end,
                });
            }
        };
        if !read_frame(alloc, &payload, &mut items)? {
            return Err(RecoverFault::Damaged { at: from });
        }
    }
}

/// The items of the frames up to the first closed gate or incomplete frame.
pub fn recover<D: Disk>(alloc: Global, disk: &mut D) -> Result<Session, RecoverFault>
    ensures told { IfSome (D.held disk.old) (λ held. Tells result held) }
    ensures fault { IsErrOf result RecoverFault.DiskFault
        → Rose (D.faults disk.old) (D.faults disk.new) }
    ensures later { D.faults disk.old ≤ D.faults disk.new }
    ensures held { D.held disk.new ≡ D.held disk.old }
    ensures moment { D.moment disk.new ≡ D.moment disk.old }
{
    let mut front = [0; 9];
    let n = disk.read_at(0, &mut front)?;
    if !is_header(&front[..n]) {
        return Err(RecoverFault::NotASession);
    }
    read_frames(alloc, disk)
}
