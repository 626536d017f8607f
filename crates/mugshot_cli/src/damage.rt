// A frame that doesn't read: one of a kind that isn't built yet, or a damaged one.
ghost use Rattle.std.specs.Prelude.{◌≡◌, ◌↔◌, ℕ, ◌≤◌, List, IfOk, IfSome, IsErrOf, IsTrue};
ghost use Rattle.std.specs.Prelude.{MatchOption};
ghost use Rattle.input_log.specs.Items.{BeginsWith, BeginsWithNone};
ghost use Rattle.input_log.specs.declared.item.LogItem.{LogItem};
ghost use Rattle.mug_outside.specs.Cause.{Rose};
ghost use Rattle.session_store.specs.Recovery.{IsBroken};
ghost use Rattle.mugshot_cli.specs.Sessions.{HasLaterKind, is_later_kind};
ghost use Rattle.mugshot_cli.specs.inner.Refusals.{judge_of_frame};
ghost use Rattle.mugshot_cli.specs.declared.damage.JudgeFault.TheVariants as judge_fault;

use input_log::decode;
use log_frames::{FrameFault, FrameReader, Next};
use mug_disk::Disk;
use mug_text::NoMemory;
use std::alloc::Global;
use thiserror::Error;

/// Why a frame was not judged.
#[derive(Clone, Copy, Debug, PartialEq, Eq, Error)]
pub enum JudgeFault {
    /// The disk failed.
    #[error("disk fault")]
    DiskFault,
    #[error("out of memory")]
    NoMemory,
}

impl From<FrameFault> for JudgeFault {
    ghost from_gives = { λ fault judged. judged ≡ judge_of_frame fault };

    fn from(fault: FrameFault) -> JudgeFault {
        match fault {
            FrameFault::ReadFault => JudgeFault::DiskFault,
            FrameFault::NoMemory => JudgeFault::NoMemory,
        }
    }
}

impl From<NoMemory> for JudgeFault {
    ghost from_gives = { λ _ fault. fault ≡ judge_fault.NoMemory };

    fn from(_error: NoMemory) -> JudgeFault {
        JudgeFault::NoMemory
    }
}

fn is_later_kind(byte: u8) -> bool
    ensures { result ≡ is_later_kind byte }
{
    match byte {
        1 | 2 | 4..=8 => true,
        _ => false,
    }
}

// The number of the bytes of the item that the bytes begin with.
fn item_len(alloc: Global, bytes: &[u8]) -> Result<Option<usize>, NoMemory>
    ensures { IfOk result
        (λ found. MatchOption found (BeginsWithNone bytes.now)
        (λ len. (item : LogItem) × BeginsWith bytes.now item len)) }
{
    match decode(alloc, bytes)? {
        Some((_item, len)) => Ok(Some(len)),
        None => Ok(None),
    }
}

// Whether the first item that isn't read is of a kind that isn't built yet.
fn has_later_kind(alloc: Global, payload: &[u8]) -> Result<bool, NoMemory>
    ensures { IfOk result (λ has. IsTrue has ↔ HasLaterKind payload.now) }
{
    let mut at = 0;
    while at < payload.len() {
        match item_len(alloc, &payload[at..])? {
            Some(len) => at += len,
            None => return Ok(is_later_kind(payload[at])),
        }
    }
    Ok(false)
}

/// Whether the frame whose length stands at this offset is of a kind that isn't built yet.
pub fn is_unbuilt<D: Disk>(alloc: Global, disk: &mut D, at: u64) -> Result<bool, JudgeFault>
    ensures told { IfOk result
        (λ unbuilt. IfSome (D.held disk.old)
        (λ held. (payload : List ℕ) → IsBroken held at payload
        → IsTrue unbuilt ↔ HasLaterKind payload)) }
    ensures fault { IsErrOf result JudgeFault.DiskFault
        → Rose (D.faults disk.old) (D.faults disk.new) }
    ensures later { D.faults disk.old ≤ D.faults disk.new }
    ensures held { D.held disk.new ≡ D.held disk.old }
    ensures moment { D.moment disk.new ≡ D.moment disk.old }
{
    let mut payload = Vec::new(alloc);
    let mut reader = FrameReader::at(at.saturating_sub(1));
    match reader.next(disk, &mut payload)? {
        Next::Frame { from: _ } => {
            let unbuilt = has_later_kind(alloc, &payload)?;
            Ok(unbuilt)
        }
        Next::End => Ok(false),
    }
}
