// A session that is read, or why it isn't: the same for every command that reads one.
ghost use Rattle.std.specs.Prelude.{◌≡◌, ℕ, ◌≤◌, List, [], IfErr, IfOk, IfSome, MatchOption};
ghost use Rattle.session_store.specs.Session.{KeepsRules};
ghost use Rattle.session_store.specs.Recovery.{IsBroken, IsWhole};
ghost use Rattle.mugshot_cli.specs.inner.Commands.{BeginsWithHead};
ghost use Rattle.mugshot_cli.specs.Sessions.{IsRefused};
ghost use Rattle.mugshot_cli.specs.inner.Refusals.{refusal_of_judge};

use crate::damage::{JudgeFault, is_unbuilt};
use input_log::LogItem;
use mug_disk::Disk;
use session_store::{RecoverFault, Session, recover};
use std::alloc::Global;

/// Why a session is not read.
#[derive(Clone, Copy, Debug, PartialEq, Eq)]
pub enum SessionRefusal {
    /// There is no whole header.
    NotASession,
    /// The frame whose length stands at this offset is the first that doesn't read.
    Damaged { at: u64 },
    /// It is of a kind that isn't built yet.
    NotBuilt,
    DiskFault,
    NoMemory,
}

impl From<JudgeFault> for SessionRefusal {
    ghost from_gives = { λ fault why. why ≡ refusal_of_judge fault };

    fn from(fault: JudgeFault) -> SessionRefusal {
        match fault {
            JudgeFault::DiskFault => SessionRefusal::DiskFault,
            JudgeFault::NoMemory => SessionRefusal::NoMemory,
        }
    }
}

// Why a session is not read whose frame at this offset doesn't read.
fn judged<D: Disk>(alloc: Global, disk: &mut D, at: u64) -> SessionRefusal
    ensures refused { IfSome (D.held disk.old) (λ h. (payload : List ℕ) × IsBroken h at payload)
        → IsRefused result (D.held disk.old) (D.faults disk.old) (D.faults disk.new) }
    ensures held { D.held disk.new ≡ D.held disk.old }
    ensures moment { D.moment disk.new ≡ D.moment disk.old }
    ensures later { D.faults disk.old ≤ D.faults disk.new }
{
    match is_unbuilt(alloc, disk, at) {
        Ok(true) => SessionRefusal::NotBuilt,
        Ok(false) => SessionRefusal::Damaged { at },
        Err(fault) => SessionRefusal::from(fault),
    }
}

/// Reads a session whole.
pub fn read_session<D: Disk>(alloc: Global, disk: &mut D) -> Result<Session, SessionRefusal>
    ensures whole { IfOk result
        (λ session. IfSome (D.held disk.old) (λ held. IsWhole held session.items session.end)) }
    ensures refused { IfErr result
        (λ why. IsRefused why (D.held disk.old) (D.faults disk.old) (D.faults disk.new)) }
    ensures held { D.held disk.new ≡ D.held disk.old }
    ensures moment { D.moment disk.new ≡ D.moment disk.old }
    ensures later { D.faults disk.old ≤ D.faults disk.new }
{
    match recover(alloc, disk) {
        Ok(session) => Ok(session),
        Err(RecoverFault::NotASession) => Err(SessionRefusal::NotASession),
        Err(RecoverFault::Damaged { at }) => Err(judged(alloc, disk, at)),
        Err(RecoverFault::DiskFault) => Err(SessionRefusal::DiskFault),
        Err(RecoverFault::NoMemory) => Err(SessionRefusal::NoMemory),
    }
}

/// The page and the budget of a session's head, and its inputs; none where it has no item.
pub fn split_head(items: &[LogItem]) -> Option<(&[u8], u64, &[LogItem])>
    requires { KeepsRules items.now }
    ensures { MatchOption result (items.now ≡ [])
        (λ found. BeginsWithHead items.now found.0.now found.1 found.2.now) }
{
    match items {
        [] => None,
        [
            LogItem::Head {
                base: _,
                budget,
                page,
            },
            inputs @ ..,
        ] => Some((page.as_slice(), *budget, inputs)),
        // A session begins with a head.
        _ => unreachable!(),
    }
}
