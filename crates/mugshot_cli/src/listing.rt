// Lists what a session file has.
ghost use Rattle.mugshot_cli.specs.Listing.{ListDid};
ghost use Rattle.capture_engine.specs.Outside.{shown};

use crate::lines::PrintFault;
use crate::printing::print_items;
use crate::session::{SessionRefusal, read_session};
use mug_disk::Disk;
use mug_outside::Sink;
use std::alloc::Global;

/// What `list` comes to.
#[derive(Clone, Copy, Debug, PartialEq, Eq)]
pub enum ListOutcome {
    Done,
    Refused(SessionRefusal),
    WriteFault,
    /// While the lines were printed.
    NoMemory,
}

/// The whole session is read before anything is printed.
pub fn list<D: Disk, O: Sink>(alloc: Global, disk: &mut D, out: &mut O) -> ListOutcome
    ensures { ListDid result (shown D.Disk O.Sink disk.old out.old)
        (shown D.Disk O.Sink disk.new out.new) }
{
    let session = match read_session(alloc, disk) {
        Ok(session) => session,
        Err(why) => return ListOutcome::Refused(why),
    };
    match print_items(alloc, out, session.items()) {
        Ok(()) => ListOutcome::Done,
        Err(PrintFault::WriteFault) => ListOutcome::WriteFault,
        Err(PrintFault::NoMemory) => ListOutcome::NoMemory,
    }
}
