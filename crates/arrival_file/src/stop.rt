// Why a line is not read.
ghost use Rattle.std.specs.Prelude.{◌≡◌};
ghost use Rattle.arrival_file.specs.Lines.{fault_at};
ghost use Rattle.arrival_file.specs.declared.arrival.ArrivalFault.TheVariants as arrival_fault;
ghost use Rattle.arrival_file.specs.declared.stop.Stop.TheVariants as stop;

use crate::{ArrivalFault, ArrivalKind};
use mug_text::NoMemory;

#[derive(Clone, Copy)]
pub enum Stop {
    Breaks(ArrivalKind),
    NotBuilt,
    NoMemory,
}

impl From<NoMemory> for Stop {
    ghost from_gives = { λ _ given. given ≡ stop.NoMemory };

    fn from(_error: NoMemory) -> Stop {
        Stop::NoMemory
    }
}

impl From<NoMemory> for ArrivalFault {
    ghost from_gives = { λ _ given. given ≡ arrival_fault.NoMemory };

    fn from(_error: NoMemory) -> ArrivalFault {
        ArrivalFault::NoMemory
    }
}

// The fault that this is at the line of a number.
pub fn at_line(stop: Stop, line: u64) -> ArrivalFault
    ensures { result ≡ fault_at stop line }
{
    match stop {
        Stop::Breaks(kind) => ArrivalFault::Line { line, kind },
        Stop::NotBuilt => ArrivalFault::NotBuilt { line },
        Stop::NoMemory => ArrivalFault::NoMemory,
    }
}
