// What a command came to.
ghost use Rattle.std.specs.Prelude.{◌≡◌};
ghost use Rattle.mugshot_cli.specs.Outcome.{code_of, of_capture, of_fault, of_file, of_list};
ghost use Rattle.mugshot_cli.specs.Outcome.{of_page, of_refusal, of_replay, of_run, status_of};

use crate::capturing::CaptureOutcome;
use crate::listing::ListOutcome;
use crate::replaying::ReplayOutcome;
use crate::session::SessionRefusal;
use crate::sources::{ArrivalsRefusal, PageRefusal};
use crate::thin_page::end::Want;
use crate::thin_page::recording::RunOutcome;
use arrival_file::ArrivalKind;
use capture_engine::CaptureFault;
use input_log::Word;

/// What a command came to, with what its line says.
#[derive(Clone, Copy, Debug, PartialEq, Eq)]
pub enum Outcome {
    Done,
    Usage,
    PageTooLarge,
    /// With the place of the first bad byte.
    PageNotUtf8 {
        at: u64,
    },
    BadArrivals {
        line: u64,
        kind: ArrivalKind,
    },
    /// With the number of the budget's page steps.
    Budget {
        steps: u64,
    },
    NotEmpty,
    NotASession,
    /// With the offset of the length of the first frame that doesn't read.
    Damaged {
        at: u64,
    },
    /// With the number of the item, from 0.
    Diverged {
        entry: u64,
        wanted: Want,
        found: Word,
    },
    Full,
    ReadFault,
    NotBuilt,
    DiskFault,
    WriteFault,
    NoMemory,
}

/// How the program ends.
#[derive(Clone, Copy, Debug, PartialEq, Eq)]
pub enum Status {
    /// All was read, run and written.
    Done,
    /// The words are no command.
    Usage,
    /// The page is too large, or isn't UTF-8.
    BadPage,
    /// A line of the arrival file breaks a rule.
    BadArrivals,
    Reserved,
    /// The run has the budget's steps and isn't finished.
    Budget,
    /// The session has bytes already.
    NotEmpty,
    /// The file has no whole header.
    NotASession,
    /// A frame of the session doesn't read.
    Damaged,
    NoSuchStep,
    /// The run over a session's items wants another item.
    Diverged,
    /// The next frame would pass the limit of a session.
    Full,
    /// The page or the arrival file failed.
    ReadFault,
    /// The disk failed.
    DiskFault,
    /// The output failed.
    WriteFault,
    NoMemory,
    /// The file has what this version doesn't read yet.
    NotBuilt,
}

impl Outcome {
    pub fn status(self) -> Status
        ensures { result ≡ status_of self }
    {
        match self {
            Outcome::Done => Status::Done,
            Outcome::Usage => Status::Usage,
            Outcome::PageTooLarge => Status::BadPage,
            Outcome::PageNotUtf8 { at: _ } => Status::BadPage,
            Outcome::BadArrivals { line: _, kind: _ } => Status::BadArrivals,
            Outcome::Budget { steps: _ } => Status::Budget,
            Outcome::NotEmpty => Status::NotEmpty,
            Outcome::NotASession => Status::NotASession,
            Outcome::Damaged { at: _ } => Status::Damaged,
            Outcome::Diverged {
                entry: _,
                wanted: _,
                found: _,
            } => Status::Diverged,
            Outcome::Full => Status::Full,
            Outcome::ReadFault => Status::ReadFault,
            Outcome::NotBuilt => Status::NotBuilt,
            Outcome::DiskFault => Status::DiskFault,
            Outcome::WriteFault => Status::WriteFault,
            Outcome::NoMemory => Status::NoMemory,
        }
    }
}

impl Status {
    /// The number with which the program ends.
    pub fn code(&self) -> u8
        ensures { result ≡ code_of self.now }
    {
        match self {
            Status::Done => 0,
            Status::Usage => 2,
            Status::BadPage => 3,
            Status::BadArrivals => 4,
            Status::Reserved => 5,
            Status::Budget => 6,
            Status::NotEmpty => 7,
            Status::NotASession => 8,
            Status::Damaged => 9,
            Status::NoSuchStep => 10,
            Status::Diverged => 11,
            Status::Full => 12,
            Status::ReadFault => 20,
            Status::DiskFault => 21,
            Status::WriteFault => 22,
            Status::NoMemory => 30,
            Status::NotBuilt => 40,
        }
    }
}

fn of_refusal(why: SessionRefusal) -> Outcome
    ensures { result ≡ of_refusal why }
{
    match why {
        SessionRefusal::NotASession => Outcome::NotASession,
        SessionRefusal::Damaged { at } => Outcome::Damaged { at },
        SessionRefusal::NotBuilt => Outcome::NotBuilt,
        SessionRefusal::DiskFault => Outcome::DiskFault,
        SessionRefusal::NoMemory => Outcome::NoMemory,
    }
}

/// What `list` came to.
pub fn of_list(outcome: ListOutcome) -> Outcome
    ensures { result ≡ of_list outcome }
{
    match outcome {
        ListOutcome::Done => Outcome::Done,
        ListOutcome::Refused(why) => of_refusal(why),
        ListOutcome::WriteFault => Outcome::WriteFault,
        ListOutcome::NoMemory => Outcome::NoMemory,
    }
}

/// What `replay` came to.
pub fn of_replay(outcome: ReplayOutcome) -> Outcome
    ensures { result ≡ of_replay outcome }
{
    match outcome {
        ReplayOutcome::Done => Outcome::Done,
        ReplayOutcome::Budget { steps } => Outcome::Budget { steps },
        ReplayOutcome::Diverged {
            entry,
            wanted,
            found,
        } => Outcome::Diverged {
            entry,
            wanted,
            found,
        },
        ReplayOutcome::Refused(why) => of_refusal(why),
        ReplayOutcome::Headless => Outcome::NotASession,
        ReplayOutcome::OtherPage => Outcome::NotBuilt,
        ReplayOutcome::WriteFault => Outcome::WriteFault,
        ReplayOutcome::NoMemory => Outcome::NoMemory,
    }
}

fn of_page(why: PageRefusal) -> Outcome
    ensures { result ≡ of_page why }
{
    match why {
        PageRefusal::ReadFault => Outcome::ReadFault,
        PageRefusal::TooLarge => Outcome::PageTooLarge,
        PageRefusal::NotUtf8 { at } => Outcome::PageNotUtf8 { at },
        PageRefusal::NotBuilt => Outcome::NotBuilt,
        PageRefusal::NoMemory => Outcome::NoMemory,
    }
}

fn of_file(why: ArrivalsRefusal) -> Outcome
    ensures { result ≡ of_file why }
{
    match why {
        ArrivalsRefusal::ReadFault => Outcome::ReadFault,
        ArrivalsRefusal::Line { line, kind } => Outcome::BadArrivals { line, kind },
        ArrivalsRefusal::NotBuilt => Outcome::NotBuilt,
        ArrivalsRefusal::NoMemory => Outcome::NoMemory,
    }
}

fn of_fault(fault: CaptureFault) -> Outcome
    ensures { result ≡ of_fault fault }
{
    match fault {
        CaptureFault::NotEmpty => Outcome::NotEmpty,
        CaptureFault::Full => Outcome::Full,
        CaptureFault::DiskFault => Outcome::DiskFault,
        CaptureFault::WriteFault => Outcome::WriteFault,
        CaptureFault::NoMemory => Outcome::NoMemory,
    }
}

fn of_run(outcome: RunOutcome) -> Outcome
    ensures { result ≡ of_run outcome }
{
    match outcome {
        RunOutcome::Done => Outcome::Done,
        RunOutcome::Budget { steps } => Outcome::Budget { steps },
        RunOutcome::Halted(fault) => of_fault(fault),
    }
}

/// What `capture` came to.
pub fn of_capture(outcome: CaptureOutcome) -> Outcome
    ensures { result ≡ of_capture outcome }
{
    match outcome {
        CaptureOutcome::NotEmpty => Outcome::NotEmpty,
        CaptureOutcome::DiskFault => Outcome::DiskFault,
        CaptureOutcome::NoMemory => Outcome::NoMemory,
        CaptureOutcome::Page(why) => of_page(why),
        CaptureOutcome::Arrivals(why) => of_file(why),
        CaptureOutcome::Ran(outcome) => of_run(outcome),
    }
}
