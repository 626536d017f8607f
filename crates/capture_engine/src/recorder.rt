// Puts items into frames, commits the frames, and says so.
ghost use Rattle.std.specs.Prelude.{◌≡◌, ◌≢◌, ◌≤◌, ℕ, List, [], Option, IfErr, IfOk, OnOk};
ghost use Rattle.input_log.specs.Items.{IsItem};
ghost use Rattle.input_log.specs.declared.item.LogItem.{LogItem};
ghost use Rattle.session_store.specs.Keeping.{IsSame};
ghost use Rattle.session_store.specs.Session.{payload_of};
ghost use Rattle.capture_engine.specs.Acks.{ack_line};
ghost use Rattle.capture_engine.specs.Outside.{seen, shown};
ghost use Rattle.capture_engine.specs.Recording.{Committed, EndHalts, EndsTurn, IsRunning, LogHalts, Logs, StartHalts, Starts, Unmade};
ghost use Rattle.capture_engine.specs.inner.Grouping.{ends_before};
ghost use Rattle.capture_engine.specs.inner.Steps.{CommitStops, Commits, IsSameFault, MakesRoom, Puts, RoomStops};

use crate::Line;
use input_log::{LogItem, encode, encoded_len};
use mug_disk::Disk;
use mug_outside::{Sink, WriteFault};
use mug_text::NoMemory;
use session_store::{Ack, Store, StoreFault};
use std::alloc::Global;
use std::marker::Model;
use thiserror::Error;

/// The most bytes of a payload of several items.
pub const PAYLOAD_LIMIT: usize = 1 << 20;

/// The latest moment of a disk from which a recording counts on, whatever it does.
pub const EARLY_MOMENT: u64 = 1 << 63;

/// Why a recording stopped.
#[derive(Clone, Copy, Debug, PartialEq, Eq, Error)]
pub enum CaptureFault {
    /// The disk has bytes already: no session was made.
    #[error("session is not empty")]
    NotEmpty,
    /// The next frame would pass the limit of a session.
    #[error("session is full")]
    Full,
    /// The disk failed.
    #[error("disk fault")]
    DiskFault,
    /// The output failed.
    #[error("write fault")]
    WriteFault,
    #[error("out of memory")]
    NoMemory,
}

impl From<NoMemory> for CaptureFault {
    ghost use Rattle.capture_engine.specs.declared.recorder.CaptureFault.TheVariants.{NoMemory as no_memory};

    ghost from_gives = { λ _ fault. fault ≡ no_memory };

    fn from(_error: NoMemory) -> CaptureFault {
        CaptureFault::NoMemory
    }
}

impl From<WriteFault> for CaptureFault {
    ghost use Rattle.capture_engine.specs.declared.recorder.CaptureFault.TheVariants.{WriteFault as write_fault};

    ghost from_gives = { λ _ fault. fault ≡ write_fault };

    fn from(_error: WriteFault) -> CaptureFault {
        CaptureFault::WriteFault
    }
}

// The same fault of a recording: the store of one that goes on isn't stopped.
fn of_store(fault: StoreFault) -> CaptureFault
    requires { fault ≢ StoreFault.Stopped }
    ensures { IsSameFault fault result }
{
    match fault {
        StoreFault::NotEmpty => CaptureFault::NotEmpty,
        StoreFault::Full => CaptureFault::Full,
        StoreFault::DiskFault => CaptureFault::DiskFault,
        StoreFault::NoMemory => CaptureFault::NoMemory,
        StoreFault::Stopped => unreachable!(),
    }
}

/// A session that is being written, and its open frame. After a call that failed no other is made.
#[derive(Drop)]
pub struct Recorder {
    store: Store,
    payload: Vec<u8>,
    inputs: u64,
}

impl Model for Recorder {
    ghost use Rattle.std.specs.Prelude.{◌≤◌, length};
    ghost use Rattle.capture_engine.specs.Recording.{RecorderState};

    ghost Value = { RecorderState };

    ghost view = { λ r. record { store = r.store; payload = r.payload.items; inputs = r.inputs } };

    ghost invariant = { λ r. r.inputs ≤ length r.payload.items };
}

// `ack N M`
fn ack_line(ack: Ack) -> Line
    ensures { result ≡ ack_line ack.inputs ack.moment }
{
    let mut line = Line::new();
    line.push(b"ack ");
    line.push_number(ack.inputs);
    line.push(b" ");
    line.push_number(ack.moment);
    line.push(b"\n");
    line
}

// A recording to a store without frames, whose commits of up to `PAYLOAD_LIMIT` bytes take no
// memory.
fn over(alloc: Global, store: Store) -> Result<Recorder, NoMemory>
    ensures same { IfOk result (λ recorder. IsSame store recorder.store) }
    ensures none { IfOk result (λ recorder. (recorder.payload ≡ []) × (recorder.inputs ≡ 0)) }
{
    let mut store = store;
    store.reserve(PAYLOAD_LIMIT)?;
    Ok(Recorder {
        store,
        payload: Vec::new(alloc),
        inputs: 0,
    })
}

// A session without frames on an empty disk.
fn create<D: Disk>(alloc: Global, disk: &mut D) -> Result<Recorder, CaptureFault>
    ensures made { IfOk result (λ recorder. (taken : Option (List ℕ)) (faults out out' : ℕ)
        → faults ≤ D.faults disk.old → out ≤ out'
        → Committed (seen (D.held disk.old) (D.moment disk.old) taken faults out)
        (seen (D.held disk.new) (D.moment disk.new) taken (D.faults disk.new) out')
        [] [] recorder) }
    ensures running { IfOk result (λ recorder. IsRunning recorder (D.held disk.new)) }
    ensures unmade { IfErr result (λ fault. (taken : Option (List ℕ)) (faults out out' : ℕ)
        → faults ≤ D.faults disk.old
        → Unmade fault (seen (D.held disk.old) (D.moment disk.old) taken faults out)
        (seen (D.held disk.new) (D.moment disk.new) taken (D.faults disk.new) out')) }
{
    let store = match Store::create(alloc, disk) {
        Ok(store) => store,
        Err(fault) => return Err(of_store(fault)),
    };
    let recorder = over(alloc, store)?;
    Ok(recorder)
}

impl Recorder {
    /// Creates a session on an empty disk, commits its head alone and writes the line of that
    /// frame.
    pub fn start<D: Disk, O: Sink>(
        alloc: Global,
        head: &LogItem,
        disk: &mut D,
        out: &mut O,
    ) -> Result<Recorder, CaptureFault>
        requires { IsItem head.now }
        ensures started { IfOk result (λ recorder. Starts head.now
            (shown D.Disk O.Sink disk.old out.old) (shown D.Disk O.Sink disk.new out.new)
            recorder) }
        ensures running { IfOk result (λ recorder. IsRunning recorder (D.held disk.new)) }
        ensures halted { IfErr result (λ fault. StartHalts head.now fault
            (shown D.Disk O.Sink disk.old out.old) (shown D.Disk O.Sink disk.new out.new)) }
    {
        let mut recorder = create(alloc, disk)?;
        recorder.put(head)?;
        recorder.flush(disk, out)?;
        Ok(recorder)
    }

    // Whether the open frame ends before this item.
    fn ends_before(&self, item: &LogItem) -> bool
        requires { IsItem item.now }
        ensures { (current : List LogItem) → self.now.payload ≡ payload_of current
            → result ≡ ends_before current item.now }
    {
        !self.payload.is_empty() && self.payload.len() + encoded_len(item) > PAYLOAD_LIMIT
    }

    // Puts an item into the open frame.
    fn put(&mut self, item: &LogItem) -> Result<(), CaptureFault>
        requires { IsItem item.now }
        ensures puts { OnOk result (Puts item.now self.old self.new) }
        ensures store { self.new.store ≡ self.old.store }
        ensures starved { IfErr result (λ fault. fault ≡ CaptureFault.NoMemory) }
    {
        encode(item, &mut self.payload)?;
        if item.is_input() {
            self.inputs += 1;
        }
        Ok(())
    }

    // Commits the open frame, where it has items, and writes its line.
    fn flush<D: Disk, O: Sink>(&mut self, disk: &mut D, out: &mut O) -> Result<(), CaptureFault>
        requires { IsRunning self.old (D.held disk.old) }
        ensures commits { OnOk result (Commits (shown D.Disk O.Sink disk.old out.old)
            (shown D.Disk O.Sink disk.new out.new) self.old self.new) }
        ensures stops { IfErr result (λ fault. CommitStops fault
            (shown D.Disk O.Sink disk.old out.old) (shown D.Disk O.Sink disk.new out.new)
            self.old) }
        ensures running { OnOk result (IsRunning self.new (D.held disk.new)) }
    {
        if self.payload.is_empty() {
            return Ok(());
        }
        let ack = match self.store.commit(disk, &self.payload, self.inputs) {
            Ok(ack) => ack,
            Err(fault) => return Err(of_store(fault)),
        };
        self.payload.clear();
        self.inputs = 0;
        ack_line(ack).write(out)?;
        Ok(())
    }

    // Commits the open frame where it ends before this item.
    fn make_room<D: Disk, O: Sink>(
        &mut self,
        disk: &mut D,
        out: &mut O,
        item: &LogItem,
    ) -> Result<(), CaptureFault>
        requires running { IsRunning self.old (D.held disk.old) }
        requires valid { IsItem item.now }
        ensures makes { OnOk result (MakesRoom item.now (shown D.Disk O.Sink disk.old out.old)
            (shown D.Disk O.Sink disk.new out.new) self.old self.new) }
        ensures stops { IfErr result (λ fault. RoomStops item.now fault
            (shown D.Disk O.Sink disk.old out.old) (shown D.Disk O.Sink disk.new out.new)
            self.old) }
        ensures running { OnOk result (IsRunning self.new (D.held disk.new)) }
    {
        if !self.ends_before(item) {
            return Ok(());
        }
        self.flush(disk, out)?;
        Ok(())
    }

    /// Logs an item in the turn that runs; the open frame is committed first where it ends before
    /// the item.
    pub fn log<D: Disk, O: Sink>(
        &mut self,
        disk: &mut D,
        out: &mut O,
        item: &LogItem,
    ) -> Result<(), CaptureFault>
        requires running { IsRunning self.old (D.held disk.old) }
        requires valid { IsItem item.now }
        ensures logs { OnOk result (Logs item.now (shown D.Disk O.Sink disk.old out.old)
            (shown D.Disk O.Sink disk.new out.new) self.old self.new) }
        ensures halts { IfErr result (λ fault. LogHalts item.now fault
            (shown D.Disk O.Sink disk.old out.old) (shown D.Disk O.Sink disk.new out.new)
            self.old) }
        ensures running { OnOk result (IsRunning self.new (D.held disk.new)) }
    {
        self.make_room(disk, out, item)?;
        self.put(item)?;
        Ok(())
    }

    /// Ends the turn that runs, or what there is of it where the run is over: commits the open
    /// frame, where it has items, and writes its line.
    pub fn end_turn<D: Disk, O: Sink>(
        &mut self,
        disk: &mut D,
        out: &mut O,
    ) -> Result<(), CaptureFault>
        requires { IsRunning self.old (D.held disk.old) }
        ensures ends { OnOk result (EndsTurn (shown D.Disk O.Sink disk.old out.old)
            (shown D.Disk O.Sink disk.new out.new) self.old self.new) }
        ensures halts { IfErr result (λ fault. EndHalts fault
            (shown D.Disk O.Sink disk.old out.old) (shown D.Disk O.Sink disk.new out.new)
            self.old) }
        ensures running { OnOk result (IsRunning self.new (D.held disk.new)) }
    {
        self.flush(disk, out)?;
        Ok(())
    }

    /// The number of frames that were committed.
    pub fn frames(&self) -> u64
        ensures { result ≡ self.now.store.frames }
    {
        self.store.frames()
    }

    /// The number of inputs in them.
    pub fn inputs(&self) -> u64
        ensures { result ≡ self.now.store.inputs }
    {
        self.store.inputs()
    }
}
