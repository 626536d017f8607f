// Commits frames to a session file, each written and synced before its gate is opened.
ghost use Rattle.std.specs.Prelude.{◌≡◌, ◌≢◌, ◌⊎◌, ℕ, ◌+◌, ◌-◌, ◌*◌, ◌<◌, ◌≤◌, ◌^◌, [], ◌∷◌, ◌++◌, length, None, option_map, IfSome, IfOk, OnOk, OnErr, IsErrOf, true, false, vec_capacity};
ghost use Rattle.mug_outside.specs.Cause.{HasCause, Rose};
ghost use Rattle.mug_disk.specs.Held.{Lifted, over};
ghost use Rattle.log_frames.specs.Frames.{frame};
ghost use Rattle.session_store.specs.Keeping.{AddsFrame, HasGrown, IsInside, IsNew, IsSame, IsWithin, LeavesEither, file};
ghost use Rattle.session_store.specs.inner.Writes.{Leaves};

use mug_disk::Disk;
use mug_outside::Failed;
use mug_text::NoMemory;
use std::alloc::Global;
use std::marker::Model;
use thiserror::Error;

/// The most bytes of a session.
pub const SESSION_LIMIT: u64 = 4_294_967_296;

/// A disk counts moments up to this. What a call adds to a moment is said where no count comes to
/// it.
pub const MOMENT_END: u64 = u64::MAX;

/// A session that is being written, frame by frame.
#[derive(Debug, Drop)]
pub struct Store {
    place: u64,
    frames: u64,
    inputs: u64,
    moments: u64,
    stopped: bool,
    buffer: Vec<u8>,
}

impl Model for Store {
    ghost use Rattle.std.specs.Prelude.{◌≡◌, ◌+◌, ◌-◌, ◌*◌, ◌≤◌, vec_capacity};
    ghost use Rattle.session_store.specs.Keeping.{StoreState};
    ghost use Rattle.session_store.specs.declared.keeper.TheConstants.{SESSION_LIMIT};

    ghost Value = { StoreState };

    ghost view = { λ s. record {
      place = s.place;
      frames = s.frames;
      inputs = s.inputs;
      moments = s.moments;
      spare = vec_capacity s.buffer - 5;
      stopped = s.stopped;
    } };

    ghost invariant = { λ s. (9 ≤ s.place) × (s.place ≤ SESSION_LIMIT) × (5 * s.frames ≤ s.place)
        × (s.inputs ≤ s.place) × (s.moments ≤ 2 + 4 * s.frames) };
}

/// What a commit answers.
#[derive(Clone, Copy, Debug, PartialEq, Eq)]
pub struct Ack {
    /// The number of inputs in all frames.
    pub inputs: u64,
    /// The number of writes and syncs that this store has made.
    pub moment: u64,
}

/// Why a store did not do what it was asked for.
#[derive(Clone, Copy, Debug, PartialEq, Eq, Error)]
pub enum StoreFault {
    /// The disk has bytes already.
    #[error("session is not empty")]
    NotEmpty,
    /// The frame would pass the limit of a session.
    #[error("session is full")]
    Full,
    /// The disk failed.
    #[error("disk fault")]
    DiskFault,
    /// The disk failed at an earlier call of this store.
    #[error("stopped")]
    Stopped,
    #[error("out of memory")]
    NoMemory,
}

impl From<Failed> for StoreFault {
    ghost use Rattle.session_store.specs.declared.keeper.StoreFault.TheVariants.{DiskFault as disk_fault};

    ghost from_gives = { λ _ fault. fault ≡ disk_fault };

    fn from(_error: Failed) -> StoreFault {
        StoreFault::DiskFault
    }
}

impl From<NoMemory> for StoreFault {
    ghost use Rattle.session_store.specs.declared.keeper.StoreFault.TheVariants.{NoMemory as no_memory};

    ghost from_gives = { λ _ fault. fault ≡ no_memory };

    fn from(_error: NoMemory) -> StoreFault {
        StoreFault::NoMemory
    }
}

// The frame's bytes and the next gate, closed.
fn fill(buffer: &mut Vec<u8>, payload: &[u8]) -> Result<(), NoMemory>
    requires { length payload.now < 2 ^ 32 }
    ensures ok { OnOk result (buffer.new.items ≡ frame payload.now ++ 0 ∷ []) }
    ensures room { vec_capacity buffer.old ≤ vec_capacity buffer.new }
    ensures err { OnErr result (vec_capacity buffer.old < 5 + length payload.now) }
{
    buffer.clear();
    buffer.extend_from_slice(&(payload.len() as u32).to_be_bytes())?;
    buffer.extend_from_slice(payload)?;
    buffer.extend_from_slice(&[0])?;
    Ok(())
}

// A frame and the next gate, closed, and then its own gate, open: four calls of the disk.
fn write_frame<D: Disk>(disk: &mut D, place: u64, frame: &[u8]) -> Result<(), Failed>
    requires inside { IsWithin place (D.held disk.old) }
    requires after_gate { 1 ≤ place }
    ensures ok { OnOk result (D.held disk.new ≡ option_map
        (λ held. over (place - 1) (1 ∷ []) (over place frame.now held)) (D.held disk.old)) }
    ensures moment { OnOk result (D.moment disk.old + 4 < MOMENT_END
        → D.moment disk.new ≡ D.moment disk.old + 4) }
    ensures err_moment { OnErr result (D.moment disk.old + 4 < MOMENT_END
        → (D.moment disk.old < D.moment disk.new) × (D.moment disk.new ≤ D.moment disk.old + 4)) }
    ensures left { OnErr result
        (Lifted (Leaves place frame.now) (D.held disk.old) (D.held disk.new)) }
    ensures cause { HasCause (D.faults disk.old) (D.faults disk.new) result }
{
    disk.write_at(place, frame)?;
    disk.sync()?;
    disk.write_at(place - 1, &[1])?;
    disk.sync()
}

impl Store {
    /// Writes the header of a new session and syncs it.
    pub fn create<D: Disk>(alloc: Global, disk: &mut D) -> Result<Store, StoreFault>
        ensures made { IfOk result IsNew }
        ensures file { OnOk result (D.held disk.new ≡ option_map (λ _. file []) (D.held disk.old)) }
        ensures inside { IfOk result (λ store. IsWithin store.place (D.held disk.new)) }
        ensures empty { OnOk result (IfSome (D.held disk.old) (λ held. held ≡ [])) }
        ensures moment { OnOk result (D.moment disk.old + 2 < MOMENT_END
            → D.moment disk.new ≡ D.moment disk.old + 2) }

        ensures not_empty { IsErrOf result StoreFault.NotEmpty
            → IfSome (D.held disk.old) (λ held. 0 < length held)
            × (D.held disk.new ≡ D.held disk.old) × (D.moment disk.new ≡ D.moment disk.old) }
        ensures fault { IsErrOf result StoreFault.DiskFault
            → Rose (D.faults disk.old) (D.faults disk.new) }
        ensures fault_moment { IsErrOf result StoreFault.DiskFault
            → D.moment disk.old + 2 < MOMENT_END → (D.moment disk.old ≤ D.moment disk.new)
            × (D.moment disk.new ≤ D.moment disk.old + 2) }
        ensures only { OnErr result ((IsErrOf result StoreFault.Full → ⊥)
            × (IsErrOf result StoreFault.Stopped → ⊥) × (IsErrOf result StoreFault.NoMemory → ⊥)) }
        ensures later { D.faults disk.old ≤ D.faults disk.new }
    {
        let len = disk.len()?;
        if len != 0 {
            return Err(StoreFault::NotEmpty);
        }
        disk.write_at(0, b"MUGSHOT1\0")?;
        disk.sync()?;
        Ok(Store {
            place: 9,
            frames: 0,
            inputs: 0,
            moments: 2,
            stopped: false,
            buffer: Vec::new(alloc),
        })
    }

    /// The offset after the last gate.
    pub fn place(&self) -> u64
        ensures { result ≡ self.now.place }
    {
        self.place
    }

    /// The number of frames.
    pub fn frames(&self) -> u64
        ensures { result ≡ self.now.frames }
    {
        self.frames
    }

    /// The number of inputs in all frames.
    pub fn inputs(&self) -> u64
        ensures { result ≡ self.now.inputs }
    {
        self.inputs
    }

    /// The number of writes and syncs that this store has made.
    pub fn moments(&self) -> u64
        ensures { result ≡ self.now.moments }
    {
        self.moments
    }

    /// Whether the disk has failed.
    pub fn stopped(&self) -> bool
        ensures { result ≡ self.now.stopped }
    {
        self.stopped
    }

    /// How many bytes a payload may have so that its commit takes no memory.
    pub fn spare(&self) -> usize
        ensures { result ≡ self.now.spare }
    {
        self.buffer.capacity().saturating_sub(5)
    }

    /// Makes room, so that the commit of a payload of that many bytes takes no memory.
    pub fn reserve(&mut self, bytes: usize) -> Result<(), NoMemory>
        ensures room { OnOk result (bytes ≤ self.new.spare) }
        ensures grows { self.old.spare ≤ self.new.spare }
        ensures same { IsSame self.old self.new }
    {
        let Some(size) = bytes.checked_add(5) else {
            return Err(NoMemory);
        };
        self.buffer.clear();
        self.buffer.reserve(size)?;
        Ok(())
    }

    /// Adds a frame of this payload, in which there are n inputs: the frame is written and synced
    /// before its gate is opened. After a disk fault the store is stopped.
    pub fn commit<D: Disk>(
        &mut self,
        disk: &mut D,
        payload: &[u8],
        inputs: u64,
    ) -> Result<Ack, StoreFault>
        requires some { 0 < length payload.now }
        requires inputs_in { inputs ≤ length payload.now }
        requires inside { IsInside self.old (D.held disk.old) }
        ensures ack { IfOk result (λ ack. (ack.inputs ≡ self.old.inputs + inputs)
            × (ack.moment ≡ self.old.moments + 4)) }
        ensures counts { OnOk result (HasGrown (length payload.now) inputs self.old self.new) }
        ensures file { OnOk result
            (AddsFrame self.old.place payload.now (D.held disk.old) (D.held disk.new)) }
        ensures still_inside { OnOk result (IsWithin self.new.place (D.held disk.new)) }
        ensures untold { OnOk result (D.held disk.old ≡ None → D.held disk.new ≡ None) }
        ensures moment { OnOk result (D.moment disk.old + 4 < MOMENT_END
            → D.moment disk.new ≡ D.moment disk.old + 4) }
        ensures room { self.old.spare ≤ self.new.spare }

        ensures full { IsErrOf result StoreFault.Full
            → SESSION_LIMIT < self.old.place + 5 + length payload.now }
        ensures fits { SESSION_LIMIT < self.old.place + 5 + length payload.now
            → self.old.stopped ≡ false → IsErrOf result StoreFault.Full }
        ensures stopped { IsErrOf result StoreFault.Stopped → self.old.stopped ≡ true }
        ensures stays_stopped { self.old.stopped ≡ true → IsErrOf result StoreFault.Stopped }
        ensures fault { IsErrOf result StoreFault.DiskFault
            → Rose (D.faults disk.old) (D.faults disk.new) × (self.new.stopped ≡ true) }
        ensures fault_moment { IsErrOf result StoreFault.DiskFault
            → D.moment disk.old + 4 < MOMENT_END → (D.moment disk.old < D.moment disk.new)
            × (D.moment disk.new ≤ D.moment disk.old + 4) }
        ensures left { IsErrOf result StoreFault.DiskFault
            → LeavesEither self.old.place payload.now (D.held disk.old) (D.held disk.new) }
        ensures memory { IsErrOf result StoreFault.NoMemory → self.old.spare < length payload.now }
        ensures not_empty { IsErrOf result StoreFault.NotEmpty → ⊥ }

        // But for a fault of the disk, an error changes nothing.
        ensures nothing { OnErr result (IsErrOf result StoreFault.DiskFault
            ⊎ ((D.held disk.new ≡ D.held disk.old) × (D.moment disk.new ≡ D.moment disk.old)
            × (D.faults disk.new ≡ D.faults disk.old) × IsSame self.old self.new)) }
        ensures later { D.faults disk.old ≤ D.faults disk.new }
    {
        if self.stopped {
            return Err(StoreFault::Stopped);
        }
        let size = payload.len() as u64;
        if size > SESSION_LIMIT - 5 || self.place > SESSION_LIMIT - 5 - size {
            return Err(StoreFault::Full);
        }
        fill(&mut self.buffer, payload)?;
        if write_frame(disk, self.place, &self.buffer).is_err() {
            self.stopped = true;
            return Err(StoreFault::DiskFault);
        }
        self.place += 5 + size;
        self.frames += 1;
        self.inputs += inputs;
        self.moments += 4;
        Ok(Ack {
            inputs: self.inputs,
            moment: self.moments,
        })
    }
}
