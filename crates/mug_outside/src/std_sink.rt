// A sink over a writer of the system.
ghost use Rattle.std.specs.Prelude.{◌≡◌, ◌≤◌, ◌<◌, length, None, true, false, IfOk, OnOk, OnErr};
ghost use Rattle.mug_outside.specs.Cause.{HasCause, counted};

use crate::{Failed, Sink};
use std::io;
use std::io::Write;
use std::marker::Model;

/// Writes to a writer of the system, or always fails where there is none.
#[derive(Drop)]
pub struct StdSink<W> {
    writer: Option<W>,
    faults: u64,
}

impl<W> Model for StdSink<W> {
    ghost use Rattle.std.specs.Prelude.{is_some};
    ghost use Rattle.mug_outside.specs.StdState.{StdState};

    ghost Value = { StdState };

    ghost view = { λ s. record { is_open = is_some s.writer; faults = s.faults } };
}

impl<W> StdSink<W> {
    pub fn new(writer: W) -> StdSink<W>
        ensures { result ≡ record { is_open = true; faults = 0 } }
    {
        StdSink {
            writer: Some(writer),
            faults: 0,
        }
    }

    /// For a file that could not be opened: each call fails.
    pub fn missing() -> StdSink<W>
        ensures { result ≡ record { is_open = false; faults = 0 } }
    {
        StdSink {
            writer: None,
            faults: 0,
        }
    }
}

fn put<W: Write>(writer: &mut W, bytes: &[u8]) -> io::Result<()> {
    writer.write_all(bytes)?;
    writer.flush()
}

impl<W: Write + Drop> Sink for StdSink<W> {
    ghost taken = { λ s. None };

    ghost faults = { λ s. s.faults };

    /// Writes and flushes all the bytes. What a failed call wrote before it failed is not told.
    fn write(&mut self, bytes: &[u8]) -> Result<usize, Failed>
        ensures size { IfOk result (λ n. n ≤ length bytes.now) }
        ensures some { IfOk result (λ n. 0 < length bytes.now → 0 < n) }
        ensures cause { HasCause self.old.faults self.new.faults result }

        ensures all { IfOk result (λ n. n ≡ length bytes.now) }
        ensures open { OnOk result (self.old.is_open ≡ true) }
        ensures same { self.new.is_open ≡ self.old.is_open }
        ensures fault { OnErr result (self.new.faults ≡ counted self.old.faults) }
        ensures no_fault { OnOk result (self.new.faults ≡ self.old.faults) }
    {
        if let Some(writer) = &mut self.writer {
            if put(writer, bytes).is_ok() {
                return Ok(bytes.len());
            }
        }
        self.faults = self.faults.saturating_add(1);
        Err(Failed)
    }
}
