// A source over a reader of the system.
ghost use Rattle.std.specs.Prelude.{◌≡◌, ◌≤◌, length, None, true, false, IfOk, IfSome, OnOk, OnErr};
ghost use Rattle.mug_outside.specs.Cause.{HasCause, counted};

use crate::{Failed, Source};
use std::io::{ErrorKind, Read};
use std::marker::Model;

/// Reads from a reader of the system, or always fails where there is none.
#[derive(Drop)]
pub struct StdSource<R> {
    reader: Option<R>,
    faults: u64,
}

impl<R> Model for StdSource<R> {
    ghost use Rattle.std.specs.Prelude.{is_some};
    ghost use Rattle.mug_outside.specs.StdState.{StdState};

    ghost Value = { StdState };

    ghost view = { λ s. record { is_open = is_some s.reader; faults = s.faults } };
}

impl<R> StdSource<R> {
    pub fn new(reader: R) -> StdSource<R>
        ensures { result ≡ record { is_open = true; faults = 0 } }
    {
        StdSource {
            reader: Some(reader),
            faults: 0,
        }
    }

    /// For a file that could not be opened: each call fails.
    pub fn missing() -> StdSource<R>
        ensures { result ≡ record { is_open = false; faults = 0 } }
    {
        StdSource {
            reader: None,
            faults: 0,
        }
    }
}

/// Reads until `into` is full or the input ends. `None` is a failure.
fn fill<R: Read>(reader: &mut R, into: &mut [u8]) -> Option<usize>
    ensures { IfSome result (λ n. n ≤ length into.new) }
{
    let mut at = 0;
    for _ in 0..u64::MAX {
        if at == into.len() {
            return Some(at);
        }
        match reader.read(&mut into[at..]) {
            Ok(0) => return Some(at),
            Ok(n) => at += n,
            Err(error) => {
                if error.kind() != ErrorKind::Interrupted {
                    return None;
                }
            }
        }
    }
    None
}

impl<R: Read + Drop> Source for StdSource<R> {
    ghost left = { λ s. None };

    ghost faults = { λ s. s.faults };

    /// Fills `into`, or reads to the end of the input. What a failed call read before it failed is
    /// lost.
    fn read(&mut self, into: &mut [u8]) -> Result<usize, Failed>
        ensures size { IfOk result (λ n. n ≤ length into.new) }
        ensures cause { HasCause self.old.faults self.new.faults result }

        ensures open { OnOk result (self.old.is_open ≡ true) }
        ensures same { self.new.is_open ≡ self.old.is_open }
        ensures fault { OnErr result (self.new.faults ≡ counted self.old.faults) }
        ensures no_fault { OnOk result (self.new.faults ≡ self.old.faults) }
    {
        if let Some(reader) = &mut self.reader {
            if let Some(n) = fill(reader, into) {
                return Ok(n);
            }
        }
        self.faults = self.faults.saturating_add(1);
        Err(Failed)
    }
}
