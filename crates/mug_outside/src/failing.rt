// The calls of an object in memory that are to fail.
ghost use Rattle.std.specs.Prelude.{◌≡◌, [], IfOk, IsTrue, ◌↔◌};
ghost use Rattle.mug_outside.specs.Schedule.{IsDue, next};

use mug_text::NoMemory;
use std::alloc::Global;
use std::marker::Model;

/// Counts the calls of an object in memory, and knows which of them are to fail.
#[derive(Debug, Drop)]
pub struct Failing {
    listed: Vec<u64>,
    calls: u64,
}

impl Model for Failing {
    ghost use Rattle.mug_outside.specs.Schedule.{Schedule};

    ghost Value = { Schedule };

    ghost view = { λ f. record { listed = f.listed.items; calls = f.calls } };
}

impl Failing {
    /// No call is to fail.
    pub fn none(alloc: Global) -> Failing
        ensures { result ≡ record { listed = []; calls = 0 } }
    {
        Failing {
            listed: Vec::new(alloc),
            calls: 0,
        }
    }

    /// The calls of these numbers are to fail, counted from 1.
    pub fn listed(alloc: Global, calls: &[u64]) -> Result<Failing, NoMemory>
        ensures { IfOk result (λ made. made ≡ record { listed = calls.now; calls = 0 }) }
    {
        let listed = calls.to_vec(alloc)?;
        Ok(Failing { listed, calls: 0 })
    }

    /// Counts a call, and tells whether it is to fail.
    pub fn next_fails(&mut self) -> bool
        ensures counted { self.new ≡ next self.old }
        ensures fails { IsTrue result ↔ IsDue self.old }
    {
        self.calls = self.calls.saturating_add(1);
        self.listed.contains(&self.calls)
    }
}
