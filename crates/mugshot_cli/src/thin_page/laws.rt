// What the two runs of a page have to do with each other, by their definitions alone.
ghost use Rattle.std.specs.Prelude.{◌≡◌, ◌⊎◌, ℕ, ◌≤◌, List, [], ◌∷◌};
ghost use Rattle.arrival_file.specs.declared.arrival.Arrival.{Arrival};
ghost use Rattle.mugshot_cli.specs.Capturing.{CaptureIsReplayed};
ghost use Rattle.mugshot_cli.specs.ThinPage.Run.{from_inputs, plain};
ghost use Rattle.mugshot_cli.specs.declared.thin_page.reading.Statement.{Statement};

/// The run from the inputs that a run over arrivals consumed visits the same states, consumes the
/// same inputs and ends the same way. A thin page has one turn at most.
pub fn replay_is_the_plain_run()
    ensures { (budget : ℕ) (statements : List Statement) (arrivals : List Arrival) → 1 ≤ budget
        → (arrivals ≡ []) ⊎ ((arrival : Arrival) × (arrivals ≡ arrival ∷ []))
        → from_inputs budget statements
        (plain budget statements arrivals).inputs ≡ plain budget statements arrivals }
{}

/// The finished file of a capture recovers to its head and its inputs, and the run from these is
/// the recorded one: its replay is neither damaged nor does it diverge.
pub fn a_capture_is_replayed()
    ensures { CaptureIsReplayed }
{}
