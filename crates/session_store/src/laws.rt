// What recovery finds, by its definition alone.
ghost use Rattle.std.specs.Prelude.{◌≡◌, ◌≢◌, ℕ, ◌<◌, ◌^◌, List, length, All};
ghost use Rattle.input_log.specs.declared.item.LogItem.{LogItem};
ghost use Rattle.session_store.specs.Keeping.{session};
ghost use Rattle.session_store.specs.Session.{IsLog, items_of, payload_of};
ghost use Rattle.session_store.specs.Recovery.{Found, Recovers, Whole, place_after};

/// In the same bytes recovery finds one thing.
pub fn recovery_is_one()
    ensures { (bytes : List ℕ) (a b : Found) → Recovers bytes a → Recovers bytes b → a ≡ b }
{}

/// Frames that read, in front of a closed gate, are recovered, whatever stands after that gate.
pub fn logs_are_recovered()
    ensures { (frames : List (List LogItem)) (gate : ℕ) (rest : List ℕ) → IsLog frames
        → All (λ items. length (payload_of items) < 2 ^ 32) frames → gate ≢ 1
        → Recovers (session frames gate rest) (Whole (items_of frames) (place_after frames)) }
{}
