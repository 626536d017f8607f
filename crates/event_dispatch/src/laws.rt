// What holds of a dispatch by the definitions alone. This function does nothing: its clause is the law.
ghost use Rattle.std.specs.Prelude.{◌≡◌, List, Some, None, [], ◌∷◌, MatchOption};
ghost use Rattle.event_dispatch.specs.Listeners.{Listener};
ghost use Rattle.event_dispatch.specs.Dispatch.{Dispatch, calls_left, step};

/// The next call is the first of those that the lists in a row still have, and those behind it are
/// left then.
pub fn the_calls_are_those_of_the_lists()
    ensures { (ls : List Listener) (d : Dispatch) → MatchOption (step ls d).call
        (calls_left ls d ≡ [])
        (λ c. calls_left ls d ≡ c ∷ calls_left ls (step ls d).after) }
{}
