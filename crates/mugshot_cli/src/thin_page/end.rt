// How a run ends.
use input_log::Word;

/// How a run over arrivals ends.
#[derive(Clone, Copy, Debug, PartialEq, Eq)]
pub enum PlainEnd {
    /// No turn runs, and no arrival is left.
    Finished,
    /// The budget's steps were made, and the run isn't finished.
    Budget,
}

/// How a run over inputs ends.
#[derive(Clone, Copy, Debug, PartialEq, Eq)]
pub enum End {
    /// No turn runs, and nothing is left that would begin one.
    Finished,
    /// The budget's steps were made, and the run isn't finished.
    Budget,
    /// A turn asks, and no input is left.
    Cut,
    /// The run wants another input than the one it finds.
    Diverged { wanted: Want, found: Word },
}

/// What a run wants.
#[derive(Clone, Copy, Debug, PartialEq, Eq)]
pub enum Want {
    /// The first turn.
    Load,
    /// A later turn.
    Turn,
    /// A reading of the clock.
    Now,
    /// A random word.
    Rand,
}
