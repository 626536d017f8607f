// An input of a page.
ghost use Rattle.std.specs.Prelude.{◌≡◌};
ghost use Rattle.page_inputs.specs.Inputs.{begins_turn};

/// What a page is given while it runs: a turn, or the answer to a question of the turn that runs.
/// Moments and readings of the clock are in milliseconds, and below `SAFE_END`.
#[derive(Debug, Drop)]
pub enum PageInput {
    /// A turn: the page is loaded at this moment.
    Load { t: u64 },
    /// The clock was read, and gave this.
    Now { v: u64 },
    /// A random word was drawn.
    Rand { w: u32 },
}

impl PageInput {
    /// Whether it begins a turn.
    pub fn begins_turn(&self) -> bool
        ensures { result ≡ begins_turn self.now }
    {
        match self {
            PageInput::Load { t: _ } => true,
            PageInput::Now { v: _ } | PageInput::Rand { w: _ } => false,
        }
    }
}
