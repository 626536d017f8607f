// An item of a session file.
ghost use Rattle.std.specs.Prelude.{◌≡◌};

use mug_text::{Bytes, JText, PAGE_LIMIT};
use page_inputs::PageInput;

/// The most page steps of a budget.
pub const STEPS_LIMIT: u64 = 1_000_000_000;

/// The bytes of the script that is put into a page before it is recorded.
pub const SCRIPT_SIZE: usize = 450;

/// The most bytes of a head's page: those of a page as given, and the script.
pub const HEAD_PAGE_LIMIT: usize = PAGE_LIMIT + SCRIPT_SIZE;

/// What a session file logs. Moments, clock readings and times are in milliseconds.
#[derive(Debug, Drop)]
pub enum LogItem {
    /// The page, the base of its addresses, and the budget in page steps.
    Head {
        base: JText,
        budget: u64,
        page: Bytes,
    },
    /// The page is loaded at this moment.
    Load {
        t: u64,
    },
    /// The clock was read, and gave this.
    Now {
        v: u64,
    },
    /// A random word was drawn.
    Rand {
        w: u32,
    },
}

/// The word by which an item is named in a list.
#[derive(Clone, Copy, Debug, PartialEq, Eq)]
pub enum Word {
    Head,
    Load,
    Now,
    Rand,
}

impl LogItem {
    ghost use Rattle.input_log.specs.Inputs.{item_of};
    ghost use Rattle.input_log.specs.Kinds.{is_head, is_input, word_of};

    /// The item that logs an input.
    pub fn of_input(input: &PageInput) -> LogItem
        ensures { result ≡ item_of input.now }
    {
        match input {
            PageInput::Load { t } => LogItem::Load { t: *t },
            PageInput::Now { v } => LogItem::Now { v: *v },
            PageInput::Rand { w } => LogItem::Rand { w: *w },
        }
    }

    /// Whether it is the item that a session begins with.
    pub fn is_head(&self) -> bool
        ensures { result ≡ is_head self.now }
    {
        match self {
            LogItem::Head {
                base: _,
                budget: _,
                page: _,
            } => true,
            _ => false,
        }
    }

    /// Whether it logs an input.
    pub fn is_input(&self) -> bool
        ensures { result ≡ is_input self.now }
    {
        match self {
            LogItem::Head {
                base: _,
                budget: _,
                page: _,
            } => false,
            _ => true,
        }
    }

    /// The word by which a list names it.
    pub fn word(&self) -> Word
        ensures { result ≡ word_of self.now }
    {
        match self {
            LogItem::Head {
                base: _,
                budget: _,
                page: _,
            } => Word::Head,
            LogItem::Load { t: _ } => Word::Load,
            LogItem::Now { v: _ } => Word::Now,
            LogItem::Rand { w: _ } => Word::Rand,
        }
    }
}
