// How a statement ends that doesn't go on to the next one.
ghost use Rattle.std.specs.Prelude.{◌≡◌, IfOk};

use js_value::Value;
use mug_text::{JText, NoMemory};

/// An abrupt completion (ECMA-262 edition 5.1, 8.9). The text is a label.
#[derive(Debug, Drop)]
pub enum Completion {
    Break(Option<JText>),
    Continue(Option<JText>),
    Return(Value),
    Throw(Value),
}

// An equal label, where there is one.
fn copied(label: &Option<JText>) -> Result<Option<JText>, NoMemory>
    ensures { IfOk result (λ l. l ≡ label.now) }
{
    match label {
        Some(text) => Ok(Some(text.copy()?)),
        None => Ok(None),
    }
}

impl Completion {
    /// An equal completion; texts share their units.
    pub fn copy(&self) -> Result<Completion, NoMemory>
        ensures { IfOk result (λ c. c ≡ self.now) }
    {
        match self {
            Completion::Break(label) => Ok(Completion::Break(copied(label)?)),
            Completion::Continue(label) => Ok(Completion::Continue(copied(label)?)),
            Completion::Return(value) => Ok(Completion::Return(value.copy()?)),
            Completion::Throw(value) => Ok(Completion::Throw(value.copy()?)),
        }
    }
}
