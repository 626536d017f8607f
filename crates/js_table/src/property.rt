// Properties.
use js_value::Value;
use mug_text::JText;

/// A property of an object's own.
#[derive(Debug, Drop)]
pub struct Property {
    pub name: JText,
    pub value: Value,
    /// Whether for-in goes through it.
    pub listed: bool,
}
