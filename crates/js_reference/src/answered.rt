// What an operation comes to.
use js_value::Value;

/// An operation gives a value or throws one.
#[derive(Debug, Drop)]
pub enum Answered {
    Returns(Value),
    Throws(Value),
}
