// Walks through elements.
use js_value::Value;

/// What a walk keeps: the object, how many indices it goes through, the function that it calls,
/// with which `this`, and what it gives where no element comes any more.
#[derive(Debug, Drop)]
pub struct Walk {
    pub object: Value,
    pub length: u32,
    pub function: Value,
    pub this: Value,
    pub result: Value,
}
