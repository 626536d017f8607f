// Where code runs.
use js_heap::ScopeId;
use js_value::Value;

/// An execution context (ECMA-262 edition 5.1, 10.3): the text whose code runs, by its number in
/// the order in which texts were read; the scope in which its names are looked up, none at the top
/// of a text; and `this`.
#[derive(Debug, Drop)]
pub struct Context {
    pub text: u32,
    pub scope: Option<ScopeId>,
    pub this: Value,
}
