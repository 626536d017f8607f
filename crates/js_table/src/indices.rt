// Names that are array indices.
ghost use Rattle.std.specs.Prelude.{◌≡◌, ◌<◌, IfSome};
ghost use Rattle.js_table.specs.Indices as spec;

use mug_text::{INDEX_END, JText};

/// The array index that the name spells (ECMA-262 edition 5.1, 15.4).
pub fn index_of(name: &JText) -> Option<u32>
    ensures index { result ≡ spec.index_of name.now }
    ensures small { IfSome result (λ n. n < INDEX_END) }
{
    name.index_of_key()
}

/// Whether the name is an index from `low` on, below `high`.
pub fn is_within(name: &JText, low: u32, high: u32) -> bool
    ensures { result ≡ spec.is_within low high name.now }
{
    match index_of(name) {
        Some(index) => low <= index && index < high,
        None => false,
    }
}
