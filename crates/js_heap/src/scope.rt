// Scopes.
ghost use Rattle.std.specs.Prelude.{◌≡◌, [], true, false, is_some, OnOk, OnErr};
ghost use Rattle.std.specs.Option.{option_copied};
ghost use Rattle.js_heap.specs.Names.{value_bound, with_binding};

use crate::ScopeId;
use js_table::Table;
use js_value::Value;
use mug_text::{JText, NoMemory};
use std::alloc::Global;
use std::marker::Model;

// A scope: the scope around it, and its names.
#[derive(Drop)]
pub(crate) struct Scope {
    pub(crate) parent: Option<ScopeId>,
    pub(crate) names: Names,
}

// The names of a scope with their values, in their order.
#[derive(Drop)]
pub(crate) struct Names {
    table: Table,
}

impl Model for Names {
    ghost use Rattle.std.specs.Prelude.{List};
    ghost use Rattle.js_heap.specs.Binding.{Binding};
    ghost use Rattle.js_heap.specs.Names.{bindings};

    ghost Value = { List Binding };

    ghost view = { λ n. bindings n.table };
}

impl Names {
    pub(crate) fn new(alloc: Global) -> Names
        ensures { result ≡ [] }
    {
        Names {
            table: Table::new(alloc),
        }
    }

    // The value of this name.
    pub(crate) fn get(&self, name: &[u16]) -> Option<&Value>
        ensures { option_copied result ≡ value_bound name.now self.now }
    {
        match self.table.get(name) {
            Some(property) => Some(&property.value),
            None => None,
        }
    }

    // Gives a value to the name, in its place or behind the others.
    pub(crate) fn put(&mut self, name: &JText, value: Value) -> Result<(), NoMemory>
        ensures ok { OnOk result (self.new ≡ with_binding name.now value self.old) }
        ensures err { OnErr result (self.new ≡ self.old) }
    {
        self.table.put(name, value, true)
    }

    // Gives another value to the name; false where it isn't there.
    pub(crate) fn replace(&mut self, name: &[u16], value: Value) -> bool
        ensures found { result ≡ is_some (value_bound name.now self.old) }
        ensures replaced { result ≡ true → self.new ≡ with_binding name.now value self.old }
        ensures unchanged { result ≡ false → self.new ≡ self.old }
    {
        self.table.replace(name, value)
    }
}
