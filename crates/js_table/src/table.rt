// Tables of properties.
ghost use Rattle.std.specs.Prelude.{◌≡◌, ◌≤◌, [], ◌∷◌, ◌++◌, None, Bool, List, true, false, is_none, is_some, IfNone, IfSome, OnOk, OnErr, OnSome};
ghost use Rattle.std.specs.Option.{option_copied};
ghost use Rattle.js_table.specs.Indices.{without_elements};
ghost use Rattle.js_table.specs.inner.Listing.{ListsMore};
ghost use Rattle.js_table.specs.Properties.{property_named, value_named, with_property, with_value, without};

use crate::index::Index;
use crate::listing::list_slots;
use crate::slots::{
    add_slot, clear, close_many_gaps, index_many, make_room, place_in, take_elements, write,
};
use crate::{Property, Spelling};
use indexmap::IndexSet;
use js_value::Value;
use mug_text::{JText, Listed, NoMemory};
use std::alloc::Global;
use std::marker::Model;

/// Properties of different names, in the order in which they were added.
#[derive(Drop)]
pub struct Table {
    slots: Vec<Option<Property>>,
    // Of a table that had more than a few slots once.
    index: Option<Box<Index>>,
}

impl Model for Table {
    ghost use Rattle.std.specs.Prelude.{List};
    ghost use Rattle.js_table.specs.declared.property.Property.{Property};
    ghost use Rattle.js_table.specs.inner.Slots.{present, AreDistinct, IsIndexOf};

    ghost Value = { List Property };

    ghost view = { λ t. present t.slots.items };

    ghost invariant = { λ t. AreDistinct t.slots.items × IsIndexOf t.index t.slots.items };
}

impl Table {
    pub fn new(alloc: Global) -> Table
        ensures { result ≡ [] }
    {
        Table {
            slots: Vec::new(alloc),
            index: None,
        }
    }

    /// The property of this name.
    pub fn get(&self, name: &[u16]) -> Option<&Property>
        ensures { option_copied result ≡ property_named name.now self.now }
    {
        let place = place_in(&self.slots, &self.index, name)?;
        self.slots[place].as_ref()
    }

    /// The value of this name.
    pub fn value(&self, name: &[u16]) -> Option<&Value>
        ensures { option_copied result ≡ value_named name.now self.now }
    {
        match self.get(name) {
            Some(property) => Some(&property.value),
            None => None,
        }
    }

    // Gives another value to the name, or gives it back where there is no property of the name.
    fn offer(&mut self, name: &[u16], value: Value) -> Option<Value>
        ensures taken { IfNone result ((listed : Bool) →
            self.new ≡ with_property name.now value listed self.old) }
        ensures there { is_none result ≡ is_some (property_named name.now self.old) }
        ensures back { IfSome result (λ v. v ≡ value) }
        ensures unchanged { OnSome result (self.new ≡ self.old) }
    {
        let Some(place) = place_in(&self.slots, &self.index, name) else {
            return Some(value);
        };
        write(&mut self.slots, place, value);
        None
    }

    /// Gives a value to the name, in its place and as listed as before, or as the last property.
    pub fn put(&mut self, name: &JText, value: Value, listed: bool) -> Result<(), NoMemory>
        ensures ok { OnOk result (self.new ≡ with_property name.now value listed self.old) }
        ensures err { OnErr result (self.new ≡ self.old) }
    {
        let Some(value) = self.offer(name.as_slice(), value) else {
            return Ok(());
        };
        let name = name.copy()?;
        self.add(Property {
            name,
            value,
            listed,
        })
    }

    /// The same to the name of these units, of which a text is made only where the name is new.
    pub fn put_units(&mut self, name: &[u16], value: Value, listed: bool) -> Result<(), NoMemory>
        ensures ok { OnOk result (self.new ≡ with_property name.now value listed self.old) }
        ensures err { OnErr result (self.new ≡ self.old) }
    {
        let Some(value) = self.offer(name, value) else {
            return Ok(());
        };
        let name = JText::from_units(*self.slots.allocator(), name)?;
        self.add(Property {
            name,
            value,
            listed,
        })
    }

    // Puts a property of another name behind the others.
    fn add(&mut self, property: Property) -> Result<(), NoMemory>
        requires { property_named property.name self.old ≡ None }
        ensures ok { OnOk result (self.new ≡ self.old ++ property ∷ []) }
        ensures err { OnErr result (self.new ≡ self.old) }
    {
        index_many(&self.slots, &mut self.index)?;
        make_room(&mut self.slots)?;
        add_slot(&mut self.slots, &mut self.index, property)
    }

    /// Gives another value to the name, which takes no memory; false where there is no property of
    /// the name.
    pub fn replace(&mut self, name: &[u16], value: Value) -> bool
        ensures found { result ≡ is_some (property_named name.now self.old) }
        ensures replaced { (listed : Bool) → result ≡ true →
            self.new ≡ with_property name.now value listed self.old }
        ensures unchanged { result ≡ false → self.new ≡ self.old }
    {
        self.offer(name, value).is_none()
    }

    /// Removes the property of this name; false where there is none.
    pub fn remove(&mut self, name: &[u16]) -> bool
        ensures found { result ≡ is_some (property_named name.now self.old) }
        ensures without { self.new ≡ without name.now self.old }
    {
        let Some(place) = place_in(&self.slots, &self.index, name) else {
            return false;
        };
        clear(&mut self.slots, &mut self.index, place, name);
        close_many_gaps(&mut self.slots, &mut self.index);
        true
    }

    /// Gives another value to the name, where there is a property of the name.
    pub fn change(&mut self, name: &[u16], value: Value)
        ensures { self.new ≡ with_value name.now value self.old }
    {
        self.replace(name, value);
    }

    /// Removes the elements from `low` on, below `high`, in time for each property or for each
    /// number between, whichever are fewer.
    pub fn remove_elements(&mut self, low: u32, high: u32)
        requires { low ≤ high }
        ensures { self.new ≡ without_elements low high self.old }
    {
        if ((high - low) as usize) < self.slot_count() {
            self.remove_each(low, high);
        } else {
            self.take_out(low, high);
        }
    }

    fn slot_count(&self) -> usize {
        self.slots.len()
    }

    // Removes the elements one by one.
    fn remove_each(&mut self, low: u32, high: u32)
        requires { low ≤ high }
        ensures { self.new ≡ without_elements low high self.old }
    {
        for index in low..high {
            self.remove(Spelling::of(index).as_slice());
        }
    }

    // Takes the elements out in one pass.
    fn take_out(&mut self, low: u32, high: u32)
        ensures { self.new ≡ without_elements low high self.old }
    {
        take_elements(&mut self.slots, &mut self.index, low, high);
    }

    /// Adds its names to those seen, and those that are listed and weren't seen to the names.
    pub fn list_names(
        &self,
        seen: &mut IndexSet<JText>,
        names: &mut Listed<JText>,
    ) -> Result<(), NoMemory>
        ensures { OnOk result ((rest : List Property) →
            ListsMore seen.old.keys names.old (self.now ++ rest) seen.new.keys names.new rest) }
    {
        list_slots(&self.slots, seen, names)
    }
}
