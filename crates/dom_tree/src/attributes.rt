// The attributes of a node, in their order.
ghost use Rattle.std.specs.Prelude.{◌≡◌, ◌<◌, ℕ, List, [], ◌∷◌, ◌++◌, length, IfOk, OnOk, OnErr, MatchOption, None, Some};
ghost use Rattle.std.specs.Option.{option_map};
ghost use Rattle.std.specs.Str.{bytes_eq};
ghost use Rattle.dom_tree.specs.Names.{value_named, with_value, without_name};
ghost use Rattle.dom_tree.specs.Changes.{changed};

use crate::words::{is_word, same_text};
use html_profile::DocAttribute;
use mug_text::{JText, NoMemory};
use std::alloc::{AllocError, Global};
use std::marker::Model;

/// The attributes of a node, in their order.
#[derive(Debug, Drop)]
pub struct Attributes {
    items: Vec<DocAttribute>,
}

impl Model for Attributes {
    ghost use Rattle.std.specs.Prelude.{List};
    ghost use Rattle.html_profile.specs.declared.document.DocAttribute.{DocAttribute};

    ghost Value = { List DocAttribute };

    ghost view = { λ a. a.items.items };
}

// The place of the first attribute of this name.
fn place_of(items: &[DocAttribute], name: &JText) -> Option<usize>
    ensures { (value : List ℕ) → MatchOption result
        (with_value name.now value items.now
        ≡ items.now ++ record { name = name.now; value = value } ∷ [])
        (λ at. (at < length items.now)
        × (with_value name.now value items.now
        ≡ changed (λ a. record a { value = value }) at items.now)) }
{
    for (index, attribute) in items.iter().enumerate() {
        if same_text(&attribute.name, name) {
            return Some(index);
        }
    }
    None
}

// The value of the attribute whose name is this word in ASCII.
pub(crate) fn value_of<'a>(items: &'a [DocAttribute], word: &[u8]) -> Option<&'a JText>
    ensures { option_map (λ value. value.now) result ≡ value_named word.now items.now }
{
    for attribute in items {
        if is_word(&attribute.name, word) {
            return Some(&attribute.value);
        }
    }
    None
}

fn push(items: &mut Vec<DocAttribute>, attribute: DocAttribute) -> Result<(), AllocError>
    ensures { OnOk result (items.new.items ≡ items.old.items ++ attribute ∷ []) }
{
    items.push(attribute)?;
    Ok(())
}

// Copies that share their texts.
fn copies(alloc: Global, items: &[DocAttribute]) -> Result<Vec<DocAttribute>, NoMemory>
    ensures { IfOk result (λ made. made.items ≡ items.now) }
{
    let mut made = Vec::new(alloc);
    for attribute in items {
        let copy = DocAttribute {
            name: attribute.name.copy()?,
            value: attribute.value.copy()?,
        };
        push(&mut made, copy)?;
    }
    Ok(made)
}

impl Attributes {
    pub(crate) fn new(alloc: Global) -> Attributes
        ensures { result ≡ [] }
    {
        Attributes {
            items: Vec::new(alloc),
        }
    }

    /// The same attributes.
    pub(crate) fn of(alloc: Global, items: &[DocAttribute]) -> Result<Attributes, NoMemory>
        ensures { IfOk result (λ attributes. attributes ≡ items.now) }
    {
        let items = copies(alloc, items)?;
        Ok(Attributes { items })
    }

    pub fn as_slice(&self) -> &[DocAttribute]
        ensures { result.now ≡ self.now }
    {
        &self.items
    }

    /// The value of the attribute of this name.
    pub fn value(&self, name: &JText) -> Option<&JText>
        ensures { option_map (λ value. value.now) result ≡ value_named name.now self.now }
    {
        for attribute in &self.items {
            if same_text(&attribute.name, name) {
                return Some(&attribute.value);
            }
        }
        None
    }

    /// The value of the attribute whose name is this word in ASCII.
    pub(crate) fn value_of(&self, word: &[u8]) -> Option<&JText>
        ensures { option_map (λ value. value.now) result ≡ value_named word.now self.now }
    {
        value_of(&self.items, word)
    }

    /// Gives the attribute of this name a value.
    pub(crate) fn set(&mut self, name: JText, value: JText) -> Result<(), AllocError>
        ensures ok { OnOk result (self.new ≡ with_value name value self.old) }
        ensures err { OnErr result (self.new ≡ self.old) }
    {
        match place_of(&self.items, &name) {
            Some(at) => {
                let attribute = &mut self.items[at];
                attribute.value = value;
            }
            None => self.items.push(DocAttribute { name, value })?,
        }
        Ok(())
    }

    /// Takes the attributes of this name away.
    pub(crate) fn remove(&mut self, name: &JText)
        ensures { self.new ≡ without_name name.now self.old }
    {
        self.items
            .retain(|attribute| !same_text(&attribute.name, name));
    }
}
