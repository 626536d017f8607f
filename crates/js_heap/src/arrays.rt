// Arrays: their elements and their `length`.
ghost use Rattle.std.specs.Prelude.{◌≡◌, ◌↔◌, ◌<◌, None, Some, true, codes, decimal, OnOk, OnErr};
ghost use Rattle.js_value.specs.Same.{text_equal};
ghost use Rattle.js_table.specs.Indices as indices;
ghost use Rattle.js_heap.specs.Elements as spec;
ghost use Rattle.js_heap.specs.Puts as puts;

use crate::object::Object;
use crate::objects::LENGTH;
use crate::{Class, PutFault};
use js_table::{Spelling, Table, index_of};
use js_value::{Num, Value};
use mug_text::{INDEX_END, JText, NoMemory};

// The length that a value is.
fn length_in(value: &Value) -> Option<u32>
    ensures { result ≡ spec.length_in value.now }
{
    let Value::Num(Num::Whole(number)) = value else {
        return None;
    };
    let number = number.get();
    if number >= 0 && number <= i64::from(INDEX_END) {
        Some(number as u32)
    } else {
        None
    }
}

// An array's length.
fn length_of(properties: &Table) -> u32
    ensures { result ≡ spec.length_of properties.now }
{
    match properties.value(LENGTH.as_slice()) {
        Some(value) => length_in(value).unwrap_or(0),
        None => 0,
    }
}

// Gives an array this `length`.
fn change_length(properties: &mut Table, length: u32)
    ensures { properties.new ≡ spec.with_length length properties.old }
{
    properties.change(LENGTH.as_slice(), Value::Num(Num::Whole(length.into())));
}

// Gives an array this `length`, and takes the elements from it on away.
fn cut(properties: &mut Table, length: u32)
    ensures { properties.new ≡ spec.cut length properties.old }
{
    let before = length_of(properties);
    if length < before {
        properties.remove_elements(length, before);
    }
    change_length(properties, length);
}

// Raises an array's `length` above the index.
fn raise(properties: &mut Table, index: u32)
    requires { index < INDEX_END }
    ensures { properties.new ≡ spec.raised (Some index) properties.old }
{
    if index >= length_of(properties) {
        change_length(properties, index + 1);
    }
}

// Gives an array's name a value.
fn put_element(
    properties: &mut Table,
    name: &JText,
    value: Value,
    listed: bool,
) -> Result<(), PutFault>
    ensures bad { result ≡ Err PutFault.BadLength ↔
        ((text_equal name.now (codes "length") ≡ true) × (spec.length_in value ≡ None)) }
    ensures ok { OnOk result
        (properties.new ≡ spec.with_element name.now value listed properties.old) }
    ensures err { OnErr result (properties.new ≡ properties.old) }
{
    if name.as_slice() == LENGTH.as_slice() {
        let length = length_in(&value).ok_or(PutFault::BadLength)?;
        cut(properties, length);
        return Ok(());
    }
    properties.put(name, value, listed)?;
    if let Some(index) = index_of(name) {
        raise(properties, index);
    }
    Ok(())
}

// Gives the object's own property a value.
pub(crate) fn put_in(
    object: &mut Object,
    name: &JText,
    value: Value,
    listed: bool,
) -> Result<(), PutFault>
    ensures bad { result ≡ Err PutFault.BadLength ↔
        (puts.refuses object.old name.now value ≡ true) }
    ensures ok { OnOk result (object.new ≡ puts.object_with name.now value listed object.old) }
    ensures err { OnErr result (object.new ≡ object.old) }
{
    if matches!(object.class, Class::Array) {
        put_element(&mut object.properties, name, value, listed)
    } else {
        object.properties.put(name, value, listed)?;
        Ok(())
    }
}

// Gives an array's name that the number spells a value.
fn put_spelled(
    properties: &mut Table,
    index: u32,
    value: Value,
    listed: bool,
) -> Result<(), NoMemory>
    ensures ok { OnOk result
        (properties.new ≡ spec.with_element (decimal index) value listed properties.old) }
    ensures err { OnErr result (properties.new ≡ properties.old) }
{
    properties.put_units(Spelling::of(index).as_slice(), value, listed)?;
    if index < INDEX_END {
        raise(properties, index);
    }
    Ok(())
}

// Gives the object's own property that the number spells a value.
pub(crate) fn put_at(
    object: &mut Object,
    index: u32,
    value: Value,
    listed: bool,
) -> Result<(), NoMemory>
    ensures ok { OnOk result
        (object.new ≡ puts.object_with (decimal index) value listed object.old) }
    ensures err { OnErr result (object.new ≡ object.old) }
{
    if matches!(object.class, Class::Array) {
        put_spelled(&mut object.properties, index, value, listed)
    } else {
        object
            .properties
            .put_units(Spelling::of(index).as_slice(), value, listed)
    }
}

// Gives an array this `length`.
pub(crate) fn cut_in(object: &mut Object, length: u32)
    ensures { object.new ≡ puts.object_cut length object.old }
{
    cut(&mut object.properties, length);
}
