// The slots of a table.
ghost use Rattle.std.specs.Prelude.{◌≡◌, ℕ, ◌<◌, Bool, not, List, [], ◌∷◌, ◌++◌, length, Some, None, is_some, filter, slice_get, slice_set, IfOk, IfSome, if◌then◌else◌, MatchOption, OnOk, OnErr};
ghost use Rattle.js_value.specs.Same.{text_equal};
ghost use Rattle.std.specs.HashMap.{get};
ghost use Rattle.js_table.specs.Indices as elements;
ghost use Rattle.js_table.specs.Properties.{property_named};
ghost use Rattle.js_table.specs.inner.Slots.{AreDistinct, IsIndexOf, Stands, is_kept, is_named, place_of, present};

use crate::Property;
use crate::index::{Index, Units};
use crate::indices::is_within;
use indexmap::IndexMap;
use js_value::Value;
use mug_text::{JText, NoMemory};
use std::alloc::Global;

// Where the property of this name is.
pub(crate) fn place_in(
    slots: &[Option<Property>],
    index: &Option<Box<Index>>,
    name: &[u16],
) -> Option<usize>
    requires { IsIndexOf index.now slots.now }
    ensures place { result ≡ place_of name.now slots.now }
    ensures within { IfSome result (λ i. i < length slots.now) }
    ensures stands { MatchOption result (property_named name.now (present slots.now) ≡ None)
        (λ i. Stands name.now slots.now i) }
{
    match index {
        Some(index) => index.places.get(Units(name)).copied(),
        None => place_among(slots, name),
    }
}

fn place_among(slots: &[Option<Property>], name: &[u16]) -> Option<usize>
    ensures { result ≡ place_of name.now slots.now }
{
    for (i, slot) in slots.iter().enumerate() {
        if has_name(slot, name) {
            return Some(i);
        }
    }
    None
}

fn has_name(slot: &Option<Property>, name: &[u16]) -> bool
    ensures { result ≡ is_named name.now slot.now }
{
    match slot {
        Some(property) => name == property.name.as_slice(),
        None => false,
    }
}

// The places of the names in these slots.
pub(crate) fn places(
    alloc: Global,
    slots: &[Option<Property>],
) -> Result<IndexMap<JText, usize>, NoMemory>
    requires { AreDistinct slots.now }
    ensures { IfOk result (λ m. (x : List ℕ) → get text_equal m x ≡ place_of x slots.now) }
{
    let mut places = IndexMap::with_capacity(alloc, slots.len() + 1)?;
    for (i, slot) in slots.iter().enumerate() {
        if let Some(property) = slot {
            places.insert(property.name.copy()?, i)?;
        }
    }
    Ok(places)
}

// Writes the places anew, where gaps between the slots were closed.
pub(crate) fn renumber(places: &mut IndexMap<JText, usize>, slots: &[Option<Property>])
    requires distinct { AreDistinct slots.now }
    requires known { (x : List ℕ) →
        is_some (get text_equal places.old x) ≡ is_some (place_of x slots.now) }
    ensures { (x : List ℕ) → get text_equal places.new x ≡ place_of x slots.now }
{
    for (i, slot) in slots.iter().enumerate() {
        if let Some(property) = slot {
            if let Some(place) = places.get_mut(&property.name) {
                *place = i;
            }
        }
    }
}

// Leaves no gaps.
pub(crate) fn close_gaps(slots: &mut Vec<Option<Property>>)
    ensures { slots.new.items ≡ filter is_some slots.old.items }
{
    slots.retain(|slot| slot.is_some());
}

// Gives another value to the property at the place.
pub(crate) fn write(slots: &mut Vec<Option<Property>>, place: usize, value: Value)
    requires { place < length slots.old.items }
    ensures { (p : Property) → slice_get slots.old.items place ≡ Some (Some p) →
        slots.new.items ≡ slice_set slots.old.items place (Some (record p { value = value })) }
{
    if let Some(property) = &mut slots[place] {
        property.value = value;
    }
}

// From how many slots on a table has an index, which takes about as much as they do.
const MANY: usize = 16;

// How many more there is made room for where there are so many and no room is left: an eighth of
// them, so that few bytes lie idle and a new one takes constant time on average.
fn more(count: usize) -> usize {
    count / 8 + 1
}

// Makes room for one more slot.
pub(crate) fn make_room(slots: &mut Vec<Option<Property>>) -> Result<(), NoMemory>
    ensures { slots.new.items ≡ slots.old.items }
{
    let count = slots.len();
    if count == slots.capacity() {
        slots.reserve_exact(more(count))?;
    }
    Ok(())
}

// Makes room for one more name. The map doubles its columns with its table; what the columns have
// beyond `more` is given back.
fn make_place(places: &mut IndexMap<JText, usize>) -> Result<(), NoMemory>
    ensures { (x : List ℕ) → get text_equal places.new x ≡ get text_equal places.old x }
{
    let count = places.len();
    if count == places.capacity() {
        places.reserve(1)?;
        places.shrink_to(count.saturating_add(more(count)));
    }
    Ok(())
}

// Makes an index where there are many slots and none was made before.
pub(crate) fn index_many(
    slots: &Vec<Option<Property>>,
    index: &mut Option<Box<Index>>,
) -> Result<(), NoMemory>
    requires distinct { AreDistinct slots.now.items }
    requires index { IsIndexOf index.old slots.now.items }
    ensures { IsIndexOf index.new slots.now.items }
{
    if index.is_none() && slots.len() >= MANY {
        let alloc = *slots.allocator();
        let made = Index {
            places: places(alloc, slots)?,
            gaps: 0,
        };
        *index = Some(Box::new(alloc, made)?);
    }
    Ok(())
}

// Writes down the place of a name.
fn note(index: &mut Index, name: JText, place: usize) -> Result<(), NoMemory>
    ensures ok { OnOk result ((x : List ℕ) → get text_equal index.new.places x ≡
        (if text_equal name x then Some place else get text_equal index.old.places x)) }
    ensures err { OnErr result ((x : List ℕ) →
        get text_equal index.new.places x ≡ get text_equal index.old.places x) }
{
    make_place(&mut index.places)?;
    index.places.insert(name, place)?;
    Ok(())
}

// Puts a property of another name behind the others.
pub(crate) fn add_slot(
    slots: &mut Vec<Option<Property>>,
    index: &mut Option<Box<Index>>,
    property: Property,
) -> Result<(), NoMemory>
    requires other { property_named property.name (present slots.old.items) ≡ None }
    requires distinct { AreDistinct slots.old.items }
    requires index { IsIndexOf index.old slots.old.items }
    ensures ok { OnOk result (present slots.new.items ≡ present slots.old.items ++ property ∷ []) }
    ensures err { OnErr result (present slots.new.items ≡ present slots.old.items) }
    ensures distinct { AreDistinct slots.new.items }
    ensures index { IsIndexOf index.new slots.new.items }
{
    let Some(index) = index else {
        slots.push(Some(property))?;
        return Ok(());
    };
    let place = slots.len();
    let name = property.name.copy()?;
    slots.push(Some(property))?;
    if note(index, name, place).is_err() {
        slots.truncate(place);
        return Err(NoMemory);
    }
    Ok(())
}

// Takes the property out that stands at the place and has this name.
pub(crate) fn clear(
    slots: &mut Vec<Option<Property>>,
    index: &mut Option<Box<Index>>,
    place: usize,
    name: &[u16],
)
    requires distinct { AreDistinct slots.old.items }
    requires place { place_of name.now slots.old.items ≡ Some place }
    requires within { place < length slots.old.items }
    requires index { IsIndexOf index.old slots.old.items }
    ensures slots { slots.new.items ≡ slice_set slots.old.items place None }
    ensures index { IsIndexOf index.new slots.new.items }
{
    slots[place] = None;
    if let Some(index) = index {
        index.places.swap_remove(Units(name));
        index.gaps = index.gaps.saturating_add(1);
    }
}

// Closes the gaps where there are many.
pub(crate) fn close_many_gaps(slots: &mut Vec<Option<Property>>, index: &mut Option<Box<Index>>)
    requires distinct { AreDistinct slots.old.items }
    requires index { IsIndexOf index.old slots.old.items }
    ensures present { present slots.new.items ≡ present slots.old.items }
    ensures distinct { AreDistinct slots.new.items }
    ensures index { IsIndexOf index.new slots.new.items }
{
    let Some(index) = index else {
        close_gaps(slots);
        return;
    };
    if index.gaps > slots.len() / 2 {
        close_gaps(slots);
        renumber(&mut index.places, slots);
        index.gaps = 0;
    }
}

// Whether the slot has a property that is no element from `low` on, below `high`.
fn is_kept(slot: &Option<Property>, low: u32, high: u32) -> bool
    ensures { result ≡ is_kept low high slot.now }
{
    match slot {
        Some(property) => !is_within(&property.name, low, high),
        None => false,
    }
}

// Keeps the slots that have no such element, and no gaps.
fn keep_slots(slots: &mut Vec<Option<Property>>, low: u32, high: u32)
    ensures { slots.new.items ≡ filter (is_kept low high) slots.old.items }
{
    slots.retain(|slot| is_kept(slot, low, high));
}

// Keeps the names that are no such element.
fn keep_places(places: &mut IndexMap<JText, usize>, low: u32, high: u32)
    ensures { (x : List ℕ) → get text_equal places.new x ≡
        (if elements.is_within low high x then None else get text_equal places.old x) }
{
    places.retain(|name, _place| !is_within(name, low, high));
}

// Takes the elements from `low` on, below `high`, out.
pub(crate) fn take_elements(
    slots: &mut Vec<Option<Property>>,
    index: &mut Option<Box<Index>>,
    low: u32,
    high: u32,
)
    requires distinct { AreDistinct slots.old.items }
    requires index { IsIndexOf index.old slots.old.items }
    ensures present { present slots.new.items ≡
        elements.without_elements low high (present slots.old.items) }
    ensures distinct { AreDistinct slots.new.items }
    ensures index { IsIndexOf index.new slots.new.items }
{
    keep_slots(slots, low, high);
    if let Some(index) = index {
        let places = &mut index.places;
        keep_places(places, low, high);
        renumber(places, slots);
        index.gaps = 0;
    }
}
