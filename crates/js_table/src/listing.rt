// The names that for-in goes through.
ghost use Rattle.std.specs.Prelude.{◌≡◌, ◌++◌, ◌∷◌, List, OnOk};
ghost use Rattle.js_table.specs.inner.Listing.{ListsMore};
ghost use Rattle.js_table.specs.inner.Slots.{present};

use crate::Property;
use indexmap::IndexSet;
use mug_text::{JText, Listed, NoMemory};

// Adds the property's name to those seen, and to the names if it is listed and wasn't seen.
fn list_property(
    property: &Property,
    seen: &mut IndexSet<JText>,
    names: &mut Listed<JText>,
) -> Result<(), NoMemory>
    ensures { OnOk result ((rest : List Property) →
        ListsMore seen.old.keys names.old (property.now ∷ rest) seen.new.keys names.new rest) }
{
    if seen.insert(property.name.copy()?)? && property.listed {
        names.push(property.name.copy()?)?;
    }
    Ok(())
}

// The same of each property in the slots.
pub(crate) fn list_slots(
    slots: &[Option<Property>],
    seen: &mut IndexSet<JText>,
    names: &mut Listed<JText>,
) -> Result<(), NoMemory>
    ensures { OnOk result ((rest : List Property) → ListsMore seen.old.keys names.old
        (present slots.now ++ rest) seen.new.keys names.new rest) }
{
    for slot in slots {
        if let Some(property) = slot {
            list_property(property, seen, names)?;
        }
    }
    Ok(())
}
