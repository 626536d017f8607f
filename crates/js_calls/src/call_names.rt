// The texts that calls and declarations share.
ghost use Rattle.std.specs.Prelude.{◌≡◌, codes};

use js_reference::FunctionNames;
use mug_text::{JText, NoMemory};
use std::alloc::Global;

// `arguments`, `length`, `prototype`, and `event`
const ARGUMENTS: [u16; 9] = [0x61, 0x72, 0x67, 0x75, 0x6D, 0x65, 0x6E, 0x74, 0x73];

const LENGTH: [u16; 6] = [0x6C, 0x65, 0x6E, 0x67, 0x74, 0x68];

const PROTOTYPE: [u16; 9] = [0x70, 0x72, 0x6F, 0x74, 0x6F, 0x74, 0x79, 0x70, 0x65];

const EVENT: [u16; 5] = [0x65, 0x76, 0x65, 0x6E, 0x74];

/// The names that calls give: those of the properties of function objects, and `arguments`,
/// `length`, `prototype` and `event`.
#[derive(Drop)]
pub struct CallNames {
    pub(crate) function: FunctionNames,
    pub(crate) arguments: JText,
    pub(crate) length: JText,
    pub(crate) prototype: JText,
    pub(crate) event: JText,
    ghost arguments_text: { arguments ≡ codes "arguments" },
    ghost length_text: { length ≡ codes "length" },
    ghost prototype_text: { prototype ≡ codes "prototype" },
    ghost event_text: { event ≡ codes "event" },
}

impl CallNames {
    /// The texts.
    pub fn new(alloc: Global) -> Result<CallNames, NoMemory> {
        Ok(CallNames {
            function: FunctionNames::new(alloc)?,
            arguments: JText::from_units(alloc, &ARGUMENTS)?,
            length: JText::from_units(alloc, &LENGTH)?,
            prototype: JText::from_units(alloc, &PROTOTYPE)?,
            event: JText::from_units(alloc, &EVENT)?,
        })
    }
}
