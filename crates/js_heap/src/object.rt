// Objects.
use crate::Class;
use js_table::Table;
use js_value::ObjId;

// An object: its class, its prototype and its own properties.
#[derive(Drop)]
pub(crate) struct Object {
    pub(crate) class: Class,
    pub(crate) prototype: Option<ObjId>,
    pub(crate) properties: Table,
}
