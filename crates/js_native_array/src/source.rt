// The objects through whose indices natives go.
use js_value::ObjId;

/// An object with a whole `length`: the object that has the properties, and how many indices there
/// are.
#[derive(Clone, Copy, Debug, PartialEq, Eq)]
pub struct Source {
    pub holder: ObjId,
    pub length: u32,
}
