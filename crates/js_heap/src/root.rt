// What a heap holds from the start.
ghost use Rattle.std.specs.Prelude.{◌≡◌, ◌<◌};
ghost use Rattle.js_heap.specs.Roots.{root_number};

use js_value::ObjId;

/// The objects that a heap holds from the start: the window and the prototypes of the built-ins and
/// of the host's objects.
#[derive(Clone, Copy, Debug, PartialEq, Eq)]
pub enum Root {
    ObjectPrototype,
    Window,
    FunctionPrototype,
    ArrayPrototype,
    StringPrototype,
    NumberPrototype,
    BooleanPrototype,
    DatePrototype,
    ErrorPrototype,
    TypeErrorPrototype,
    RangeErrorPrototype,
    ReferenceErrorPrototype,
    SyntaxErrorPrototype,
    NodePrototype,
    EventPrototype,
    RequestPrototype,
}

impl Root {
    // Its object.
    pub(crate) fn id(self) -> ObjId
        ensures number { result.number ≡ root_number self }
        ensures small { result.number < 16 }
    {
        let number = match self {
            Root::ObjectPrototype => 0,
            Root::Window => 1,
            Root::FunctionPrototype => 2,
            Root::ArrayPrototype => 3,
            Root::StringPrototype => 4,
            Root::NumberPrototype => 5,
            Root::BooleanPrototype => 6,
            Root::DatePrototype => 7,
            Root::ErrorPrototype => 8,
            Root::TypeErrorPrototype => 9,
            Root::RangeErrorPrototype => 10,
            Root::ReferenceErrorPrototype => 11,
            Root::SyntaxErrorPrototype => 12,
            Root::NodePrototype => 13,
            Root::EventPrototype => 14,
            Root::RequestPrototype => 15,
        };
        ObjId { number }
    }
}
