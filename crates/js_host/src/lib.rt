//! What a page's programs reach beside their heap: hosts, and native functions by number.
#![tactic(auto)]

mod call;
mod host;
mod laws;
mod native;
mod shown_values;

pub use call::{
    Callback, DispatchAt, HostPut, Input, Kind, NativeCall, NextCall, Order, Outcome, Resume,
};
pub use host::Host;
pub use laws::{
    classes_and_scopes_stay, images_are_shown_and_read, names_are_there,
    nothing_that_asks_comes_out, tests_last, there_is_among_the_objects,
};
pub use native::{
    Builtin, Construct, NATIVES, Native, PATHS, native_of, natives_are_numbered_apart,
    natives_that_ask_and_construct,
};
pub use shown_values::{shown, uncaught_shown};
