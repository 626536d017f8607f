//! Listeners, and the calls of a dispatch (DOM Standard, 2.7 to 2.9).
#![tactic(auto)]

mod event_path;
mod laws;
mod listener;
mod listeners;
mod places;
mod turn;
mod walk;

pub use event_path::{Target, path};
pub use laws::the_calls_are_those_of_the_lists;
pub use listener::{Listener, Role};
pub use listeners::Listeners;
pub use turn::{Call, Phase};
pub use walk::{Stop, Walk};
