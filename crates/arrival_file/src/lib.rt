//! Arrival files: what comes from outside while a page is recorded.
#![tactic(auto)]

mod arrival;
mod fields;
mod limits;
mod reading;
mod rows;
mod stop;

pub use arrival::{Arrival, ArrivalFault, ArrivalKind, Arrivals, Turn};
pub use limits::{FILE_LIMIT, WORD_END};
pub use reading::read_arrivals;
