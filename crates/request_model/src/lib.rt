//! Requests of a page: what its XMLHttpRequest objects have come to, and which of them are in
//! flight (XMLHttpRequest Standard).
#![tactic(auto)]

mod fault;
mod laws;
mod request;
mod requests;

pub use fault::{REQUEST_LIMIT, RequestFault};
pub use laws::what_ends_a_flight;
pub use request::{Flight, Request};
pub use requests::Requests;
