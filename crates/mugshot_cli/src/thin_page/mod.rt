//! Thin pages, until the page loop takes their place: their statements, their turn, and their runs
//! over arrivals and over inputs.
pub mod end;
pub mod inputs_run;
pub mod laws;
pub mod page;
pub mod plain_run;
pub mod reading;
pub mod recording;
pub mod summary;
pub mod tracing;
pub mod turn_steps;
