//! Steps and elements, each counted against its quota.
#![tactic(auto)]

mod max_elements;
mod meter;
mod room;

pub use max_elements::MaxElements;
pub use meter::Meter;
pub use room::Room;
