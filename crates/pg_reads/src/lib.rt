//! Which variables an expression reads, and what a projection gives where others are left out.
#![tactic(auto)]

mod variables;

pub use variables::{condition_reads, projection_reads, reads};
