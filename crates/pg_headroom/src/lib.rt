//! Memory that must be left after a change is kept.
#![tactic(auto)]

mod headroom;

pub use headroom::test_headroom;
