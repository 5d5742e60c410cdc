//! The graphs of all tenants over what they share, of which one is at work.
#![tactic(auto)]

mod live_graph;
mod transactions;

pub use live_graph::LiveGraph;
