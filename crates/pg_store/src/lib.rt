//! One tenant's graph: its tables and counters as one value, over names and a part of the tables that all tenants share.
#![tactic(auto)]

mod changes;
mod creation;
mod edits;
mod graph_view;
mod incident;
mod indexes;
mod journal;
mod names;
mod node_changes;
mod nodes;
mod notes;
mod places;
mod reads;
mod removal;
mod sets;
mod settling;
mod shared;
mod store;
mod texts;
mod typed;
mod views;
mod wanted;

pub use creation::Ends;
pub use edits::{NodeBefore, NodeChange, PropertiesBefore, PropertyChange};
pub use graph_view::GraphView;
pub use incident::Incident;
pub use journal::{Entry, Mark};
pub use nodes::Nodes;
pub use sets::Sets;
pub use shared::Shared;
pub use store::{Store, law_of_other_stores, law_of_stores};
pub use texts::{NodeTexts, RelTexts};
pub use typed::Typed;
pub use views::{NodeView, RelView};
