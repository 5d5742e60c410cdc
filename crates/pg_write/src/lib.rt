//! SET, REMOVE, DELETE and MERGE, each by one call.
#![tactic(auto)]

mod changes;
mod deleting;
mod found;
mod gathering;
mod items;
mod maps;
mod merge;
mod merged_rows;
mod merging;
mod nulls;
mod pending_deletes;
mod removal;
mod removing;
mod row_matches;
mod setting;
mod targets;

pub use deleting::delete_elements;
pub use merge::merge_path;
pub use merging::Merge;
pub use removing::remove_items;
pub use setting::set_items;
