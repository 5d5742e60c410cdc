//! The rows on which clauses work: which are equal, how they group, and how they sort.
#![tactic(auto)]

mod columns;
mod firsts;
mod laws;
mod least_keys;
mod left;
mod moves;
mod named;
mod sort_by;
mod sorts;
mod table;

pub use columns::Columns;
pub use firsts::distinct;
pub use least_keys::least;
pub use left::RowsLeft;
pub use moves::{copy_of, copy_row};
pub use named::BindingTable;
pub use sort_by::SortBy;
pub use sorts::sort;
pub use table::Rows;
