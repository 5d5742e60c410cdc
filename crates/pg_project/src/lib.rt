//! UNWIND, and the projections of WITH and RETURN, with their groups and aggregates.
#![tactic(auto)]

mod accumulator;
mod aggregates;
mod alike;
mod alike_rows;
mod clause_scope;
mod collected;
mod columns;
mod counts;
mod group;
mod groups;
mod items;
mod lists;
mod lone_star;
mod made;
mod parts;
mod pass_through;
mod passing;
mod project;
mod projection_clause;
mod projection_columns;
mod recent;
mod repeated;
mod repeated_groups;
mod repeated_rows;
mod returned;
mod rows;
mod sort_columns;
mod sorting;
mod taken;
mod taking;
mod told;
mod unwind;
mod values;

pub use counts::cut_at;
pub use passing::Cut;
pub use project::{project_return, project_with};
pub use projection_columns::ProjectionColumns;
pub use repeated::project_repeated;
pub use returned::{come_in_turn, counts_groups, only_counts, return_columns};
pub use unwind::unwind_rows;
pub use values::{prepare_each, prepare_items};
