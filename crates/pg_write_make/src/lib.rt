//! CREATE: paths made at the rows of a table; and what every change of a graph by a clause stands on.
#![tactic(auto)]

mod bare;
mod binding;
mod bound;
mod charge;
mod clause;
mod clause_scope;
mod counts;
mod creation;
mod elements;
mod hops;
mod kept;
mod lone;
mod making;
mod paths;
mod short;
mod storable;
mod texts;
mod trails;
mod values;

pub use charge::spend_for_rows;
pub use clause::create_paths;
pub use clause_scope::ClauseScope;
pub use counts::count_new;
pub use creation::make_row;
pub use storable::test_storable;
pub use texts::label_texts;
