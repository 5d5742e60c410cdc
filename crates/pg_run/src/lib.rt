//! A query over a tenant's store: its clauses, one after the other, and the reply, to which RETURN tells its rows, each value as a reply
//! spells it out.
#![tactic(auto)]

mod clause;
mod clauses;
mod elements;
mod instances;
mod presence;
mod repeated_rows;
mod reply_writer;
mod returned_rows;
mod returning;
mod room;
mod rows;
mod running;
mod spelling;
mod stored;
mod tables;

pub use instances::instances_of_values;
pub use running::{PlannedQuery, answer_clauses};
