//! Nodes and relationships as tables hold them: records with names as numbers, and the trait of tables.
#![tactic(auto)]

mod by_id;
mod by_text;
mod id_set;
mod in_order;
mod labels;
mod laws;
mod links;
mod next_ids;
mod places;
mod properties;
mod records;
mod runs;
mod sorted;
mod tables;

pub use by_id::ById;
pub use id_set::{IdSet, Members};
pub use labels::Labels;
pub use laws::{law_of_reads, law_of_table_changes, law_of_table_graphs};
pub use links::{Incidence, Links};
pub use next_ids::NextIds;
pub use properties::Properties;
pub use records::{NodeRecord, RelRecord};
pub use tables::{SharedPart, Tables};
