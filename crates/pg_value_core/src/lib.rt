//! The values of a property graph: their types, their total order, their hash and their copies.
#![tactic(auto)]

mod copy;
mod hashes;
mod ids;
mod ordering;
mod out;
mod parameters;
mod parts;
mod pushes;
mod value;

pub use copy::{owned_entries, owned_items, owned_text};
pub use ids::{NodeId, Path, RelId};
pub use ordering::{equivalent, order};
pub use out::Out;
pub use parameters::Parameters;
pub use parts::Parts;
pub use pg_meaning::{Fault, Tri};
pub use pushes::push_item;
pub use value::Value;
