//! From a query text to its plan: at which node the walk of each path begins, and over which index, for the indexes that there are.
#![tactic(auto)]

ghost use Rattle.pg_plan.specs.Laws.{PlansAreGood, TextsMean};

mod anchor;
mod anchors;
mod instances;
mod leads;
mod nodes;
mod parameters;
mod places;
mod plan;
mod reading;
mod returning;
mod serving;
mod updates;

pub use instances::instances_of_plans;
pub use plan::{Catalogue, Plan};
pub use reading::{check_length, plan_text};

/// What a plan of a text is good for: its query has no static fault, the walks begin where they may, and no index is
/// named but those that it was made for.
pub fn law_of_plans()
    ensures { PlansAreGood }
{}

/// What the query of a text answers, whatever indexes there are, is what it means, or a fault in which it may end.
pub fn law_of_texts()
    ensures { TextsMean }
{}
