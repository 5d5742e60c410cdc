//! The one answer and the meaning agree, clause by clause and for whole queries.
#![tactic(auto)]

ghost use Rattle.pg_soundness.specs.Aggregating.{TakesAllThere, LeastIsFirst, GreatestIsLast};
ghost use Rattle.pg_soundness.specs.Faults.{FaultsOfExpressions, FaultsOfQueries};
ghost use Rattle.pg_soundness.specs.Listing.{WalksAreTheListing};
ghost use Rattle.pg_soundness.specs.Making.{CreateAgrees, MergeAgrees};
ghost use Rattle.pg_soundness.specs.Matching.{MatchAgrees, WalksListFits};
ghost use Rattle.pg_soundness.specs.Places.{CreationIsCharged, NamesAreOfPlaces};
ghost use Rattle.pg_soundness.specs.Planning.{PlanOfIsPlan, PlanOfIsWhole};
ghost use Rattle.pg_soundness.specs.Projecting.{ReturnAgrees, UnwindAgrees, WithAgrees};
ghost use Rattle.pg_meaning.specs.Cost.{WalksChargeTheCost};

mod changing;
mod whole_queries;

pub use changing::{
    instances_of_changes, law_of_changes, law_of_changing, law_of_decisions, law_of_deletions,
    law_of_one_change,
};
pub use whole_queries::{
    law_of_answers, law_of_graphs, law_of_leaving, law_of_queries, law_of_rows,
};

/// The walks of paths list exactly what fits them, each assignment once, from whatever anchors.
pub fn law_of_walks()
    ensures { WalksListFits }
{}

/// MATCH and OPTIONAL MATCH agree with their meaning, whatever their paths, their WHERE and the anchors of their plan.
pub fn law_of_matching()
    ensures { MatchAgrees }
{}

/// The walks of a row are what fits and what the anchors reach, each once, in the order of the walks.
pub fn law_of_listing()
    ensures { WalksAreTheListing }
{}

/// The walks of a row charge one for each candidate of each fitting beginning, and one for each whole match.
pub fn law_of_cost()
    ensures { WalksChargeTheCost }
{}

/// The plan that is made of a query, over whatever indexes, is a plan of it, and names none but these.
pub fn law_of_planning()
    ensures plan { PlanOfIsPlan }
    ensures whole { PlanOfIsWhole }
{}

/// A row of CREATE is charged one step for each element that it makes; the variables with their nodes are those of the
/// node places.
pub fn law_of_places()
    ensures charged { CreationIsCharged }
    ensures named { NamesAreOfPlaces }
{}

/// CREATE answers rows, graphs and faults that its meaning gives.
pub fn law_of_making()
    ensures { CreateAgrees }
{}

/// MERGE answers rows, graphs and faults that its meaning gives.
pub fn law_of_merging()
    ensures { MergeAgrees }
{}

/// WITH, RETURN and UNWIND agree with their meaning.
pub fn law_of_projecting()
    ensures with { WithAgrees }
    ensures returns { ReturnAgrees }
    ensures unwinds { UnwindAgrees }
{}

/// An aggregate takes in all values but null in their order, where it has no DISTINCT; min is one of them that none goes
/// before, and max one that goes before none.
pub fn law_of_aggregates()
    ensures taken { TakesAllThere }
    ensures least { LeastIsFirst }
    ensures greatest { GreatestIsLast }
{}

/// A well-formed expression without static faults, with its parameters given, has a value or one of the faults 16 to 27.
pub fn law_of_expressions()
    ensures { FaultsOfExpressions }
{}

/// A well-formed query without static faults, with its parameters given, ends well or in one of the faults 16 to 27.
pub fn law_of_faults()
    ensures { FaultsOfQueries }
{}
