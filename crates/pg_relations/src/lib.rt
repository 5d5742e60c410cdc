//! What the relations of clauses leave out: laws and small instances over the meaning. No code runs.
#![tactic(auto)]

ghost use Rattle.pg_relations.specs.AnyOrder.{AnyOrderStepGivesOne, AnyOrderStepIsOne, AnyOrderQueryMeansOne, AnyOrderQueryIsOne};
ghost use Rattle.pg_relations.specs.Closed.{ClosedStepGivesOne, ClosedStepIsOne, ClosedQueryMeansOne, ClosedQueryIsOne};
ghost use Rattle.pg_relations.specs.Created.{CreateRowMakesOne};
ghost use Rattle.pg_relations.specs.Decided.{UnwindIsOne, MatchIsOne, WithIsOne, ReturnIsOne, CreateDescribesNew, MergeDescribesNew, CreateRowIsOne, MergeRowIsOne};
ghost use Rattle.pg_relations.specs.Determined.{UnwindGivesOne, MatchGivesOne, ProjectsOne, SortedKeysAreOne, PlainProjectsOne, ReturnGivesOne, WithGivesOne};
ghost use Rattle.pg_relations.specs.Exact.{CreateGivesOne, CreateIsOne, MergeGivesOne, MergeIsOne};
ghost use Rattle.pg_relations.specs.HandedOut.{EvaluatesAlike, PathsSeeTheOld};
ghost use Rattle.pg_relations.specs.Merged.{MergeRowMakesOne, MergeItemsAreOne};
ghost use Rattle.pg_relations.specs.Numbered.{CreateMakesOne, CreateOfRowsIsOne};
ghost use Rattle.pg_relations.specs.OpenOrders.{WithMayHaveBoth, IdsAreBelow};
ghost use Rattle.pg_relations.specs.RefusedQueries.{RefusedQueries};
ghost use Rattle.pg_relations.specs.RefusedSteps.{RefusedProjections, RefusedMatches, RefusedCreations, RefusedMerges};
ghost use Rattle.pg_relations.specs.RefusedTurns.{RefusedTurns};
ghost use Rattle.pg_relations.specs.Tested.{TestsItsOwn, OneOrderGivesOne, OneOrderIsOne};

/// Where UNWIND or MATCH has a result it has no fault.
pub fn law_of_reading()
    ensures unwinds { UnwindIsOne }
    ensures matches { MatchIsOne }
{}

/// Where RETURN has a result it has no fault; nor has a WITH without WHERE, or without SKIP and LIMIT.
pub fn law_of_projection_results()
    ensures withs { WithIsOne }
    ensures returns { ReturnIsOne }
{}

/// A row of CREATE that has a result has no fault; nor has a row of MERGE, but for the faults of its items. What this
/// asks of the paths holds in every query without static faults.
pub fn law_of_creating()
    ensures created { CreateDescribesNew }
    ensures merged { MergeDescribesNew }
    ensures creates { CreateRowIsOne }
    ensures merges { MergeRowIsOne }
{}

/// From the same rows UNWIND gives one list of rows, and MATCH one in any order.
pub fn law_of_one_reading()
    ensures unwinds { UnwindGivesOne }
    ensures matches { MatchGivesOne }
{}

/// From the same rows WITH and RETURN have the same rows before SKIP, LIMIT and WHERE, in any order that ORDER BY allows,
/// and one answer to these in one order. With neither ORDER BY, DISTINCT nor an aggregate they give one list.
pub fn law_of_one_projection()
    ensures before { ProjectsOne }
    ensures keys { SortedKeysAreOne }
    ensures plain { PlainProjectsOne }
    ensures returns { ReturnGivesOne }
    ensures withs { WithGivesOne }
{}

/// From the same row CREATE makes the same nodes and relationships, and no other, but for which id is whose.
pub fn law_of_one_creation()
    ensures { CreateRowMakesOne }
{}

/// From the same row MERGE finds the same rows in some order, or makes the same but for which id is whose. Of these rows
/// in one order, and of one creation, its items leave one graph, and have no fault.
pub fn law_of_one_merge()
    ensures merges { MergeRowMakesOne }
    ensures items { MergeItemsAreOne }
{}

/// Where at most one node and one relationship are made for a row, CREATE gives one graph and one list of rows, and MERGE
/// without ON MATCH one graph and the same rows in some order, over however many rows; neither has a fault beside these.
pub fn law_of_no_choice()
    ensures creates { CreateGivesOne }
    ensures created { CreateIsOne }
    ensures merges { MergeGivesOne }
    ensures merged { MergeIsOne }
{}

/// A WHERE behind SKIP and LIMIT has no fault at the rows that it takes. Where no two rows have one key of ORDER BY, or
/// there is neither ORDER BY, DISTINCT nor an aggregate, WITH has one answer, and no fault beside it.
pub fn law_of_one_order()
    ensures own { TestsItsOwn }
    ensures one { OneOrderGivesOne }
    ensures decided { OneOrderIsOne }
{}

/// UNWIND, SET, REMOVE, DELETE, a CREATE without a choice of ids, and WITH and RETURN without ORDER BY, DISTINCT and
/// aggregates give one graph and one list of rows, and never a result and a fault; so do queries of these.
pub fn law_of_closed_queries()
    ensures steps { ClosedStepGivesOne }
    ensures stepped { ClosedStepIsOne }
    ensures queries { ClosedQueryMeansOne }
    ensures queried { ClosedQueryIsOne }
{}

/// Where its properties are read of what was there before, CREATE makes the same for each of its rows but for which id
/// is whose, hands out as many ids, and has no fault beside a result.
pub fn law_of_numbering()
    ensures creates { CreateMakesOne }
    ensures created { CreateOfRowsIsOne }
{}

/// Over values of which no id is still to be handed out an expression has one value, whatever is made; so what CREATE
/// gives its elements is read of what was there before.
pub fn law_of_handed_out_ids()
    ensures evaluates { EvaluatesAlike }
    ensures sees { PathsSeeTheOld }
{}

/// MATCH, UNWIND, DELETE, and WITH and RETURN without SKIP, LIMIT and aggregates, give the same rows and one graph of the
/// same rows, in whatever order these stand, and never a result and a fault; so do queries of these.
pub fn law_of_any_order()
    ensures steps { AnyOrderStepGivesOne }
    ensures stepped { AnyOrderStepIsOne }
    ensures queries { AnyOrderQueryMeansOne }
    ensures queried { AnyOrderQueryIsOne }
{}

/// What no WITH or RETURN gives: rows out of order, doubles, groups that lack or stand twice, rows that WHERE leaves out.
pub fn instances_of_projections()
    ensures { RefusedProjections }
{}

/// What no MATCH gives, and what is no listing of its matches.
pub fn instances_of_matches()
    ensures { RefusedMatches }
{}

/// What no CREATE makes.
pub fn instances_of_creations()
    ensures { RefusedCreations }
{}

/// What no MERGE makes or leaves.
pub fn instances_of_merges()
    ensures { RefusedMerges }
{}

/// What no query means, where none ends, and what UNWIND and WITH don't leave.
pub fn instances_of_queries()
    ensures { RefusedQueries }
{}

/// What is open: WITH may have a result and a fault where WHERE tests what SKIP or LIMIT cut of an open order. The ids of
/// a graph are below its next ones, so CREATE says no more by saying so of what it makes.
pub fn instances_of_open_orders()
    ensures both { WithMayHaveBoth }
    ensures below { IdsAreBelow }
{}

/// What no clause gives over several rows, what rows SET, REMOVE and DELETE don't leave, and that output ends in no fault
/// but one.
pub fn instances_of_turns()
    ensures { RefusedTurns }
{}
