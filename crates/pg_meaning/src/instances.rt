//! Small instances of the relations, of each one that holds and one that doesn't. A function without a body says so.

ghost use Rattle.pg_meaning.specs.ExamplesOfFits.{InstancesOfGraphs, InstancesOfPlans, InstancesOfPatterns};
ghost use Rattle.pg_meaning.specs.ExamplesOfSteps.{InstancesOfMatch, InstancesOfUnwind, InstancesOfReturn, InstancesOfCreate, InstancesOfFaults, InstancesOfQueries};

/// What is a graph, and what is a plan of a query.
pub fn instances_of_graphs()
    ensures graphs { InstancesOfGraphs }
    ensures plans { InstancesOfPlans }
{}

/// What fits, what matches, and what is a listing.
pub fn instances_of_patterns()
    ensures { InstancesOfPatterns }
{}

/// What each clause may give, and which faults CREATE and MERGE don't end in.
pub fn instances_of_clauses()
    ensures matches { InstancesOfMatch }
    ensures unwinds { InstancesOfUnwind }
    ensures projects { InstancesOfReturn }
    ensures creates { InstancesOfCreate }
    ensures faults { InstancesOfFaults }
{}

/// What a query means, in which faults it may end, and its one answer.
pub fn instances_of_queries()
    ensures { InstancesOfQueries }
{}
