//! Small runs and configurations. A function without a body says that the instances hold, or don't, as they are listed.
ghost use Rattle.pg_server.specs.InstancesOfAnsweredQueries.{InstancesOfAnsweredQueries};
ghost use Rattle.pg_server.specs.InstancesOfConfigurations.{FaultsAreInOrder, ShapesAreTested};
ghost use Rattle.pg_server.specs.InstancesOfReplies.{InstancesOfReplies};
ghost use Rattle.pg_server.specs.InstancesOfRequests.{InstancesOfOpenings, InstancesOfPages, InstancesOfRequests, StrangersAreRefused};
ghost use Rattle.pg_server.specs.InstancesOfRuns.{EmptyRuns, StatusRuns, ConfigurationsAreTested};
ghost use Rattle.pg_server.specs.InstancesOfServing.{InstancesOfEnds, InstancesOfFailedWrites, InstancesOfFrames, InstancesOfKeys, InstancesOfLookUps, RunsOfNoFrame};
ghost use Rattle.pg_server.specs.InstancesOfTransactions.{InstancesOfExchanges, InstancesOfKeysInTransactions, InstancesOfTransactions, InstancesOfWaiting};

/// What requests are, what runs lead from one state to another, what they write, and how they end.
pub fn instances_of_runs()
    ensures empty { EmptyRuns }
    ensures status { StatusRuns }
    ensures answered { InstancesOfAnsweredQueries }
    ensures replies { InstancesOfReplies }
    ensures strangers { StrangersAreRefused }
    ensures requests { InstancesOfRequests }
    ensures pages { InstancesOfPages }
    ensures frames { InstancesOfFrames }
    ensures ends { InstancesOfEnds }
    ensures failed { InstancesOfFailedWrites }
    ensures nothing { RunsOfNoFrame }
    ensures keys { InstancesOfKeys }
    ensures look_ups { InstancesOfLookUps }
{}

/// What runs with transactions lead from one state to another, and who waits.
pub fn instances_of_transactions()
    ensures runs { InstancesOfTransactions }
    ensures exchanges { InstancesOfExchanges }
    ensures waiting { InstancesOfWaiting }
    ensures keys { InstancesOfKeysInTransactions }
{}

/// What configurations are read, and what drafts pass the tests of their numbers and tokens.
pub fn instances_of_configurations()
    ensures tested { ConfigurationsAreTested }
    ensures shapes { ShapesAreTested }
    ensures order { FaultsAreInOrder }
    ensures openings { InstancesOfOpenings }
{}
