//! What the definitions promise. A function without a body says that a law holds.
ghost use Rattle.pg_server.specs.Handles.{CallsAreRuns, RefusalsKeepAll};
ghost use Rattle.pg_server.specs.Pages.{PagesGive, PagesStay, PagesStayInRuns, PullsGive, RunsGivePages, WholesGive};
ghost use Rattle.pg_server.specs.Runs.{RefusalsKeep, TwoWorlds};
ghost use Rattle.pg_server.specs.Served.{OneListOfBodies};
ghost use Rattle.pg_server.specs.Transactions.{CommitKeeps, NoneWaitsForOthers, OthersWait, RollbackTakesBack, RollbacksTakeBack};

/// A tenant that begins alike in two runs, and sends the same requests, gets the same replies and
/// ends alike, whatever others sent and wherever theirs stood.
pub fn law_two_worlds()
    ensures { TwoWorlds }
{}

/// What was read stands for one list of bodies.
pub fn law_one_list_of_bodies()
    ensures { OneListOfBodies }
{}

/// Calls of `handle`, one after another, are a run of each tenant alone too.
pub fn law_calls()
    ensures { CallsAreRuns }
{}

/// A request that is refused leaves its tenant as it was, and every other one and the names, whatever the refusal.
pub fn law_of_refusals()
    ensures tenant { RefusalsKeep }
    ensures server { RefusalsKeepAll }
{}

/// A transaction that is rolled back leaves its tenant as it was before the begin, counters too, so that what follows is answered as if
/// nothing of it had been asked.
pub fn law_of_rollback()
    ensures tenant { RollbackTakesBack }
    ensures server { RollbacksTakeBack }
{}

/// A commit keeps what was done.
pub fn law_of_commit()
    ensures { CommitKeeps }
{}

/// While one token has a transaction open, the tenant's other tokens wait, and no other tenant does.
pub fn law_of_waiting()
    ensures own { OthersWait }
    ensures others { NoneWaitsForOthers }
{}

/// The rows of a query's first page and of all pulls, joined, are the rows that the query had at
/// its moment, printed as then, whatever was done since.
pub fn law_of_pages()
    ensures numbers { PagesStay }
    ensures numbers_in_runs { PagesStayInRuns }
    ensures wholes { WholesGive }
    ensures pulls { PullsGive }
    ensures tenant { PagesGive }
    ensures server { RunsGivePages }
{}
