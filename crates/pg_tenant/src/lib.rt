//! One tenant: its settings, its indexes, and its answer to a request.
#![tactic(auto)]

ghost use Rattle.pg_tenant.specs.Changes.{OthersLeave};
ghost use Rattle.pg_tenant.specs.Holders.{HoldersAsk};
ghost use Rattle.pg_tenant.specs.Indexes.{IndexesRise};
ghost use Rattle.pg_tenant.specs.Outcomes.{PlansAnswer, TextMeans};
ghost use Rattle.pg_tenant.specs.TransactionLaws.{BeginsAreWritten, CommitsKeep, OnlyTheGraph, OthersWait, RefusalsLeave, RollbacksGoBack};

mod catalogue;
mod early;
mod headroom;
mod indexes;
mod instances;
mod noted;
mod pages;
mod query;
mod settings;
mod status;
mod tenant;
mod transaction;

pub use instances::{instances_of_pages, instances_of_tenants, instances_of_transactions};
pub use noted::Noted;
pub use settings::{Rights, TenantSettings, TokenSettings};
pub use tenant::Tenant;

/// Where there are some indexes, a text's answer is the one under its plan for these.
pub fn law_of_plan_answers()
    ensures { PlansAnswer }
{}

/// What a text that reads answers, whatever indexes there are, is what its query means, or a fault in which it may end.
pub fn law_of_meaning()
    ensures { TextMeans }
{}

/// A tenant's indexes stay in the order of their bytes, each once, whatever is asked.
pub fn law_of_indexes()
    ensures { IndexesRise }
{}

/// What a transaction is to its tenant.
pub fn law_of_transactions()
    ensures begins { BeginsAreWritten }
    ensures only { OnlyTheGraph }
    ensures others { OthersWait }
    ensures commits { CommitsKeep }
    ensures rollbacks { RollbacksGoBack }
    ensures refusals { RefusalsLeave }
{}

/// A request that may not change what its tenant has, as a query without a page and without an updating clause, leaves all of it.
pub fn law_of_reading_requests()
    ensures { OthersLeave }
{}

/// A request that isn't refused shows the token that holds what it goes on with, a transaction that is open or a page.
pub fn law_of_holders()
    ensures { HoldersAsk }
{}
