//! A query over a tenant's graph, all or nothing.
ghost use Rattle.std.specs.Prelude.{◌≡◌, IfOk, OnOk, OnErr, Result, is_some, string_bytes};
ghost use Rattle.pg_cache.specs.Cache.{cache_seen};
ghost use Rattle.pg_json.specs.Requests.{query as asked_query};
ghost use Rattle.pg_live.specs.Settled.{HasBegun};
ghost use Rattle.pg_meaning.specs.Graph.{Graph};
ghost use Rattle.pg_meaning.specs.Queries.{Outcome, under_plan};
ghost use Rattle.pg_meaning.specs.declared.fault.Fault.{Fault as Refusal};
ghost use Rattle.pg_names.specs.Names.{KeepsNames};
ghost use Rattle.pg_plan.specs.Plans.{plan_anchors, plan_query};
ghost use Rattle.pg_tenant.specs.Answers.{shown_if_fitting};
ghost use Rattle.pg_tenant.specs.Changes.{IsNoRefusal, may_change as asked_change, reply_in};
ghost use Rattle.pg_tenant.specs.Indexes.{indexes_of};
ghost use Rattle.pg_tenant.specs.Listed.{KeepsListed};
ghost use Rattle.pg_tenant.specs.LookUps.{FindsPlan, LooksUp, text_key};
ghost use Rattle.pg_tenant.specs.Replies.{IsAnswer, IsShown};
ghost use Rattle.pg_tenant.specs.Step.{AddsNames, KeepsOthers, RunsPlan, Serves, reply_of};
ghost use Rattle.pg_tenant.specs.TenantStates.{state_over};
ghost use Rattle.pg_value_core.specs.Given.{parameters_view};

use crate::early::{may_change, test_early};
use crate::headroom::with_headroom;
use crate::noted::{Noted, with_note};
use crate::tenant::Tenant;
use pg_cache::PlanCache;
use pg_expr::QueryContext;
use pg_graph::Tables;
use pg_json::{QueryReply, ReplyBytes};
use pg_live::LiveGraph;
use pg_meaning::Fault;
use pg_meter::Meter;
use pg_pages::Pages;
use pg_plan::{Plan, check_length};
use pg_run::{PlannedQuery, answer_clauses};
use pg_value_core::Parameters;
use std::alloc::Global;
use std::hash::RandomState;
use std::rc::Rc;

/// What a query is asked with beside its text: the token, the parameters, and how many rows a page has, if it is to be given page by page.
#[derive(Drop)]
pub(crate) struct Asked {
    pub(crate) token: String,
    pub(crate) parameters: Parameters,
    pub(crate) page: Option<u64>,
}

impl Tenant {
    /// The reply to a query, where no other token has a transaction open.
    pub(crate) fn query<T: Tables>(
        &mut self,
        alloc: Global,
        live: &mut LiveGraph<T>,
        cache: &mut PlanCache<RandomState>,
        text: String,
        asked: Asked,
    ) -> Result<Noted, Fault>
        requires begun { HasBegun live.old }
        ensures serves { Serves self.old self.new live.old live.new
            (asked_query (string_bytes asked.token)
            (string_bytes text) (parameters_view asked.parameters) asked.page) (reply_in result) }
        ensures cache { LooksUp
            (text_key (state_over self.old live.old) (asked_query (string_bytes asked.token)
            (string_bytes text) (parameters_view asked.parameters) asked.page))
            (reply_of (reply_in result)) (cache_seen cache.old) (cache_seen cache.new) }
        ensures told { IfOk result (λ noted. noted.changes ≡ asked_change
            (asked_query (string_bytes asked.token)
            (string_bytes text) (parameters_view asked.parameters) asked.page)) }
    {
        self.test_page(live, asked.page)?;
        let plan = self.plan_of(alloc, cache, text)?;
        let changes = may_change(asked.page, &plan);
        with_note(self.answer_plan(alloc, live, &plan, asked), changes)
    }

    /// The plan of a query's text for the tenant's indexes.
    fn plan_of(
        &self,
        alloc: Global,
        cache: &mut PlanCache<RandomState>,
        text: String,
    ) -> Result<Rc<Plan>, Fault>
        ensures { FindsPlan (string_bytes text)
            (indexes_of self.now.indexes) result (cache_seen cache.old) (cache_seen cache.new) }
    {
        check_length(text.as_str())?;
        let indexes = self.indexes.clone()?;
        cache.plan_for(alloc, text, indexes)
    }

    /// The reply to a query under its plan over the graph at work. What it changes is kept, and its later rows are held, only once the
    /// reply's bytes are made.
    fn answer_plan<T: Tables>(
        &mut self,
        alloc: Global,
        live: &mut LiveGraph<T>,
        plan: &Plan,
        asked: Asked,
    ) -> Result<ReplyBytes, Fault>
        requires begun { HasBegun live.old }
        ensures answers { RunsPlan
            (string_bytes asked.token) plan.now (parameters_view asked.parameters) asked.page
            (state_over self.old live.old) result (state_over self.new live.new) }
        ensures names { AddsNames (reply_of result) live.old.names live.new.names }
        ensures others { KeepsOthers live.old live.new }
        ensures listed { KeepsListed self.old self.new live.old live.new }
        ensures settings { self.new.settings ≡ self.old.settings }
        ensures accepted { IfOk result IsNoRefusal }
    {
        // no memory is asked for before these tests are passed
        test_early(
            self.settings.may_write(asked.token.as_str()),
            &asked.parameters,
            plan,
        )?;
        let query = QueryContext {
            alloc,
            parameters: &asked.parameters,
            max_elements: self.settings.max_elements(),
        };
        let reply = run_query(
            &query,
            live,
            self.settings.max_steps(),
            plan,
            asked.page.is_some(),
        );
        let reply = with_headroom(alloc, plan, reply);
        let reply = shown(
            alloc,
            &mut self.pages,
            self.settings.max_held(),
            asked,
            reply,
        );
        settled(live, reply)
    }
}

/// The reply to a query with all its rows, whose changes are in the graph. After an error it is to be taken back. `notes` tells whether
/// the ends of the rows are noted.
fn run_query<T: Tables>(
    query: &QueryContext<'_>,
    live: &mut LiveGraph<T>,
    max_steps: u64,
    plan: &Plan,
    notes: bool,
) -> Result<QueryReply, Fault>
    ensures answers { IsAnswer notes result
        (under_plan (plan_anchors plan.now) (plan_query plan.now)
        (parameters_view query.now.parameters.now) live.old.graph max_steps query.now.max_elements)
        live.new.graph }
    ensures aside { live.new.aside ≡ live.old.aside }
{
    let mut meter = Meter::new(max_steps);
    let planned = PlannedQuery {
        clauses: plan.query().clauses.as_slice(),
        anchors: plan.anchors().as_slice(),
        returns: plan.returns(),
        notes,
    };
    answer_clauses(query, &planned, live, &mut meter)
}

/// The reply as it is asked for: all rows, or the first of them while the others are held.
fn shown(
    alloc: Global,
    pages: &mut Pages,
    max_held: u64,
    asked: Asked,
    reply: Result<QueryReply, Fault>,
) -> Result<ReplyBytes, Fault>
    ensures { (outcome : Result Outcome Refusal) (left : Graph)
        → IsAnswer (is_some asked.page) reply outcome left
        → IsShown result (shown_if_fitting pages.old max_held
        (string_bytes asked.token) asked.page outcome) left pages.old pages.new }
{
    let reply = reply?;
    match asked.page {
        None => Ok(reply.whole()),
        Some(size) => pages.hold(alloc, max_held, asked.token, size as usize, reply),
    }
}

/// The reply as it is. What was done since the begin stays only where there is one.
fn settled<T: Tables>(
    live: &mut LiveGraph<T>,
    reply: Result<ReplyBytes, Fault>,
) -> Result<ReplyBytes, Fault>
    ensures reply { result ≡ reply }
    ensures kept { OnOk result (live.new.graph ≡ live.old.graph) }
    ensures undone { OnErr result (live.new.graph ≡ live.old.aside.begun) }
    ensures names { OnErr result (live.new.names ≡ live.old.aside.names) }
    ensures grown { KeepsNames live.old.aside.names live.new.names }
    ensures others { live.new.aside.others ≡ live.old.aside.others }
    ensures place { live.new.aside.place ≡ live.old.aside.place }
    ensures begins { live.new.aside.begins ≡ live.old.aside.begins }
    ensures pairs { live.new.aside.pairs ≡ live.old.aside.pairs }
{
    if reply.is_err() {
        live.undo();
    } else {
        live.commit();
    }
    reply
}
