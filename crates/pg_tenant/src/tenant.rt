//! A tenant: what it may use, its indexes, and what it answers.
ghost use Rattle.std.specs.Prelude.{◌≡◌, ◌≢◌, false, Option, option_map, IfOk, IfErr};
ghost use Rattle.pg_cache.specs.Cache.{cache_seen};
ghost use Rattle.pg_json.specs.Bodies.{request_view};
ghost use Rattle.pg_live.specs.Live.{Begun};
ghost use Rattle.pg_live.specs.Settled.{HasBegun};
ghost use Rattle.pg_meaning.specs.Graph.{Graph};
ghost use Rattle.pg_meaning.specs.declared.fault.Fault.TheVariants.{OutOfMemory};
ghost use Rattle.pg_tenant.specs.Changes.{IsNoRefusal, may_change, reply_in};
ghost use Rattle.pg_tenant.specs.Holders.{holder_of, page_holder};
ghost use Rattle.pg_tenant.specs.Listed.{KeepsListed};
ghost use Rattle.pg_tenant.specs.LookUps.{LooksUp, looked_up_key, text_key};
ghost use Rattle.pg_tenant.specs.Settings.{standing_token};
ghost use Rattle.pg_tenant.specs.State.{opening};
ghost use Rattle.pg_tenant.specs.Step.{AddsNames, Answers, KeepsOthers, Serves, reply_of, takes_memory};
ghost use Rattle.pg_tenant.specs.TenantStates.{opening_state, state_of, state_over, token_at};

use crate::noted::{Noted, with_note};
use crate::query::Asked;
use crate::settings::TenantSettings;
use pg_cache::{DigestedCatalogue, PlanCache};
use pg_graph::Tables;
use pg_json::RequestBody;
use pg_live::LiveGraph;
use pg_meaning::Fault;
use pg_pages::Pages;
use std::alloc::{AllocError, Global};
use std::hash::RandomState;
use std::rc::Rc;

/// What a tenant has beside its graph, which is the one at its place. Of a transaction it keeps nothing: its token and its begin stand
/// with the graph.
#[derive(Drop)]
pub struct Tenant {
    pub(crate) settings: TenantSettings,
    // kept plans share it
    pub(crate) indexes: Rc<DigestedCatalogue>,
    pub(crate) pages: Pages,
}

impl Tenant {
    /// A tenant with no index and no page.
    pub fn new(alloc: Global, settings: TenantSettings) -> Result<Tenant, AllocError>
        ensures settings { IfOk result (λ tenant. tenant.settings ≡ settings) }
        ensures opening { IfOk result (λ tenant. opening_state tenant ≡ opening settings) }
    {
        let indexes = Rc::new(alloc, DigestedCatalogue::new(Vec::new(alloc)))?;
        Ok(Tenant {
            settings,
            indexes,
            pages: Pages::new(alloc),
        })
    }

    /// The text of the token at this place among the tenant's, which is empty where there is none.
    pub fn token_at(&self, holder: usize) -> &str
        ensures { result.now ≡ token_at self.now.settings holder }
    {
        self.settings.token_at(holder)
    }

    /// The text of the token that stands for the tenant: the first that may write, or else the first; it is empty where there is none.
    pub fn standing_token(&self) -> &str
        ensures { result.now ≡ standing_token self.now.settings }
    {
        self.settings.standing_token()
    }

    /// The token that holds what a request of this tenant goes on with, where one does: the token at the place `holder`, where that one has a
    /// transaction open, or else the one of the page that the request names.
    pub fn holder_of(&self, holder: Option<usize>, request: &RequestBody) -> Option<&str>
        ensures { (graph : Graph) (begun : Option Begun) → holder ≡ option_map (λ b. b.holder) begun
            → option_map (λ t. t.now) result
            ≡ holder_of (state_of self.now graph begun) (request_view request.now) }
    {
        match holder {
            Some(place) => Some(self.token_at(place)),
            None => self.page_holder(request),
        }
    }

    /// The token of the page that a request pulls or drops, if there is such a page.
    fn page_holder(&self, request: &RequestBody) -> Option<&str>
        ensures { option_map (λ t. t.now) result
            ≡ page_holder self.now.pages (request_view request.now) }
    {
        match request {
            RequestBody::Pull { token: _, page } => self.pages.puller(*page),
            RequestBody::DropPage { token: _, page } => self.pages.puller(*page),
            _ => None,
        }
    }

    /// The reply to a request with a token of this tenant, over the graph at work. What is refused changes nothing; what a query changes is
    /// kept only once the reply's bytes are made.
    pub fn answer<T: Tables>(
        &mut self,
        alloc: Global,
        live: &mut LiveGraph<T>,
        cache: &mut PlanCache<RandomState>,
        request: RequestBody,
    ) -> Result<Noted, Fault>
        requires begun { HasBegun live.old }
        ensures answers { Answers (state_over self.old live.old) (request_view request)
            (reply_in result) (state_over self.new live.new) }
        ensures names { AddsNames (reply_of (reply_in result)) live.old.names live.new.names }
        ensures others { KeepsOthers live.old live.new }
        ensures listed { KeepsListed self.old self.new live.old live.new }
        ensures settings { self.new.settings ≡ self.old.settings }
        ensures cache { LooksUp
            (looked_up_key (state_over self.old live.old) (request_view request))
            (reply_of (reply_in result)) (cache_seen cache.old) (cache_seen cache.new) }
        // what begins or ends a transaction is never refused for want of memory
        ensures memory { takes_memory (request_view request) ≡ false
            → IfErr result (λ e. e ≢ OutOfMemory) }
        ensures accepted { IfOk result (λ noted. IsNoRefusal noted.reply) }
        ensures told { IfOk result (λ noted. noted.changes ≡ may_change (request_view request)) }
    {
        if self.is_busy(live, request.token()) {
            return Err(Fault::TenantBusy);
        }
        self.serve(alloc, live, cache, request)
    }

    /// The reply to a request, where no other token has a transaction open.
    fn serve<T: Tables>(
        &mut self,
        alloc: Global,
        live: &mut LiveGraph<T>,
        cache: &mut PlanCache<RandomState>,
        request: RequestBody,
    ) -> Result<Noted, Fault>
        requires begun { HasBegun live.old }
        ensures serves { Serves self.old self.new live.old live.new (request_view request)
            (reply_in result) }
        ensures cache { LooksUp (text_key (state_over self.old live.old) (request_view request))
            (reply_of (reply_in result)) (cache_seen cache.old) (cache_seen cache.new) }
        ensures told { IfOk result (λ noted. noted.changes ≡ may_change (request_view request)) }
    {
        match request {
            RequestBody::Query {
                token,
                text,
                parameters,
                page,
            } => {
                let asked = Asked {
                    token,
                    parameters,
                    page,
                };
                self.query(alloc, live, cache, text, asked)
            }
            RequestBody::Status { token: _ } => with_note(self.status(alloc, live), false),
            RequestBody::CreateIndex { token, label, key } => {
                let reply = self.create_index(
                    alloc,
                    live,
                    token.as_str(),
                    label.as_str(),
                    key.as_str(),
                );
                with_note(reply, true)
            }
            RequestBody::DropIndex { token, label, key } => {
                let reply = self.drop_index(
                    alloc,
                    live,
                    token.as_str(),
                    label.as_str(),
                    key.as_str(),
                );
                with_note(reply, true)
            }
            RequestBody::Begin { token } => with_note(self.begin(live, token.as_str()), true),
            RequestBody::Commit { token } => with_note(self.commit(live, token.as_str()), true),
            RequestBody::Rollback { token } => with_note(self.rollback(live, token.as_str()), true),
            RequestBody::Pull { token, page } => {
                with_note(self.pull(alloc, live, token.as_str(), page), true)
            }
            RequestBody::DropPage { token, page } => {
                with_note(self.drop_page(live, token.as_str(), page), true)
            }
        }
    }
}
