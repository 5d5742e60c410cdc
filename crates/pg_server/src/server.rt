//! The server: tenants, and the requests that reach them.
ghost use Rattle.std.specs.Prelude.{◌≡◌, ◌<◌, ℕ, [], false, List, length, map, is_some, option_map, Some, None, IfOk, IfErr, IfSome};
ghost use Rattle.pg_cache.specs.Cache.{cache_seen};
ghost use Rattle.pg_json.specs.Bodies.{request_view};
ghost use Rattle.pg_json.specs.Requests.{token_of};
ghost use Rattle.pg_meaning.specs.Graph.{IsGraph};
ghost use Rattle.pg_server.specs.Changes.{Notes, TellsChange};
ghost use Rattle.pg_server.specs.Counts.{inner_of, faults_of};
ghost use Rattle.pg_server.specs.Handles.{AsksFor, Handles, HandlesFor, IsRead, IsUnread, is_at, key_asked, key_at, own_token, request_for, tenant_asked, token_for};
ghost use Rattle.pg_server.specs.Holds.{HoldTenants, shared_of};
ghost use Rattle.pg_server.specs.Runs.{asked};
ghost use Rattle.pg_server.specs.Served.{device, read_faults, write_faults};
ghost use Rattle.pg_server.specs.Serves.{Serves};
ghost use Rattle.pg_server.specs.Settings.{all_tokens};
ghost use Rattle.pg_server.specs.State.{opening_server, settings_of, state_at};
ghost use Rattle.pg_server.specs.Step.{Answers, StepAt, RepliesAt, place_of};
ghost use Rattle.pg_server.specs.Transactions.{RollsBack};
ghost use Rattle.pg_tenant.specs.Changes.{IsNoRefusal, may_change, reply_in};
ghost use Rattle.pg_tenant.specs.Holders.{holder_of};
ghost use Rattle.pg_tenant.specs.LookUps.{LooksUp};
ghost use Rattle.pg_tenant.specs.Settings.{standing_token};
ghost use Rattle.pg_tenant.specs.State.{is_open, opening};
ghost use Rattle.pg_tenant.specs.Step.{AddsNames, reply_of};
ghost use Rattle.pg_tenant.specs.TenantStates.{opening_state};
ghost use Rattle.pg_value.specs.Texts.{has_duplicate};

use crate::answered::{Answered, refused};
use crate::config::Config;
use crate::counted::Counted;
use crate::end::End;
use crate::service::{Service, serve};
use crate::shared::Shared;
use crate::tokens::TokenPlaces;
use crate::wire::MAX_BODY;
use pg_cache::PlanCache;
use pg_graph::Tables;
use pg_json::{ReplyBytes, RequestBody, RequestScratch, read_request, rollback_body};
use pg_live::LiveGraph;
use pg_meaning::Fault;
use pg_tenant::{Noted, Tenant, TenantSettings};
use std::alloc::{AllocError, Global};
use std::hash::RandomState;
use std::io::{Read, Write};
use std::marker::Model;

/// The tenants of a configuration, over what they share.
#[derive(Drop)]
pub struct Server<T: Tables> {
    alloc: Global,
    scratch: RequestScratch,
    cache: PlanCache<RandomState>,
    tokens: TokenPlaces,
    tenants: Vec<Tenant>,
    graphs: LiveGraph<T>,
}

impl<T: Tables> Model for Server<T> {
    ghost use Rattle.pg_cache.specs.Cache.{cache_seen};
    ghost use Rattle.pg_live.specs.Live.{graphs_of};
    ghost use Rattle.pg_server.specs.State.{ServerSeen};
    ghost use Rattle.pg_server.specs.StateCode.{server_code};
    ghost use Rattle.pg_server.specs.Tenants.{server_seen, AreTenants};

    ghost Value = { ServerSeen T.Shared };

    ghost coded = { server_code T.Shared.code };

    ghost view = { λ s. server_seen (cache_seen s.cache) s.tenants.items s.graphs };

    ghost invariant = { λ s.
        AreTenants s.tokens s.tenants.items (graphs_of s.graphs) s.graphs.aside.begins
        s.graphs.names s.graphs.aside.pairs };
}

impl<T: Tables> Server<T> {
    /// A server with the tenants of this configuration, each with the empty graph and no index. The hash tables of the names, of the kept
    /// plans, and of what queries tell apart (DISTINCT, groups) are keyed by `hasher`, so that nobody who sends requests can choose what falls
    /// together in them. No clause speaks of it, so no reply depends on it.
    pub fn new(alloc: Global, config: Config, hasher: RandomState) -> Result<Self, AllocError>
        ensures state { IfOk result (λ s. s.state ≡ opening_server config) }
        ensures unused { IfOk result (λ s. (owner : ℕ) → T.seen.is_unused owner s.tables) }
        ensures tenants { IfOk result (λ s. HoldTenants T.seen s) }
    {
        let (cache, settings) = config.into_parts();
        let cache = PlanCache::new(alloc, cache, hasher)?;
        let tokens = TokenPlaces::of(alloc, &settings)?;
        let graphs = LiveGraph::new(alloc, hasher, settings.len())?;
        let tenants = opening_tenants(alloc, settings)?;
        // which ensures of any live graph what is ensured here of its graphs
        let _ = graphs.shared();
        Ok(Server {
            alloc,
            scratch: RequestScratch::new(alloc),
            cache,
            tokens,
            tenants,
            graphs,
        })
    }

    /// What all tenants share: the plans that are kept, and the names and the part of the tables over which each tenant
    /// holds its graph.
    pub fn shared(&self) -> Shared<'_, T>
        ensures cache { cache_seen result.cache.now ≡ self.now.state.cache }
        ensures stores { result.stores.now ≡ shared_of self.now }
        ensures tenants { HoldTenants T.seen self.now }
    {
        Shared {
            cache: &self.cache,
            stores: self.graphs.shared(),
        }
    }

    /// Shows that each tenant's graph is one, and that no token is two tenants'.
    fn show_tenants(&self)
        ensures graphs { (t : ℕ) → IsGraph (state_at self.now.state t).graph }
        ensures distinct { has_duplicate [] (all_tokens (settings_of self.now.state)) ≡ false }
    {
        let _ = self.graphs.shared();
    }

    /// The place of the tenant whose token a body shows, if the body is a request and there is memory to read it.
    pub fn tenant_of(&self, body: &[u8]) -> Option<usize>
        ensures { IfSome result
            (λ place. tenant_asked self.now.state.tenants body.now ≡ Some place) }
    {
        match self.request_of(body) {
            Some(request) => self.place(request.token()),
            None => None,
        }
    }

    /// The request that a body is, if it is one and there is memory to read it.
    fn request_of(&self, body: &[u8]) -> Option<RequestBody>
        ensures { IfSome result (λ request. asked body.now ≡ Some (request_view request)) }
    {
        if body.len() > MAX_BODY {
            return None;
        }
        let mut scratch = RequestScratch::new(self.alloc);
        match read_request(self.alloc, &mut scratch, body) {
            Ok(request) => Some(request),
            Err(_) => None,
        }
    }

    /// Where the tenant with this token stands.
    fn place(&self, token: &str) -> Option<usize>
        ensures { result ≡ place_of token.now self.now.state.tenants }
    {
        self.tokens.place(token)
    }

    /// Answers one request, from a frame's body to a reply's body.
    pub fn handle(&mut self, body: &[u8]) -> ReplyBytes
        ensures handles { Handles self.old.state body.now result self.new.state }
        ensures tenants { HoldTenants T.seen self.new }
    {
        self.handle_noting(body).reply
    }

    /// Answers one request as `handle` does, and tells which tenant it may have changed: its graph, indexes, transaction or held rows.
    pub fn handle_noting(&mut self, body: &[u8]) -> Answered
        ensures handles { Handles self.old.state body.now result.reply self.new.state }
        ensures tenants { HoldTenants T.seen self.new }
        ensures told { TellsChange (asked body.now) result.reply (is_some result.changed) }
        ensures unchanged { result.changed ≡ None
            → self.new.state.tenants ≡ self.old.state.tenants }
        ensures place { IfSome result.changed
            (λ place. tenant_asked self.old.state.tenants body.now ≡ Some place) }
    {
        let answered = self.answer_body(body);
        // which ensures of any server what is ensured here of its tenants
        let _ = self.shared();
        answered
    }

    /// Answers one request for the tenant at a place, whose token it needn't show. In a transaction of that tenant, or where a page is pulled
    /// or dropped, it is asked with the token that holds this; else, where it shows none of that tenant's, with the one that stands for the
    /// tenant.
    pub fn handle_for(&mut self, place: usize, body: &[u8]) -> ReplyBytes
        ensures handles { HandlesFor place self.old.state body.now result self.new.state }
        ensures tenants { HoldTenants T.seen self.new }
    {
        let answered = self.answer_for(place, body);
        // as in `handle_noting`
        let _ = self.shared();
        answered.reply
    }

    fn answer_body(&mut self, body: &[u8]) -> Answered
        ensures handles { Handles self.old.state body.now result.reply self.new.state }
        ensures told { TellsChange (asked body.now) result.reply (is_some result.changed) }
        ensures unchanged { result.changed ≡ None
            → self.new.state.tenants ≡ self.old.state.tenants }
        ensures place { IfSome result.changed
            (λ place. tenant_asked self.old.state.tenants body.now ≡ Some place) }
    {
        match self.request_in(body) {
            Ok(request) => {
                self.show_tenants();
                self.answer_request(request)
            }
            Err(fault) => refused(fault),
        }
    }

    /// The request that a body is.
    fn request_in(&mut self, body: &[u8]) -> Result<RequestBody, Fault>
        ensures same { self.new.state ≡ self.old.state }
        ensures read { IfOk result (λ request. IsRead body.now (request_view request)) }
        ensures unread { IfErr result (λ fault. IsUnread body.now fault) }
    {
        if body.len() > MAX_BODY {
            return Err(Fault::FrameTooLong);
        }
        read_request(self.alloc, &mut self.scratch, body)
    }

    fn answer_for(&mut self, place: usize, body: &[u8]) -> Answered
        ensures { HandlesFor place self.old.state body.now result.reply self.new.state }
    {
        match self.request_in(body) {
            Ok(request) => {
                self.show_tenants();
                self.answer_request_for(place, request)
            }
            Err(fault) => refused(fault),
        }
    }

    fn answer_request_for(&mut self, place: usize, request: RequestBody) -> Answered
        ensures { AsksFor place self.old.state
            (request_view request) result.reply self.new.state }
    {
        match self.request_for(place, request) {
            Ok(request) => self.answer_request(request),
            Err(_) => refused(Fault::OutOfMemory),
        }
    }

    /// The request as the tenant at this place asks it.
    fn request_for(&self, place: usize, mut request: RequestBody) -> Result<RequestBody, AllocError>
        ensures { IfOk result (λ asked. request_view asked
            ≡ request_for place self.now.state.tenants (request_view request)) }
    {
        let shown = String::from_str(self.alloc, self.token_for(place, &request))?;
        request.set_token(shown);
        Ok(request)
    }

    /// The token with which the tenant at this place asks a request.
    fn token_for<'a>(&'a self, place: usize, request: &'a RequestBody) -> &'a str
        ensures { result.now
            ≡ token_for place self.now.state.tenants (request_view request.now) }
    {
        match self.holder_of(place, request) {
            Some(holder) => holder,
            None => self.own_token(place, request.token()),
        }
    }

    /// This token, if it is one of the tenant at this place, or else the one that stands for that tenant.
    fn own_token<'a>(&'a self, place: usize, shown: &'a str) -> &'a str
        ensures { result.now ≡ own_token place self.now.state.tenants shown.now }
    {
        if self.is_at(place, shown) {
            shown
        } else {
            self.standing_token(place)
        }
    }

    /// The token that holds what the tenant at this place goes on with by a request, where one does.
    fn holder_of(&self, place: usize, request: &RequestBody) -> Option<&str>
        ensures { option_map (λ t. t.now) result
            ≡ holder_of (state_at self.now.state place) (request_view request.now) }
    {
        match self.tenants.get(place) {
            Some(tenant) => tenant.holder_of(self.graphs.holder_at(place), request),
            None => None,
        }
    }

    /// Whether the tenant with this token stands at this place.
    fn is_at(&self, place: usize, token: &str) -> bool
        ensures { result ≡ is_at place (place_of token.now self.now.state.tenants) }
    {
        match self.place(token) {
            Some(found) => found == place,
            None => false,
        }
    }

    /// The token that stands for the tenant at this place, which is empty where there is none.
    fn standing_token(&self, place: usize) -> &str
        ensures { result.now ≡ standing_token (state_at self.now.state place).settings }
    {
        match self.tenants.get(place) {
            Some(tenant) => tenant.standing_token(),
            None => "",
        }
    }

    fn answer_request(&mut self, request: RequestBody) -> Answered
        ensures tenants { Answers self.old.state.tenants
            (request_view request) result.reply self.new.state.tenants }
        ensures cache { LooksUp (key_asked self.old.state.tenants (request_view request))
            result.reply self.old.state.cache self.new.state.cache }
        ensures names { AddsNames result.reply self.old.state.names self.new.state.names }
        ensures notes { Notes self.old.state.tenants
            (request_view request) result.reply (is_some result.changed) self.new.state.tenants }
        ensures place { IfSome result.changed (λ place.
            place_of (token_of (request_view request)) self.old.state.tenants ≡ Some place) }
    {
        match self.tokens.place(request.token()) {
            Some(place) => self.answer_at(place, request),
            None => refused(Fault::UnknownToken),
        }
    }

    fn answer_at(&mut self, place: usize, request: RequestBody) -> Answered
        requires { place < length self.old.state.tenants }
        ensures tenants { StepAt (Some place) self.old.state.tenants
            (request_view request) result.reply self.new.state.tenants }
        ensures cache { LooksUp (key_at place self.old.state.tenants (request_view request))
            result.reply self.old.state.cache self.new.state.cache }
        ensures names { AddsNames result.reply self.old.state.names self.new.state.names }
        ensures notes { Notes self.old.state.tenants
            (request_view request) result.reply (is_some result.changed) self.new.state.tenants }
        ensures place { IfSome result.changed (λ changed. changed ≡ place) }
    {
        match self.reply_at(place, request) {
            Ok(noted) => Answered {
                reply: noted.reply,
                changed: noted.changes.then_some(place),
            },
            Err(fault) => refused(fault),
        }
    }

    fn reply_at(&mut self, place: usize, request: RequestBody) -> Result<Noted, Fault>
        requires { place < length self.old.state.tenants }
        ensures tenants { RepliesAt place self.old.state.tenants
            (request_view request) (reply_in result) self.new.state.tenants }
        ensures cache { LooksUp (key_at place self.old.state.tenants (request_view request))
            (reply_of (reply_in result)) self.old.state.cache self.new.state.cache }
        ensures names { AddsNames
            (reply_of (reply_in result)) self.old.state.names self.new.state.names }
        ensures accepted { IfOk result (λ noted. IsNoRefusal noted.reply) }
        ensures told { IfOk result (λ noted. noted.changes ≡ may_change (request_view request)) }
    {
        self.graphs.turn_to(place);
        self.tenants[place].answer(self.alloc, &mut self.graphs, &mut self.cache, request)
    }

    /// Whether the tenant at this place has a transaction open.
    pub fn has_transaction(&self, place: usize) -> bool
        ensures { result ≡ is_open (state_at self.now.state place) }
    {
        self.graphs.holder_at(place).is_some()
    }

    /// The body of a request that rolls back the transaction that the tenant at this place has open, if there is memory for it. There is none
    /// where the token is so long that only a shorter request can show it.
    pub fn rollback_body(&self, place: usize) -> Option<Vec<u8>>
        ensures { IfSome result
            (λ body. RollsBack (state_at self.now.state place) (asked body.items)) }
    {
        let Some(holder) = self.graphs.holder_at(place) else {
            return None;
        };
        if place >= self.tenants.len() {
            return None;
        }
        let Some(body) = rollback_body(self.alloc, self.tenants[place].token_at(holder)) else {
            return None;
        };
        if body.len() > MAX_BODY {
            return None;
        }
        Some(body)
    }

    /// Serves at most so many frames, and answers each whole one by `handle`.
    pub fn run<R: Read, W: Write>(
        &mut self,
        reader: &mut Counted<R>,
        writer: &mut Counted<W>,
        max_frames: u64,
    ) -> End
        ensures serves { Serves
            (device (R.remaining (inner_of reader.old)) (R.remaining (inner_of reader.new)))
            (device (W.contents (inner_of writer.old)) (W.contents (inner_of writer.new)))
            self.old.state self.new.state max_frames result }
        ensures tenants { HoldTenants T.seen self.new }
        ensures read_faults { faults_of reader.new ≡ read_faults result (faults_of reader.old) }
        ensures write_faults { faults_of writer.new ≡ write_faults result (faults_of writer.old) }
    {
        let Ok(mut buffer) = zeros(self.alloc, MAX_BODY) else {
            // as in `handle`
            let _ = self.shared();
            return End::NoMemory;
        };
        let end = serve(self, reader, writer, &mut buffer, max_frames);
        let _ = self.shared();
        end
    }
}

impl<T: Tables> Service for Server<T> {
    ghost answers = { λ old body reply new. Handles old.state body reply new.state };

    fn answer(&mut self, body: &[u8]) -> ReplyBytes {
        self.handle(body)
    }
}

/// Each tenant with no index.
fn opening_tenants(alloc: Global, settings: Vec<TenantSettings>) -> Result<Vec<Tenant>, AllocError>
    ensures { IfOk result
        (λ tenants. map opening_state tenants.items ≡ map opening settings.items) }
{
    let mut tenants = Vec::with_capacity(alloc, settings.len())?;
    for one in settings {
        tenants.push(Tenant::new(alloc, one)?)?;
    }
    Ok(tenants)
}

// The length is a parameter, so that no proof computes a list of a million bytes.
fn zeros(alloc: Global, len: usize) -> Result<Vec<u8>, AllocError>
    ensures { IfOk result (λ v. length v.items ≡ len) }
{
    Ok(vec![in alloc; 0u8; len]?)
}
