//! A client's turn: a few of its requests are answered, and bytes read and sent.
ghost use Rattle.std.specs.Prelude.{◌≡◌, false, ℕ, ⊤};
ghost use Rattle.pg_listen.specs.Client.{seen};
ghost use Rattle.pg_listen.specs.Courses.{Does};
ghost use Rattle.pg_listen.specs.Moves.{AnswersOn, CarriesOn, MovesOn};

use crate::client::Client;
use crate::frames::{Front, code_of, front_of, push_frame};
use crate::network::{Closing, Network, Received, ReplyNote, Sent};
use crate::service::Service;
use crate::tenants::Tenants;
use pg_json::{done, refusal};
use pg_meaning::Fault;
use std::alloc::{AllocError, Global};

/// So many bytes of replies may wait for one client before no more of its requests are answered.
const MOST_WAITING: usize = 65_536;

/// So often a client may be read or sent in a turn.
const ROUNDS: u32 = 4;

/// So many requests may be answered in a turn, and so many before the network is asked what else there is.
const REQUESTS: u32 = 16;

/// So many where several tenants ask, so that one that floods holds up what another one asks by few of its requests.
const SHARED_REQUESTS: u32 = 8;

/// After so many microseconds no more requests are answered in a turn.
const MICROSECONDS: u64 = 100;

/// So many turns may be taken before the network is asked.
const TURNS: u32 = 4;

/// So many where several tenants ask.
const SHARED_TURNS: u32 = 2;

/// So many bytes are read at once.
const SCRATCH: usize = 65_536;

/// How a step ended.
#[derive(Clone, Copy)]
pub(crate) enum TurnStep {
    /// There may be more to do.
    More,
    /// There is more to do, and the turn is over.
    Over,
    /// Nothing can be done now.
    Waits,
    /// There is more to do once fewer bytes of replies wait.
    Held,
    /// There is more to send once what was answered is kept.
    Unsettled,
}

/// What a turn may still use, and what turns may before the network is asked.
#[derive(Drop)]
pub(crate) struct Allowance {
    pub(crate) alloc: Global,
    scratch: Vec<u8>,
    // several tenants ask
    is_shared: bool,
    // no requests are answered in turns
    only_sends: bool,
    // no more clients are wanted, and no more of those that are there than what they have begun
    is_last: bool,
    // turns and requests before the network is asked
    turns: u32,
    requests_between: u32,
    // of the turn
    requests: u32,
    has_answered: bool,
    // bytes of replies
    room: usize,
    // when no more requests are answered
    until: u64,
    // what it was when that was last asked
    now: u64,
    // what was answered in the turn, at most as many as may be
    replies: Vec<ReplyNote>,
}

impl Allowance {
    pub(crate) fn new(alloc: Global) -> Result<Allowance, AllocError> {
        let scratch = zeros(alloc, SCRATCH)?;
        let replies = Vec::with_capacity(alloc, REQUESTS as usize)?;
        Ok(Allowance {
            alloc,
            scratch,
            is_shared: false,
            only_sends: false,
            is_last: false,
            turns: 0,
            requests_between: 0,
            requests: 0,
            has_answered: false,
            room: 0,
            until: 0,
            now: 0,
            replies,
        })
    }

    /// The network was asked, and several tenants ask now or one does.
    pub(crate) fn renew(&mut self, is_shared: bool) {
        self.is_shared = is_shared;
        self.turns = if is_shared { SHARED_TURNS } else { TURNS };
        self.requests_between = self.most_requests();
    }

    fn most_requests(&self) -> u32 {
        if self.is_shared {
            SHARED_REQUESTS
        } else {
            REQUESTS
        }
    }

    /// Takes a turn, unless the network is to be asked first.
    pub(crate) fn take_turn(&mut self) -> bool {
        if self.turns == 0 || self.requests_between == 0 {
            return false;
        }
        self.turns -= 1;
        true
    }

    /// Whether turns are for sending alone.
    pub(crate) fn set_only_sends(&mut self, only_sends: bool) {
        self.only_sends = only_sends;
    }

    /// From now on what has come is answered, and a frame that was begun, and no further one is read.
    pub(crate) fn stop(&mut self) {
        self.is_last = true;
    }

    /// At most how many bytes of a client are read now.
    fn reading(&self, client: &mut Client) -> usize
        ensures { seen client.new ≡ seen client.old }
    {
        if self.is_last {
            client.last_reading()
        } else {
            usize::MAX
        }
    }

    /// What a turn may use that begins now.
    fn begin(&mut self, now: u64, room: usize) {
        self.requests = if self.only_sends {
            0
        } else {
            self.most_requests()
        };
        self.has_answered = false;
        self.room = room;
        self.until = now.saturating_add(MICROSECONDS);
        self.replies.clear();
    }

    /// A round begins now.
    fn set_now(&mut self, now: u64) {
        self.now = now;
    }

    /// Whether one more request may be answered. The first one always may, where there is room for replies.
    fn has_request(&self) -> bool {
        self.room > 0 && self.requests > 0 && (!self.has_answered || self.now < self.until)
    }

    /// Where it ends, no more requests are answered in this turn.
    fn end_where(&mut self, ends: bool) {
        if ends {
            self.requests = 0;
        }
    }

    /// Takes down a reply.
    fn note(&mut self, reply: &[u8]) {
        // (there is room for as many as may be)
        let _ = self.replies.push(ReplyNote {
            code: code_of(reply),
            micros: 0,
        });
    }

    /// The request of the last reply was done now, and the replies grew by so many bytes.
    fn spend(&mut self, bytes: usize, now: u64) {
        self.has_answered = true;
        self.requests = self.requests.saturating_sub(1);
        self.requests_between = self.requests_between.saturating_sub(1);
        self.room = self.room.saturating_sub(bytes);
        if let Some(reply) = self.replies.last_mut() {
            reply.micros = now.saturating_sub(self.now);
        }
        self.now = now;
    }
}

// The length is a parameter, so that no proof computes a long list.
fn zeros(alloc: Global, len: usize) -> Result<Vec<u8>, AllocError> {
    Ok(vec![in alloc; 0u8; len]?)
}

/// Reads what is there.
fn receive<N: Network>(
    client: &mut Client,
    number: u64,
    net: &mut N,
    scratch: &mut [u8],
) -> Result<TurnStep, Closing>
    requires { client.old.refused ≡ false }
    ensures { CarriesOn ⊥ number
        (N.trace net.old) (N.trace net.new) (seen client.old) (seen client.new) result }
{
    match net.receive(number, scratch) {
        Received::Bytes(n) => match client.inbox.push(&scratch[..n]) {
            Ok(()) => Ok(TurnStep::More),
            Err(_) => Err(Closing::NoMemory),
        },
        Received::Waits => Ok(TurnStep::Waits),
        Received::Ended => Err(end_of(client)),
        Received::Failed => Err(Closing::Failed),
    }
}

/// Reads what is there, as far as it is still wanted.
fn read_wanted<N: Network>(
    client: &mut Client,
    number: u64,
    net: &mut N,
    allowance: &mut Allowance,
) -> Result<TurnStep, Closing>
    requires { client.old.refused ≡ false }
    ensures { CarriesOn ⊥ number
        (N.trace net.old) (N.trace net.new) (seen client.old) (seen client.new) result }
{
    let most = allowance.reading(client).min(allowance.scratch.len());
    if most == 0 {
        return Ok(TurnStep::Waits);
    }
    receive(client, number, net, &mut allowance.scratch[..most])
}

/// Why the connection of a client is closed that sends no more.
fn end_of(client: &Client) -> Closing {
    if client.is_idle() {
        Closing::Ended
    } else {
        Closing::Cut
    }
}

/// Notes who began the transaction that is open behind a request, or that none is. Of requests that are done those alone begin or end one
/// that are answered by no more than that.
fn note_transaction<S: Service>(
    number: u64,
    service: &S,
    tenants: &mut Tenants,
    body: &[u8],
    reply: &[u8],
) {
    if reply != done().as_slice() {
        return;
    }
    if let Some(place) = service.tenant(body) {
        // (without memory for it, what is begun stays open behind the connection)
        let is_open = service.is_open(place);
        let _ = tenants.sessions.note(place, number, is_open);
    }
}

/// Answers the frame in front, if it is whole.
fn answer<S: Service>(
    client: &mut Client,
    number: u64,
    service: &mut S,
    tenants: &mut Tenants,
    allowance: &mut Allowance,
) -> Result<TurnStep, Closing>
    requires { client.old.refused ≡ false }
    ensures { (c : ℕ)
        → AnswersOn (Does S.answers S.settles S.all_kept) c service.old service.new
        (seen client.old) (seen client.new) result }
{
    match front_of(client.inbox.front()) {
        Front::Partial => Ok(TurnStep::Waits),
        Front::TooLong => {
            client.refused = true;
            let reply = refusal(Fault::FrameTooLong);
            let text = reply.as_slice();
            allowance.note(text);
            match push_frame(&mut client.outbox, text) {
                Ok(()) => Ok(TurnStep::More),
                Err(_) => Err(Closing::NoMemory),
            }
        }
        Front::Body(n) => {
            let reply = service.answer(&client.inbox.front()[4..4 + n]);
            let text = reply.as_slice();
            note_transaction(
                number,
                service,
                tenants,
                &client.inbox.front()[4..4 + n],
                text,
            );
            client.inbox.skip(4 + n);
            allowance.note(text);
            match push_frame(&mut client.outbox, text) {
                Ok(()) => Ok(TurnStep::More),
                Err(_) => Err(Closing::NoMemory),
            }
        }
    }
}

/// Sends what waits, as far as it is taken.
fn send<N: Network>(client: &mut Client, number: u64, net: &mut N) -> Result<TurnStep, Closing>
    ensures { CarriesOn ⊤ number
        (N.trace net.old) (N.trace net.new) (seen client.old) (seen client.new) result }
{
    match net.send(number, client.outbox.front()) {
        Sent::Taken(n) => {
            client.outbox.skip(n);
            Ok(TurnStep::More)
        }
        Sent::Full => Ok(TurnStep::Waits),
        Sent::Failed => Err(Closing::Failed),
    }
}

/// Answers whole frames that are there, as many as may be. Says whether it has answered one.
fn answer_some<N: Network, S: Service>(
    client: &mut Client,
    number: u64,
    net: &N,
    service: &mut S,
    tenants: &mut Tenants,
    allowance: &mut Allowance,
) -> Result<bool, Closing>
    ensures { (c : ℕ)
        → AnswersOn (Does S.answers S.settles S.all_kept) c service.old service.new
        (seen client.old) (seen client.new) result }
{
    let mut any = false;
    for _answered in 0..REQUESTS {
        let waiting = client.outbox.len();
        if client.refused || MOST_WAITING <= waiting || !allowance.has_request() {
            return Ok(any);
        }
        match answer(client, number, service, tenants, allowance) {
            Ok(TurnStep::More) => any = true,
            Ok(_) => return Ok(any),
            Err(closing) => return Err(closing),
        }
        allowance.spend(client.outbox.len().saturating_sub(waiting), net.now());
        allowance.end_where(tenants.must_write(service.unsettled()));
        if !client.has_tenant() {
            return Ok(any);
        }
    }
    Ok(any)
}

/// Sends what waits, once all that was answered is kept; where nothing waits and no frame is whole, reads what is there.
fn transfer<N: Network, S: Service>(
    client: &mut Client,
    number: u64,
    net: &mut N,
    service: &S,
    allowance: &mut Allowance,
) -> Result<TurnStep, Closing>
    ensures { MovesOn (Does S.answers S.settles S.all_kept) number (N.trace net.old)
        (N.trace net.new) service.now service.now (seen client.old) (seen client.new) result }
{
    if client.outbox.len() > 0 {
        if !service.is_settled() {
            return Ok(TurnStep::Unsettled);
        }
        send(client, number, net)
    } else if client.refused {
        Err(Closing::TooLong)
    } else if !client.has_frame() {
        read_wanted(client, number, net, allowance)
    } else if allowance.room > 0 {
        Ok(TurnStep::Over)
    } else {
        Ok(TurnStep::Held)
    }
}

/// Answers what may be answered, and then sends or reads once.
fn round<N: Network, S: Service>(
    client: &mut Client,
    number: u64,
    net: &mut N,
    service: &mut S,
    tenants: &mut Tenants,
    allowance: &mut Allowance,
) -> Result<TurnStep, Closing>
    ensures { MovesOn (Does S.answers S.settles S.all_kept) number (N.trace net.old)
        (N.trace net.new) service.old service.new (seen client.old) (seen client.new) result }
{
    allowance.set_now(net.now());
    match answer_some(client, number, net, service, tenants, allowance) {
        Ok(any) => {
            client.note_time(any, allowance.now);
            transfer(client, number, net, service, allowance)
        }
        Err(closing) => Err(closing),
    }
}

/// Counts the client among its tenant's once it shows a token, and then goes on as `round` does. What it asks is answered
/// in its tenant's turn, so that new clients of one tenant don't hold those of another.
fn counted_round<N: Network, S: Service>(
    client: &mut Client,
    number: u64,
    net: &mut N,
    service: &mut S,
    tenants: &mut Tenants,
    allowance: &mut Allowance,
) -> Result<TurnStep, Closing>
    ensures { MovesOn (Does S.answers S.settles S.all_kept) number (N.trace net.old)
        (N.trace net.new) service.old service.new (seen client.old) (seen client.new) result }
{
    let had_tenant = client.has_tenant();
    match client.join(service, tenants) {
        Ok(()) => {
            allowance.end_where(had_tenant != client.has_tenant());
            round(client, number, net, service, tenants, allowance)
        }
        Err(closing) => Err(closing),
    }
}

/// Goes on until nothing can be done for now, or the turn is over.
fn rounds<N: Network, S: Service>(
    client: &mut Client,
    number: u64,
    net: &mut N,
    service: &mut S,
    tenants: &mut Tenants,
    allowance: &mut Allowance,
) -> Result<TurnStep, Closing>
    ensures { MovesOn (Does S.answers S.settles S.all_kept) number (N.trace net.old)
        (N.trace net.new) service.old service.new (seen client.old) (seen client.new) result }
{
    for _round in 0..ROUNDS {
        match counted_round(client, number, net, service, tenants, allowance) {
            Ok(TurnStep::More) => {}
            other => return other,
        }
    }
    Ok(TurnStep::Over)
}

/// The client's turn, of whose replies the network is told, and behind which it has another one where there is more to do.
pub(crate) fn turn<N: Network, S: Service>(
    client: &mut Client,
    number: u64,
    net: &mut N,
    service: &mut S,
    tenants: &mut Tenants,
    allowance: &mut Allowance,
) -> Result<(), Closing>
    ensures { MovesOn (Does S.answers S.settles S.all_kept) number (N.trace net.old)
        (N.trace net.new) service.old service.new (seen client.old) (seen client.new) result }
{
    client.take_turn(allowance.only_sends);
    allowance.begin(net.now(), client.room(tenants));
    let end = rounds(client, number, net, service, tenants, allowance);
    net.note(number, client.tenant(), &allowance.replies);
    match end {
        Ok(step) => end_turn(client, number, tenants, step),
        Err(closing) => Err(closing),
    }
}

/// Counts what waits for the client behind its turn, and gives it another one where there is more to do.
fn end_turn(
    client: &mut Client,
    number: u64,
    tenants: &mut Tenants,
    step: TurnStep,
) -> Result<(), Closing>
    ensures { seen client.new ≡ seen client.old }
{
    client.count(tenants);
    let given = match step {
        TurnStep::More | TurnStep::Over => client.give_turn(number, tenants),
        TurnStep::Held => client.hold(number, tenants),
        TurnStep::Unsettled => tenants.put_off(number),
        TurnStep::Waits => Ok(()),
    };
    client.release(tenants);
    given.map_err(|_| Closing::NoMemory)
}
