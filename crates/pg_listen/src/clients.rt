//! All clients of one service.
ghost use Rattle.std.specs.Prelude.{◌≡◌, [], IfOk};
ghost use Rattle.pg_listen.specs.Clients.{AllMoveOn, AllStand, Keeps, Rests};
ghost use Rattle.pg_listen.specs.Courses.{Does};
ghost use Rattle.pg_listen.specs.Listens.{Serves};

use crate::client::Client;
use crate::frames::code_of;
use crate::limits::Limits;
use crate::network::{Closing, Network, ReplyNote, Signal};
use crate::service::Service;
use crate::tenants::Tenants;
use crate::turn::{Allowance, turn};
use std::alloc::{AllocError, Global};
use std::collections::HashMap;

/// So many clients are accepted before others have their turn.
const ACCEPTED_AT_ONCE: u32 = 64;

/// How the service of clients ended.
#[derive(Clone, Copy)]
pub enum ListenEnd {
    /// No more clients were wanted, and none is left.
    Stopped,
    /// As many steps were taken as were asked for.
    Enough,
    /// The network can't go on.
    Failed,
    /// What was answered can't be kept, and so nothing more was sent.
    NotKept,
    NoMemory,
}

#[derive(Drop)]
pub(crate) struct Clients {
    limits: Limits,
    by_number: HashMap<u64, Client>,
    // the number of the next client
    next: u64,
    tenants: Tenants,
    allowance: Allowance,
    stopping: bool,
    // when those that are left are closed
    until: u64,
    // a client may wait to be accepted
    waits: bool,
    // the network can't go on
    failed: bool,
    // what was answered can't be kept
    not_kept: bool,
    // what waits to be kept has waited as long as it may
    is_due: bool,
    // when that is so again
    due: u64,
}

impl Clients {
    fn new(alloc: Global, limits: Limits) -> Result<Clients, AllocError>
        ensures { IfOk result (λ clients. AllStand [] clients) }
    {
        let allowance = Allowance::new(alloc)?;
        let mut tenants = Tenants::new(alloc, limits);
        tenants.sessions.leave_first(limits.left_open)?;
        Ok(Clients {
            limits,
            by_number: HashMap::new(alloc),
            next: 0,
            tenants,
            allowance,
            stopping: false,
            until: 0,
            waits: false,
            failed: false,
            not_kept: false,
            is_due: false,
            due: 0,
        })
    }

    /// Accepts a client, if there is one and room for it.
    fn accept<N: Network>(&mut self, net: &mut N) -> bool
        ensures { Rests (N.trace net.old) (N.trace net.new) self.old self.new }
    {
        if self.stopping || self.limits.clients <= self.by_number.len() || self.next == u64::MAX {
            self.waits = true;
            return false;
        }
        let number = self.next;
        if !net.accept(number) {
            self.waits = false;
            return false;
        }
        self.next = number + 1;
        let client = Client::new(self.allowance.alloc, net.now());
        match self.by_number.insert(number, client) {
            Ok(_) => true,
            Err(_) => {
                net.close(number, Closing::NoMemory);
                false
            }
        }
    }

    fn accept_all<N: Network>(&mut self, net: &mut N)
        ensures { Rests (N.trace net.old) (N.trace net.new) self.old self.new }
    {
        for _accepted in 0..ACCEPTED_AT_ONCE {
            if !self.accept(net) {
                return;
            }
        }
        self.waits = true;
    }

    fn close<N: Network>(&mut self, net: &mut N, number: u64, why: Closing)
        ensures { Rests (N.trace net.old) (N.trace net.new) self.old self.new }
    {
        forget(self.by_number.remove(&number), number, &mut self.tenants);
        net.close(number, why);
    }

    /// Gives a client a turn.
    fn give_turn(&mut self, number: u64) -> Result<(), AllocError>
        ensures { Keeps self.old self.new }
    {
        let Some(client) = self.by_number.get_mut(&number) else {
            return Ok(());
        };
        client.give_turn(number, &mut self.tenants)
    }

    fn give_turn_or_close<N: Network>(&mut self, net: &mut N, number: u64)
        ensures { Rests (N.trace net.old) (N.trace net.new) self.old self.new }
    {
        if self.give_turn(number).is_err() {
            self.close(net, number, Closing::NoMemory);
        }
    }

    /// A client's turn.
    fn serve<N: Network, S: Service>(&mut self, net: &mut N, service: &mut S, number: u64)
        ensures { AllMoveOn (Does S.answers S.settles S.all_kept) S.is_own
            (N.trace net.old) (N.trace net.new) service.old service.new self.old self.new }
    {
        let Some(client) = self.by_number.get_mut(&number) else {
            return;
        };
        match turn(
            client,
            number,
            net,
            service,
            &mut self.tenants,
            &mut self.allowance,
        ) {
            Ok(()) => {}
            Err(why) => {
                forget(self.by_number.remove(&number), number, &mut self.tenants);
                net.close(number, why);
            }
        }
    }

    /// The clients that are to be closed now, and why.
    fn unwanted(&self, now: u64) -> Result<Vec<(u64, Closing)>, AllocError> {
        let mut found = Vec::new(self.allowance.alloc);
        for (number, client) in self.by_number.iter() {
            if client.is_late(now, &self.limits) {
                found.push((*number, Closing::Late))?;
            } else if self.stopping && (client.is_done() || self.until < now) {
                found.push((*number, Closing::Stopped))?;
            }
        }
        Ok(found)
    }

    fn close_unwanted<N: Network>(&mut self, net: &mut N)
        ensures { Rests (N.trace net.old) (N.trace net.new) self.old self.new }
    {
        // (without memory they stay until the next time)
        if let Ok(found) = self.unwanted(net.now()) {
            for (number, why) in &found {
                self.close(net, *number, *why);
            }
        }
    }

    /// The client for which most bytes of replies wait.
    fn largest(&self) -> Option<u64> {
        let mut most = 0;
        let mut found = None;
        for (number, client) in self.by_number.iter() {
            if most < client.waiting() {
                most = client.waiting();
                found = Some(*number);
            }
        }
        found
    }

    /// Closes those for which most bytes wait, until no more wait than may.
    fn close_largest<N: Network>(&mut self, net: &mut N)
        ensures { Rests (N.trace net.old) (N.trace net.new) self.old self.new }
    {
        for _closed in 0..self.limits.clients {
            if !self.tenants.is_full() {
                return;
            }
            let Some(number) = self.largest() else {
                return;
            };
            self.close(net, number, Closing::TooMuchWaiting);
        }
    }

    fn tick<N: Network>(&mut self, net: &mut N)
        ensures { Rests (N.trace net.old) (N.trace net.new) self.old self.new }
    {
        self.waits = true;
        self.close_unwanted(net);
        self.close_largest(net);
        self.tenants.release_all();
        self.tenants.sessions.try_again();
        self.note_due(net.now());
    }

    fn note_due(&mut self, now: u64)
        ensures { Keeps self.old self.new }
    {
        if self.due <= now {
            self.is_due = true;
            self.due = now.saturating_add(self.limits.delay);
        }
    }

    /// Whether what waits is to be kept before anything else is done.
    fn must_write(&self, unsettled: usize) -> bool {
        self.tenants.must_write(unsettled) || (self.is_due && unsettled > 0)
    }

    fn numbers(&self) -> Result<Vec<u64>, AllocError> {
        let mut numbers = Vec::with_capacity(self.allowance.alloc, self.by_number.len())?;
        for (number, _) in self.by_number.iter() {
            numbers.push(*number)?;
        }
        Ok(numbers)
    }

    /// Accepts no more clients, and gives each a turn, in which what has come is read for the last time.
    fn stop<N: Network>(&mut self, net: &mut N)
        ensures { Rests (N.trace net.old) (N.trace net.new) self.old self.new }
    {
        self.stopping = true;
        self.allowance.stop();
        self.until = net.now().saturating_add(self.limits.patience);
        net.stop();
        if let Ok(numbers) = self.numbers() {
            for number in &numbers {
                self.give_turn_or_close(net, *number);
            }
        }
    }

    fn handle<N: Network>(&mut self, net: &mut N, signal: Signal)
        ensures { Rests (N.trace net.old) (N.trace net.new) self.old self.new }
    {
        match signal {
            Signal::Nothing => self.allowance.renew(self.tenants.are_several()),
            Signal::Ready(number) => self.give_turn_or_close(net, number),
            Signal::Arrival => self.accept_all(net),
            Signal::Tick => self.tick(net),
            Signal::Stop => self.stop(net),
            Signal::Failed => self.failed = true,
        }
    }

    /// Where no more clients are wanted and none has a turn to come, closes those that wait for nothing.
    fn settle<N: Network>(&mut self, net: &mut N)
        ensures { Rests (N.trace net.old) (N.trace net.new) self.old self.new }
    {
        if self.stopping && self.tenants.is_empty() {
            self.close_unwanted(net);
        } else if self.waits && self.by_number.len() < self.limits.clients {
            self.accept_all(net);
        }
    }

    /// Asks the network what is to be done.
    fn look<N: Network>(&mut self, net: &mut N)
        ensures { Rests (N.trace net.old) (N.trace net.new) self.old self.new }
    {
        self.settle(net);
        let signal = net.next(self.tenants.is_empty() && !self.is_over());
        self.handle(net, signal);
    }

    /// Whether no more clients are wanted, none is left, and no transaction that one of them began.
    fn is_over(&self) -> bool {
        self.stopping && self.by_number.is_empty() && !self.tenants.sessions.is_due()
    }

    /// The client whose turn it is, unless the network is to be asked first.
    fn next_turn(&mut self) -> Option<u64>
        ensures { Keeps self.old self.new }
    {
        if !self.allowance.take_turn() {
            return None;
        }
        self.tenants.pop()
    }

    /// The place of a tenant whose transaction is open behind the client that began it.
    fn next_left(&mut self) -> Option<usize>
        ensures { Keeps self.old self.new }
    {
        self.tenants.sessions.next_left()
    }

    /// Has the transaction of a tenant rolled back, by a request as any other, whose reply goes to nobody.
    fn roll_back<N: Network, S: Service>(&mut self, net: &mut N, service: &mut S, place: usize)
        ensures { AllMoveOn (Does S.answers S.settles S.all_kept) S.is_own
            (N.trace net.old) (N.trace net.new) service.old service.new self.old self.new }
    {
        let Some(body) = service.rollback(place) else {
            let is_open = service.is_open(place);
            self.tenants.sessions.note_tried(place, is_open);
            return;
        };
        let began = net.now();
        let reply = service.answer(&body);
        let is_open = service.is_open(place);
        self.tenants.sessions.note_tried(place, is_open);
        let note = ReplyNote {
            code: code_of(reply.as_slice()),
            micros: net.now().saturating_sub(began),
        };
        net.note_rollback(place, &note);
    }

    /// Has kept what waits where no more may, or a transaction rolled back that was left, or else goes on, so that nothing else of it is
    /// answered meanwhile.
    fn step<N: Network, S: Service>(&mut self, net: &mut N, service: &mut S)
        ensures { AllMoveOn (Does S.answers S.settles S.all_kept) S.is_own
            (N.trace net.old) (N.trace net.new) service.old service.new self.old self.new }
    {
        if self.must_write(service.unsettled()) {
            self.keep_and_send(net, service);
            return;
        }
        match self.next_left() {
            Some(place) => self.roll_back(net, service, place),
            None => self.go_on(net, service),
        }
    }

    /// Takes one turn, or asks the network.
    fn go_on<N: Network, S: Service>(&mut self, net: &mut N, service: &mut S)
        ensures { AllMoveOn (Does S.answers S.settles S.all_kept) S.is_own
            (N.trace net.old) (N.trace net.new) service.old service.new self.old self.new }
    {
        if self.tenants.must_settle() {
            self.keep_and_send(net, service);
            return;
        }
        match self.next_turn() {
            Some(number) => self.serve(net, service, number),
            None => self.look(net),
        }
    }

    /// Has all kept that was answered, and then sends what was put off until it is.
    #[inline(never)]
    fn keep_and_send<N: Network, S: Service>(&mut self, net: &mut N, service: &mut S)
        ensures { AllMoveOn (Does S.answers S.settles S.all_kept) S.is_own
            (N.trace net.old) (N.trace net.new) service.old service.new self.old self.new }
    {
        if !service.settle() {
            self.not_kept = true;
            return;
        }
        self.is_due = false;
        self.allowance.set_only_sends(true);
        let numbers = self.tenants.take_put_off();
        for number in &numbers {
            self.serve(net, service, *number);
        }
        self.allowance.set_only_sends(false);
    }
}

/// Counts a client no longer that was removed.
fn forget(removed: Option<Client>, number: u64, tenants: &mut Tenants) {
    if let Some(client) = removed {
        client.leave(number, tenants);
    }
}

/// Serves clients until no more are wanted, or so many steps were taken.
pub(crate) fn listen<N: Network, S: Service>(
    alloc: Global,
    net: &mut N,
    service: &mut S,
    limits: Limits,
    steps: u64,
) -> ListenEnd
    ensures { Serves (Does S.answers S.settles S.all_kept) S.is_own
        (N.trace net.old) (N.trace net.new) service.old service.new }
{
    let Ok(mut clients) = Clients::new(alloc, limits) else {
        return ListenEnd::NoMemory;
    };
    for _step in 0..steps {
        clients.step(net, service);
        if clients.failed {
            return ListenEnd::Failed;
        }
        if clients.not_kept {
            return ListenEnd::NotKept;
        }
        if clients.is_over() {
            return ListenEnd::Stopped;
        }
    }
    ListenEnd::Enough
}
