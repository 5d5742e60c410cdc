//! Whose turn is next: tenants take turns, and so do the clients of each. A tenant that asks for the first time in a
//! while comes before those that had turns meanwhile, once: then it stands behind them.
use crate::limits::Limits;
use crate::network::Closing;
use crate::sessions::Sessions;
use std::alloc::{AllocError, Global};
use std::collections::VecDeque;
use std::mem::replace;

/// So many turns may put off what they send before all that was answered is kept.
const MOST_PUT_OFF: usize = 64;

/// The clients of one tenant, or those that have shown no tenant's token.
#[derive(Drop)]
struct Group {
    clients: usize,
    // bytes of replies that these clients haven't taken
    waiting: usize,
    // the clients that have a turn to come, the next one first
    turns: VecDeque<u64>,
    // those whose requests wait until fewer bytes do
    held: VecDeque<u64>,
    // it stands in one of the orders
    is_ordered: bool,
}

/// The groups of clients. The first is of those that have shown no tenant's token.
#[derive(Drop)]
pub(crate) struct Tenants {
    alloc: Global,
    limits: Limits,
    groups: Vec<Group>,
    // the groups that had no turn since all others of the order had one, the next one first
    fresh: VecDeque<usize>,
    // the other ones, the next one first; one that has no turn to come leaves when it is its turn
    order: VecDeque<usize>,
    // how many clients have a turn to come
    turns: usize,
    // bytes of replies that no client has taken yet
    waiting: usize,
    // the clients that are sent what waits once all that was answered is kept
    unsent: Vec<u64>,
    pub(crate) sessions: Sessions,
}

/// Where the clients of a tenant stand, or those of none.
fn group_of(tenant: Option<usize>) -> usize {
    match tenant {
        Some(place) => place.saturating_add(1),
        None => 0,
    }
}

impl Tenants {
    pub(crate) fn new(alloc: Global, limits: Limits) -> Tenants {
        Tenants {
            alloc,
            limits,
            groups: Vec::new(alloc),
            fresh: VecDeque::new(alloc),
            order: VecDeque::new(alloc),
            turns: 0,
            waiting: 0,
            unsent: Vec::new(alloc),
            sessions: Sessions::new(alloc),
        }
    }

    /// The group of a tenant, made where it isn't there yet.
    fn group(&mut self, tenant: Option<usize>) -> Result<&mut Group, AllocError> {
        let at = group_of(tenant);
        for _made in self.groups.len()..at.saturating_add(1) {
            // (room for it in both orders, so that none of them lacks it when it is to stand there)
            self.fresh.reserve(self.groups.len().saturating_add(1))?;
            self.order.reserve(self.groups.len().saturating_add(1))?;
            self.groups.push(Group {
                clients: 0,
                waiting: 0,
                turns: VecDeque::new(self.alloc),
                held: VecDeque::new(self.alloc),
                is_ordered: false,
            })?;
        }
        self.groups.get_mut(at).ok_or(AllocError)
    }

    /// Counts a client that has shown a token of the tenant, if it may have one more.
    pub(crate) fn join(&mut self, tenant: usize) -> Result<(), Closing> {
        let most = self.limits.tenant_clients;
        match self.group(Some(tenant)) {
            Ok(group) if group.clients < most => {
                group.clients = group.clients.saturating_add(1);
                Ok(())
            }
            Ok(_) => Err(Closing::TooMany),
            Err(_) => Err(Closing::NoMemory),
        }
    }

    /// The client of a tenant is gone.
    pub(crate) fn leave(&mut self, tenant: Option<usize>, client: u64) {
        if let Some(group) = self.groups.get_mut(group_of(tenant)) {
            group.clients = group.clients.saturating_sub(1);
        }
        if !self.limits.keep_open {
            self.sessions.leave(client);
        }
    }

    /// Bytes of replies to a client of the tenant wait no longer, and these do.
    pub(crate) fn count(&mut self, tenant: Option<usize>, before: usize, after: usize) {
        self.waiting = self.waiting.saturating_sub(before).saturating_add(after);
        if let Some(group) = self.groups.get_mut(group_of(tenant)) {
            group.waiting = group.waiting.saturating_sub(before).saturating_add(after);
        }
    }

    /// Whether as many bytes wait, over all clients, as may.
    pub(crate) fn is_full(&self) -> bool {
        self.limits.waiting <= self.waiting
    }

    /// How many bytes of replies may still be made for the tenant's clients.
    pub(crate) fn room(&self, tenant: Option<usize>) -> usize {
        let of_all = self.limits.waiting.saturating_sub(self.waiting);
        match self.groups.get(group_of(tenant)) {
            Some(group) => of_all.min(self.limits.tenant_waiting.saturating_sub(group.waiting)),
            None => of_all,
        }
    }

    /// Gives a client of the tenant a turn, behind those of the tenant that have one to come.
    pub(crate) fn push(&mut self, tenant: Option<usize>, client: u64) -> Result<(), AllocError> {
        let at = group_of(tenant);
        let group = self.group(tenant)?;
        group.turns.push_back(client)?;
        if !group.is_ordered {
            group.is_ordered = true;
            if self.fresh.push_back(at).is_err() {
                // else the group would never come to its turn
                let group = self.group(tenant)?;
                group.is_ordered = false;
                let _ = group.turns.pop_back();
                return Err(AllocError);
            }
        }
        self.turns = self.turns.saturating_add(1);
        Ok(())
    }

    /// The client is sent what waits once all that was answered is kept.
    pub(crate) fn put_off(&mut self, client: u64) -> Result<(), AllocError> {
        self.unsent.push(client)?;
        Ok(())
    }

    /// Whether clients were put off, and either no other one has a turn to come or as many were as may be.
    pub(crate) fn must_settle(&self) -> bool {
        !self.unsent.is_empty() && (self.turns == 0 || MOST_PUT_OFF <= self.unsent.len())
    }

    /// Whether as many bytes wait to be kept as may.
    pub(crate) fn must_write(&self, unsettled: usize) -> bool {
        unsettled > 0 && self.limits.unsettled <= unsettled
    }

    /// The clients that were put off, which are no longer.
    pub(crate) fn take_put_off(&mut self) -> Vec<u64> {
        replace(&mut self.unsent, Vec::new(self.alloc))
    }

    /// The client whose turn it is.
    pub(crate) fn pop(&mut self) -> Option<u64> {
        for _left in 0..u32::MAX {
            let at = match self.fresh.pop_front() {
                Some(at) => at,
                None => self.order.pop_front()?,
            };
            if let Some(client) = self.pop_of(at) {
                self.turns = self.turns.saturating_sub(1);
                return Some(client);
            }
        }
        None
    }

    /// The client of a group whose turn it is; the group stands behind all others then, unless none has a turn to come.
    fn pop_of(&mut self, at: usize) -> Option<u64> {
        let group = self.groups.get_mut(at)?;
        let client = group.turns.pop_front();
        group.is_ordered = client.is_some() && self.order.push_back(at).is_ok();
        client
    }

    /// Gives a client of the tenant a turn once fewer bytes of replies wait.
    pub(crate) fn hold(&mut self, tenant: Option<usize>, client: u64) -> Result<(), AllocError> {
        self.group(tenant)?.held.push_back(client)?;
        Ok(())
    }

    /// Gives turns to the clients of the tenant that were held, where there is room for replies.
    pub(crate) fn release(&mut self, tenant: Option<usize>) {
        for _released in 0..u32::MAX {
            if self.room(tenant) == 0 {
                return;
            }
            let Some(client) = self.next_held(tenant) else {
                return;
            };
            if self.push(tenant, client).is_err() {
                let _ = self.hold(tenant, client);
                return;
            }
        }
    }

    fn next_held(&mut self, tenant: Option<usize>) -> Option<u64> {
        self.groups.get_mut(group_of(tenant))?.held.pop_front()
    }

    /// As `release`, for all tenants.
    pub(crate) fn release_all(&mut self) {
        self.release(None);
        for place in 0..self.groups.len() {
            self.release(Some(place));
        }
    }

    /// Whether several of the groups had a turn of late, or have one to come.
    pub(crate) fn are_several(&self) -> bool {
        self.fresh.len().saturating_add(self.order.len()) > 1
    }

    /// Whether no client has a turn to come.
    pub(crate) fn is_empty(&self) -> bool {
        self.turns == 0
    }
}
