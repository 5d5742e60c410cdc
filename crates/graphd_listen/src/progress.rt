//! What is told while the requests of a journal are answered again.
use pg_listen::Watch;

/// After so many requests it is told how far a start has come.
const TOLD_AT_ONCE: u64 = 1_000_000;

/// So many tenants that are gone are told by name.
const MOST_TOLD: usize = 16;

/// A tenant that the configuration doesn't have, and how many requests of it the journal has.
#[derive(Drop)]
struct Gone {
    name: String,
    requests: u64,
}

/// Tells how far a long start has come, and counts requests of tenants that are gone.
#[derive(Drop)]
pub(crate) struct Progress<'a> {
    rt: &'a HostRuntime,
    gone: Vec<Gone>,
    // requests of tenants that aren't among those
    further: u64,
}

impl<'a> Progress<'a> {
    pub(crate) fn new(rt: &'a HostRuntime) -> Progress<'a> {
        Progress {
            rt,
            gone: Vec::new(rt.alloc()),
            further: 0,
        }
    }

    /// Tells which tenants are gone. A name is escaped as in Rust's texts, so none can look like a line of its own.
    pub(crate) fn tell(&self) {
        for one in &self.gone {
            let (name, requests) = (one.name.as_str().escape_debug(), one.requests);
            let _ = println!(self.rt;
                "graphd_listen: tenant {name} is not in the configuration: {requests} requests of it stay in the journal"
            );
        }
        let further = self.further;
        if further > 0 {
            let _ = println!(self.rt;
                "graphd_listen: requests of further tenants that are not in the configuration: {further}"
            );
        }
    }

    /// The tenant of this name among those that are gone.
    fn of_name(&mut self, name: &[u8]) -> Option<&mut Gone> {
        self.gone.iter_mut().find(|one| one.name.as_bytes() == name)
    }

    /// Puts a tenant among those that are told by name, where there is room.
    fn put(&mut self, name: &[u8]) -> bool {
        let Ok(text) = simdutf8::basic::from_utf8(name) else {
            return false;
        };
        let Ok(name) = String::from_str(self.rt.alloc(), text) else {
            return false;
        };
        self.gone.len() < MOST_TOLD && self.gone.push(Gone { name, requests: 1 }).is_ok()
    }
}

impl<'a> Watch for Progress<'a> {
    fn note(&mut self, requests: u64, at: u64) {
        if requests % TOLD_AT_ONCE == 0 {
            let _ = println!(self.rt;
                "graphd_listen: answered {requests} requests of the journal so far, up to byte {at}"
            );
        }
    }

    fn pass_over(&mut self, tenant: &[u8]) {
        if let Some(one) = self.of_name(tenant) {
            one.requests = one.requests.saturating_add(1);
            return;
        }
        if !self.put(tenant) {
            self.further = self.further.saturating_add(1);
        }
    }
}
