//! A server answers again what was kept.
ghost use Rattle.std.specs.Prelude.{◌≡◌, ◌⊎◌, bytes_eq, Some, OnOk, IfErr};
ghost use Rattle.pg_json.specs.Refusals.{refusal_text};
ghost use Rattle.pg_journal.specs.Views.{kept};
ghost use Rattle.pg_listen.specs.Keeping.{Again, AnswersNamed, IsReplyOf};

use pg_graph::Tables;
use pg_journal::{FIRST_RECORD, JournalError, Replay, Reply, record_len};
use pg_json::{ReplyBytes, refusal};
use pg_meaning::Fault;
use pg_server::{Server, TenantNames};

/// Is told how far a start has come.
pub trait Watch {
    /// So many requests were answered again; the next one stands in the file at this byte.
    fn note(&mut self, requests: u64, at: u64);

    /// A request was passed over, since no tenant has this name.
    fn pass_over(&mut self, tenant: &[u8]);
}

/// How a request was answered before, and how it is now.
#[derive(Clone, Copy, Debug)]
pub struct Difference {
    pub before: Reply,
    pub now: Reply,
}

/// A server, and how far it has come in answering again.
#[derive(Drop)]
pub(crate) struct Answering<T: Tables, W: Watch> {
    pub(crate) server: Server<T>,
    pub(crate) names: TenantNames,
    pub(crate) watch: W,
    pub(crate) requests: u64,
    // where the next one stands in the file
    pub(crate) at: u64,
    // the token of the next one is no tenant's
    pub(crate) is_unknown: bool,
    pub(crate) difference: Option<Difference>,
}

impl<T: Tables, W: Watch> Answering<T, W> {
    pub(crate) fn new(server: Server<T>, names: TenantNames, watch: W) -> Self
        ensures server { result.server ≡ server }
        ensures names { result.names ≡ names }
    {
        Answering {
            server,
            names,
            watch,
            requests: 0,
            at: FIRST_RECORD as u64,
            is_unknown: false,
            difference: None,
        }
    }

    /// The reply for the tenant of this name, where there is one. Without a name it goes by the token.
    fn answer(&mut self, tenant: &[u8], body: &[u8]) -> Option<ReplyBytes>
        ensures answers { AnswersNamed self.old.names tenant.now
            self.old.server.state body.now result self.new.server.state }
        ensures names { self.new.names ≡ self.old.names }
    {
        if tenant.is_empty() {
            return Some(self.server.handle(body));
        }
        match self.names.place(tenant) {
            Some(place) => Some(self.server.handle_for(place, body)),
            None => None,
        }
    }

    /// Tests whether a reply is the one that was kept.
    fn test(
        &mut self,
        tenant: &[u8],
        body: &[u8],
        reply: Reply,
        again: &ReplyBytes,
    ) -> Result<(), JournalError>
        ensures same { OnOk result (IsReplyOf (kept tenant.now body.now reply) (Some again.now)) }
        ensures told { IfErr result (λ e. (e ≡ JournalError.Memory) ⊎ (e ≡ JournalError.Differs)) }
        ensures server { self.new.server ≡ self.old.server }
        ensures names { self.new.names ≡ self.old.names }
    {
        if is_refusal(again, Fault::OutOfMemory) {
            return Err(JournalError::Memory);
        }
        let now = Reply::of(again.as_slice());
        if now.length != reply.length || now.digest != reply.digest {
            self.is_unknown = is_refusal(again, Fault::UnknownToken);
            self.difference = Some(Difference { before: reply, now });
            return Err(JournalError::Differs);
        }
        Ok(())
    }

    /// One more was answered again, or passed over.
    fn go_on(&mut self, tenant: &[u8], body: &[u8], is_answered: bool)
        ensures server { self.new.server ≡ self.old.server }
        ensures names { self.new.names ≡ self.old.names }
    {
        self.at = self.at.saturating_add(record_len(tenant, body));
        if is_answered {
            self.requests = self.requests.saturating_add(1);
            self.watch.note(self.requests, self.at);
        } else {
            self.watch.pass_over(tenant);
        }
    }
}

fn is_refusal(reply: &ReplyBytes, fault: Fault) -> bool
    ensures { result ≡ bytes_eq reply.now (refusal_text fault) }
{
    reply.as_slice() == refusal(fault).as_slice()
}

impl<T: Tables, W: Watch> Replay for Answering<T, W> {
    ghost replays = { λ old k new. Again old.names old.server.state k new.server.state
        × (new.names ≡ old.names) };

    fn replay(&mut self, tenant: &[u8], body: &[u8], reply: Reply) -> Result<(), JournalError> {
        let again = self.answer(tenant, body);
        if let Some(again) = &again {
            self.test(tenant, body, reply, again)?;
        }
        self.go_on(tenant, body, again.is_some());
        Ok(())
    }
}
