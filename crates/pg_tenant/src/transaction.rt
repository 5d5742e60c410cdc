//! The transaction of a tenant: one at most, of one of its tokens. The place of that token is kept with the graph.
ghost use Rattle.std.specs.Prelude.{◌≡◌};
ghost use Rattle.pg_json.specs.Requests.{begin, commit, rollback};
ghost use Rattle.pg_tenant.specs.Solo.{is_busy as seen_busy, end_tested};
ghost use Rattle.pg_tenant.specs.Step.{Serves};
ghost use Rattle.pg_tenant.specs.TenantStates.{state_over};

use crate::tenant::Tenant;
use pg_graph::Tables;
use pg_json::{ReplyBytes, done};
use pg_live::LiveGraph;
use pg_meaning::Fault;

impl Tenant {
    /// Whether another token has a transaction open.
    pub(crate) fn is_busy<T: Tables>(&self, live: &LiveGraph<T>, token: &str) -> bool
        ensures { result ≡ seen_busy (state_over self.now live.now).transaction token.now }
    {
        match live.holder() {
            Some(holder) => self.settings.token_at(holder) != token,
            None => false,
        }
    }

    /// Begins a transaction.
    pub(crate) fn begin<T: Tables>(
        &self,
        live: &mut LiveGraph<T>,
        token: &str,
    ) -> Result<ReplyBytes, Fault>
        ensures { Serves self.now self.now live.old live.new (begin token.now) result }
    {
        let Some(holder) = self.settings.writer(token) else {
            return Err(Fault::ReadOnly);
        };
        if live.holder().is_some() {
            return Err(Fault::TransactionOpen);
        }
        live.begin(holder);
        Ok(done())
    }

    /// Ends the transaction, and keeps what was done.
    pub(crate) fn commit<T: Tables>(
        &self,
        live: &mut LiveGraph<T>,
        token: &str,
    ) -> Result<ReplyBytes, Fault>
        ensures { Serves self.now self.now live.old live.new (commit token.now) result }
    {
        self.test_end(live, token)?;
        live.keep();
        Ok(done())
    }

    /// Ends the transaction, and takes back what was done.
    pub(crate) fn rollback<T: Tables>(
        &self,
        live: &mut LiveGraph<T>,
        token: &str,
    ) -> Result<ReplyBytes, Fault>
        ensures { Serves self.now self.now live.old live.new (rollback token.now) result }
    {
        self.test_end(live, token)?;
        live.roll_back();
        Ok(done())
    }

    /// Whether the token may end a transaction, and one is open.
    fn test_end<T: Tables>(&self, live: &LiveGraph<T>, token: &str) -> Result<(), Fault>
        ensures { result ≡ end_tested (state_over self.now live.now) token.now }
    {
        if !self.settings.may_write(token) {
            return Err(Fault::ReadOnly);
        }
        if live.holder().is_none() {
            return Err(Fault::NoTransaction);
        }
        Ok(())
    }
}
