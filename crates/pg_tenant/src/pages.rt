//! Held rows: what pulls them and lets them go. In a transaction there is none of it.
ghost use Rattle.std.specs.Prelude.{◌≡◌};
ghost use Rattle.pg_json.specs.Requests.{drop_page, pull};
ghost use Rattle.pg_tenant.specs.Solo.{page_tested, pages_tested};
ghost use Rattle.pg_tenant.specs.Step.{Serves};
ghost use Rattle.pg_tenant.specs.TenantStates.{state_over};

use crate::tenant::Tenant;
use pg_graph::Tables;
use pg_json::{ReplyBytes, done};
use pg_live::LiveGraph;
use pg_meaning::Fault;
use std::alloc::Global;

impl Tenant {
    /// Whether a query may be given as it asks to be: all at once, or page by page, so many rows at a time.
    pub(crate) fn test_page<T: Tables>(
        &self,
        live: &LiveGraph<T>,
        page: Option<u64>,
    ) -> Result<(), Fault>
        ensures { result ≡ page_tested (state_over self.now live.now) page }
    {
        match page {
            None => Ok(()),
            Some(_) => self.test_pages(live),
        }
    }

    /// The next rows of a page of the token's.
    pub(crate) fn pull<T: Tables>(
        &mut self,
        alloc: Global,
        live: &LiveGraph<T>,
        token: &str,
        number: u64,
    ) -> Result<ReplyBytes, Fault>
        ensures { Serves self.old self.new live.now live.now (pull token.now number) result }
    {
        self.test_pages(live)?;
        self.pages.pull(alloc, token, number)
    }

    /// Lets a page of the token's go. It takes no memory.
    pub(crate) fn drop_page<T: Tables>(
        &mut self,
        live: &LiveGraph<T>,
        token: &str,
        number: u64,
    ) -> Result<ReplyBytes, Fault>
        ensures { Serves self.old self.new live.now live.now (drop_page token.now number) result }
    {
        self.test_pages(live)?;
        self.pages.drop_page(token, number)?;
        Ok(done())
    }

    /// Whether no transaction is open.
    fn test_pages<T: Tables>(&self, live: &LiveGraph<T>) -> Result<(), Fault>
        ensures { result ≡ pages_tested (state_over self.now live.now) }
    {
        if live.holder().is_some() {
            return Err(Fault::TransactionOpen);
        }
        Ok(())
    }
}
