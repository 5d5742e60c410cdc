//! What a tenant has and may have.
ghost use Rattle.std.specs.Prelude.{◌≡◌, ℕ, List, IfOk};
ghost use Rattle.pg_json.specs.Replies.{tenant_text};
ghost use Rattle.pg_json.specs.Requests.{status};
ghost use Rattle.pg_tenant.specs.Solo.{status_text};
ghost use Rattle.pg_tenant.specs.Step.{Serves};
ghost use Rattle.pg_tenant.specs.TenantStates.{state_over};

use crate::catalogue::copy_indexes;
use crate::tenant::Tenant;
use pg_graph::Tables;
use pg_json::{ReplyBytes, TenantStatus, write_status};
use pg_live::LiveGraph;
use pg_meaning::Fault;
use std::alloc::{AllocError, Global};

impl Tenant {
    /// The reply to a request for what the tenant has and may have.
    pub(crate) fn status<T: Tables>(
        &self,
        alloc: Global,
        live: &LiveGraph<T>,
    ) -> Result<ReplyBytes, Fault>
        ensures { (token : List ℕ)
            → Serves self.now self.now live.now live.now (status token) result }
    {
        let status = self.status_of(alloc, live)?;
        write_status(alloc, &status)
    }

    /// What the tenant has over the graph at work, and what it may have.
    fn status_of<T: Tables>(
        &self,
        alloc: Global,
        live: &LiveGraph<T>,
    ) -> Result<TenantStatus, AllocError>
        ensures { IfOk result
            (λ status. tenant_text status ≡ status_text (state_over self.now live.now)) }
    {
        let indexes = copy_indexes(alloc, self.indexes.list())?;
        let graph = live.graph();
        let next = graph.next_ids();
        Ok(TenantStatus {
            elements: graph.elements(),
            indexes,
            max_elements: self.settings.max_elements().most(),
            max_steps: self.settings.max_steps(),
            next_node: next.node,
            next_rel: next.rel,
        })
    }
}
