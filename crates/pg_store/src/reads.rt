//! What is read of a tenant's graph.
ghost use Rattle.std.specs.Prelude.{◌≡◌, true, false, option_copied, IfSome, IfNone};
ghost use Rattle.std.specs.FinMap as map;
ghost use Rattle.pg_store.specs.Covers.{belongs, passes};
ghost use Rattle.pg_store.specs.Journal.{live};
ghost use Rattle.pg_store.specs.Stores.{state_of};
ghost use Rattle.pg_store.specs.Wanted.{wanted_key};

use crate::shared::Shared;
use crate::store::Store;
use crate::wanted::{Wanted, is_sought};
use pg_graph::{NodeRecord, RelRecord, Tables};
use pg_value_core::{NodeId, RelId};

impl<T: Tables> Store<T> {
    // The record of a node that is there.
    #[inline(always)]
    pub(crate) fn node<'a>(
        &'a self,
        shared: &'a Shared<T::Shared>,
        id: NodeId,
    ) -> Option<&'a NodeRecord>
        requires { T.seen.fits self.now.tables shared.now.tables }
        ensures { option_copied result
            ≡ map.get (live (state_of T.seen self.now shared.now)).nodes id.0 }
    {
        if self.gone_nodes.contains(id.0) {
            return None;
        }
        self.tables.node(&shared.tables, id)
    }

    // The record of a node that is there and is sought.
    pub(crate) fn sought<'a>(
        &'a self,
        shared: &'a Shared<T::Shared>,
        id: NodeId,
        wanted: &Wanted<'_>,
    ) -> Option<&'a NodeRecord>
        requires { T.seen.fits self.now.tables shared.now.tables }
        ensures there { IfSome result (λ node.
            map.get (live (state_of T.seen self.now shared.now)).nodes id.0 ≡ Some node.now) }
        ensures belongs { IfSome result (λ node. belongs (wanted_key wanted.now) node.now ≡ true) }
        ensures none { IfNone result (passes (belongs (wanted_key wanted.now))
            (live (state_of T.seen self.now shared.now)).nodes id.0 ≡ false) }
    {
        let node = self.node(shared, id)?;
        if is_sought(Some(node), wanted) {
            Some(node)
        } else {
            None
        }
    }

    // The record of a relationship that is there.
    #[inline(always)]
    pub(crate) fn rel<'a>(
        &'a self,
        shared: &'a Shared<T::Shared>,
        id: RelId,
    ) -> Option<&'a RelRecord>
        requires { T.seen.fits self.now.tables shared.now.tables }
        ensures { option_copied result
            ≡ map.get (live (state_of T.seen self.now shared.now)).rels id.0 }
    {
        if self.gone_rels.contains(id.0) {
            return None;
        }
        self.tables.rel(&shared.tables, id)
    }
}
