//! Index requests of one tenant.
ghost use Rattle.std.specs.Prelude.{◌≡◌, ◌≢◌, IfOk, IfErr, Ok, Err, is_some};
ghost use Rattle.pg_json.specs.Requests.{create_index, drop_index};
ghost use Rattle.pg_plan.specs.Catalogue.{catalogue_view};
ghost use Rattle.pg_meaning.specs.declared.fault.Fault.TheVariants.{OutOfMemory};
ghost use Rattle.pg_tenant.specs.Indexes.{index_tested, indexes_of, with_one_less as one_less, with_one_more as one_more};
ghost use Rattle.pg_tenant.specs.State.{is_open};
ghost use Rattle.pg_tenant.specs.Settings.{may_write};
ghost use Rattle.pg_tenant.specs.Step.{Serves};
ghost use Rattle.pg_tenant.specs.TenantStates.{state_over};

use crate::catalogue::{MAX_INDEXES, is_indexed, with_index, without_index};
use crate::tenant::Tenant;
use pg_cache::DigestedCatalogue;
use pg_graph::Tables;
use pg_json::{ReplyBytes, done};
use pg_live::LiveGraph;
use pg_meaning::Fault;
use pg_plan::{Catalogue, check_length};
use std::alloc::Global;
use std::rc::Rc;

impl Tenant {
    /// Makes an index, or leaves everything as it was.
    pub(crate) fn create_index<T: Tables>(
        &mut self,
        alloc: Global,
        live: &mut LiveGraph<T>,
        token: &str,
        label: &str,
        key: &str,
    ) -> Result<ReplyBytes, Fault>
        ensures { Serves self.old self.new live.old live.new
            (create_index token.now label.now key.now) result }
    {
        self.test_index(live, token, label, key)?;
        let indexes = with_one_more(alloc, self.indexes.list(), label, key)?;
        live.add_index(alloc, label, key)?;
        self.indexes = indexes;
        Ok(done())
    }

    /// Keeps an index no longer, or leaves everything as it was.
    pub(crate) fn drop_index<T: Tables>(
        &mut self,
        alloc: Global,
        live: &mut LiveGraph<T>,
        token: &str,
        label: &str,
        key: &str,
    ) -> Result<ReplyBytes, Fault>
        ensures { Serves self.old self.new live.old live.new
            (drop_index token.now label.now key.now) result }
    {
        self.test_index(live, token, label, key)?;
        let indexes = with_one_less(alloc, self.indexes.list(), label, key)?;
        live.drop_index(label, key);
        self.indexes = indexes;
        Ok(done())
    }

    /// Whether the token's right, the transaction that may be open, the label and the key let the request be.
    fn test_index<T: Tables>(
        &self,
        live: &LiveGraph<T>,
        token: &str,
        label: &str,
        key: &str,
    ) -> Result<(), Fault>
        ensures { result
            ≡ index_tested (may_write self.now.settings token.now)
            (is_open (state_over self.now live.now)) label.now key.now }
    {
        if !self.settings.may_write(token) {
            return Err(Fault::ReadOnly);
        }
        if live.holder().is_some() {
            return Err(Fault::TransactionOpen);
        }
        check_length(label)?;
        check_length(key)
    }
}

/// The list with one more. Kept plans may share the old one.
fn with_one_more(
    alloc: Global,
    catalogue: &Catalogue,
    label: &str,
    key: &str,
) -> Result<Rc<DigestedCatalogue>, Fault>
    ensures ok { IfOk result (λ list.
        one_more (catalogue_view catalogue.now.items) label.now key.now ≡ Ok (indexes_of list)) }
    ensures err { IfErr result (λ e. e ≢ OutOfMemory
        → one_more (catalogue_view catalogue.now.items) label.now key.now ≡ Err e) }
{
    if is_indexed(catalogue, label, key) {
        return Err(Fault::IndexExists);
    }
    if catalogue.len() >= MAX_INDEXES {
        return Err(Fault::TooManyIndexes);
    }
    let indexes = with_index(alloc, catalogue, label, key)?;
    Ok(Rc::new(alloc, DigestedCatalogue::new(indexes))?)
}

/// The list with one less.
fn with_one_less(
    alloc: Global,
    catalogue: &Catalogue,
    label: &str,
    key: &str,
) -> Result<Rc<DigestedCatalogue>, Fault>
    ensures ok { IfOk result (λ list.
        one_less (catalogue_view catalogue.now.items) label.now key.now ≡ Ok (indexes_of list)) }
    ensures err { IfErr result (λ e. e ≢ OutOfMemory
        → one_less (catalogue_view catalogue.now.items) label.now key.now ≡ Err e) }
{
    if !is_indexed(catalogue, label, key) {
        return Err(Fault::NoSuchIndex);
    }
    let indexes = without_index(alloc, catalogue, label, key)?;
    Ok(Rc::new(alloc, DigestedCatalogue::new(indexes))?)
}
