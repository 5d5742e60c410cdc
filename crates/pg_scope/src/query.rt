//! Queries that have no static fault.
ghost use Rattle.std.specs.Prelude.{◌≡◌, ◌≢◌, None, Some, IfOk, IfErr, option_map};
ghost use Rattle.pg_meaning.specs.StaticFaults.{static_fault};
ghost use Rattle.pg_meaning.specs.declared.fault.Fault.TheVariants.{OutOfMemory};
ghost use Rattle.pg_scope.specs.Scoped.{scoped_query};
ghost use Rattle.pg_syntax_tree.specs.View.{query_view};

use crate::found::PlacedFault;
use crate::scoped::Scoped;
use crate::steps::through_clause;
use pg_meaning::Fault;
use pg_syntax_tree::Query;
use std::alloc::{AllocError, Global};
use std::collections::BTreeSet;

fn static_fault(alloc: Global, query: &Query) -> Result<Option<PlacedFault>, AllocError>
    ensures { IfOk result (λ found. found ≡ static_fault (query_view query.now)) }
{
    let mut scope = BTreeSet::new(alloc);
    let mut first = None;
    for clause in &query.clauses {
        let (found, names) = through_clause(alloc, scope, clause, first)?;
        first = found;
        scope = names;
    }
    Ok(first)
}

/// Refuses a query with its first static fault.
pub fn check(alloc: Global, query: Query) -> Result<Scoped, Fault>
    ensures ok { IfOk result
        (λ s. (scoped_query s ≡ query_view query) × (static_fault (query_view query) ≡ None)) }
    ensures err { IfErr result (λ e. e ≢ OutOfMemory
        → option_map (λ f. f.1) (static_fault (query_view query)) ≡ Some e) }
{
    match static_fault(alloc, &query) {
        Ok(None) => Ok(Scoped { query }),
        Ok(Some((_, fault))) => Err(fault),
        Err(AllocError) => Err(Fault::OutOfMemory),
    }
}
