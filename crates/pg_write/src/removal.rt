//! Elements taken out of a store: relationships, and then nodes that have none.
ghost use Rattle.std.specs.Prelude.{◌≡◌, ◌≢◌, [], IsTrue, OnOk, IfErr, Ok, Err};
ghost use Rattle.std.specs.List.{AllByRecursion};
ghost use Rattle.pg_meaning.specs.Graph.{both, has_node, has_relationship, incident, remove_elements};
ghost use Rattle.pg_meaning.specs.Updates.{test_unconnected};
ghost use Rattle.pg_meaning.specs.declared.fault.Fault.TheVariants.{OutOfMemory};
ghost use Rattle.pg_write.specs.Gathered.{taken_out, AreThere, Rises};

use crate::pending_deletes::PendingDeletes;
use pg_graph::Tables;
use pg_live::LiveGraph;
use pg_meaning::Fault;
use pg_store::GraphView;
use pg_value_core::{NodeId, RelId};
use std::alloc::AllocError;
use std::collections::BTreeSet;

// Whether none of the nodes has a relationship.
fn test_unconnected<T: Tables>(graph: &GraphView<'_, T>, nodes: &BTreeSet<u64>) -> Result<(), Fault>
    ensures { result ≡ test_unconnected graph.now nodes.now.keys }
{
    for node in nodes {
        if graph.incident(NodeId(*node)).next().is_some() {
            return Err(Fault::NodeStillConnected);
        }
    }
    Ok(())
}

fn remove_rels<T: Tables>(live: &mut LiveGraph<T>, rels: &BTreeSet<u64>) -> Result<(), AllocError>
    requires there { AllByRecursion
        (λ r. IsTrue (has_relationship live.old.graph r)) rels.now.keys }
    requires rises { Rises rels.now.keys }
    ensures removed { OnOk result
        (live.new.graph ≡ remove_elements [] rels.now.keys live.old.graph) }
    ensures names { live.new.names ≡ live.old.names }
    ensures tables { live.new.tables ≡ live.old.tables }
    ensures aside { live.new.aside ≡ live.old.aside }
{
    for rel in rels {
        live.remove_rel(RelId(*rel))?;
    }
    Ok(())
}

fn remove_nodes<T: Tables>(live: &mut LiveGraph<T>, nodes: &BTreeSet<u64>) -> Result<(), AllocError>
    requires there { AllByRecursion (λ n. IsTrue (has_node live.old.graph n)) nodes.now.keys }
    requires rises { Rises nodes.now.keys }
    requires apart { AllByRecursion (λ n. incident both n live.old.graph ≡ []) nodes.now.keys }
    ensures removed { OnOk result
        (live.new.graph ≡ remove_elements nodes.now.keys [] live.old.graph) }
    ensures names { live.new.names ≡ live.old.names }
    ensures tables { live.new.tables ≡ live.old.tables }
    ensures aside { live.new.aside ≡ live.old.aside }
{
    for node in nodes {
        live.remove_node(NodeId(*node))?;
    }
    Ok(())
}

/// Takes out what is doomed, unless one of its nodes would leave a relationship behind. An error
/// leaves a part of it done.
pub(crate) fn take_out<T: Tables>(
    live: &mut LiveGraph<T>,
    doomed: &PendingDeletes,
) -> Result<(), Fault>
    requires there { AreThere live.old.graph doomed.now }
    ensures ok { OnOk result (taken_out doomed.now live.old.graph ≡ Ok live.new.graph) }
    ensures err { IfErr result (λ e. e ≢ OutOfMemory
        → taken_out doomed.now live.old.graph ≡ Err e) }
    ensures names { live.new.names ≡ live.old.names }
    ensures tables { live.new.tables ≡ live.old.tables }
    ensures aside { live.new.aside ≡ live.old.aside }
{
    remove_rels(live, doomed.rels())?;
    test_unconnected(&live.graph(), doomed.nodes())?;
    remove_nodes(live, doomed.nodes())?;
    Ok(())
}
