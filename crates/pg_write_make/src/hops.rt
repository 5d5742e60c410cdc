//! The relationships of a path at a row.
ghost use Rattle.std.specs.Prelude.{◌≡◌, ◌≢◌, true, OnOk, IfOk, IfErr, Ok, Err};
ghost use Rattle.pg_meaning.specs.Graph.{has_node};
ghost use Rattle.pg_meaning.specs.declared.fault.Fault.TheVariants.{OutOfMemory};
ghost use Rattle.pg_write_make.specs.Makings.{node_ids, outcomes_view, relationship_ids, relationships_view, AreThere, Grows};
ghost use Rattle.pg_write_make.specs.Outcomes.{bonds_made, hops_made};

use crate::elements::add_relationship;
use pg_expr::QueryContext;
use pg_graph::Tables;
use pg_live::LiveGraph;
use pg_meaning::Fault;
use pg_syntax_tree::{NodePattern, RelationshipPattern};
use pg_value_core::{NodeId, RelId, Value};

// Each relationship from the node before it to its own.
#[tactic(auto, using(crate::proofs::GrowthLemmas::joined_grows, crate::proofs::GrowthLemmas::grows_not, crate::proofs::GrowthLemmas::grows_twice, crate::proofs::GrowthLemmas::there_grows, crate::proofs::StepLemmas::hop_made, crate::proofs::StepLemmas::hop_refused))]
fn make_hops<T: Tables>(
    query: &QueryContext<'_>,
    live: &mut LiveGraph<T>,
    hops: &Vec<(RelationshipPattern, NodePattern)>,
    outcomes: Vec<Result<Vec<(&str, Value)>, Fault>>,
    first: NodeId,
    others: &[NodeId],
) -> Result<Vec<RelId>, Fault>
    requires first { has_node live.old.graph first.0 ≡ true }
    requires others { AreThere live.old.graph (node_ids others.now) }
    ensures ok { IfOk result
        (λ made. hops_made query.now.max_elements (outcomes_view outcomes.entry.items)
        (relationships_view hops.now.items) first.0 (node_ids others.now) live.old.graph
        ≡ Ok (live.new.graph, relationship_ids made.items)) }
    ensures err { IfErr result (λ e. e ≢ OutOfMemory
        → hops_made query.now.max_elements (outcomes_view outcomes.entry.items)
        (relationships_view hops.now.items) first.0 (node_ids others.now) live.old.graph ≡ Err e) }
    ensures aside { live.new.aside ≡ live.old.aside }
    ensures grows { OnOk result (Grows live.old.graph live.new.graph) }
{
    let mut made = Vec::with_capacity(query.alloc, hops.len())?;
    let mut rest = outcomes.into_iter();
    let mut left = first;
    let mut ahead = others;
    for hop in hops {
        match (rest.next(), ahead.split_first()) {
            (Some(outcome), Some((right, more))) => {
                made.push(add_relationship(query, live, &hop.0, outcome, left, *right)?)?;
                left = *right;
                ahead = more;
            }
            _ => return Ok(made),
        }
    }
    Ok(made)
}

/// All relationships of a path between its nodes.
#[tactic(auto, using(crate::proofs::GrowthLemmas::grows_not))]
pub(crate) fn make_bonds<T: Tables>(
    query: &QueryContext<'_>,
    live: &mut LiveGraph<T>,
    hops: &Vec<(RelationshipPattern, NodePattern)>,
    outcomes: Vec<Result<Vec<(&str, Value)>, Fault>>,
    ids: &Vec<NodeId>,
) -> Result<Vec<RelId>, Fault>
    requires there { AreThere live.old.graph (node_ids ids.now.items) }
    ensures ok { IfOk result
        (λ made. bonds_made query.now.max_elements (outcomes_view outcomes.entry.items)
        (relationships_view hops.now.items) (node_ids ids.now.items) live.old.graph
        ≡ Ok (live.new.graph, relationship_ids made.items)) }
    ensures err { IfErr result (λ e. e ≢ OutOfMemory
        → bonds_made query.now.max_elements (outcomes_view outcomes.entry.items)
        (relationships_view hops.now.items) (node_ids ids.now.items) live.old.graph ≡ Err e) }
    ensures aside { live.new.aside ≡ live.old.aside }
    ensures grows { OnOk result (Grows live.old.graph live.new.graph) }
{
    match ids.split_first() {
        Some((first, others)) => make_hops(query, live, hops, outcomes, *first, others),
        None => Ok(Vec::new(query.alloc)),
    }
}
