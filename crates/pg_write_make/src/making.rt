//! The nodes of a path at a row: those that are bound, and new ones.
ghost use Rattle.std.specs.Map.{lookup};
ghost use Rattle.std.specs.Prelude.{◌≡◌, ◌≢◌, ◌++◌, ◌∷◌, [], ℕ, List, true, false, OnOk, IfOk, IfErr, Ok, Err, Some, None, IsSome, map, option_map, bytes_eq};
ghost use Rattle.pg_meaning.specs.Graph.{has_node};
ghost use Rattle.pg_meaning.specs.Patterns.{node_name, nodes_of, text_of};
ghost use Rattle.pg_meaning.specs.Reading.{test_bound, test_nodes};
ghost use Rattle.pg_meaning.specs.Rows.{value_in};
ghost use Rattle.pg_meaning.specs.Value.{node};
ghost use Rattle.pg_meaning.specs.Walks.{bound_value};
ghost use Rattle.pg_meaning.specs.declared.fault.Fault.TheVariants.{OutOfMemory};
ghost use Rattle.pg_syntax_tree.specs.View.{name_view, node_view, path_view};
ghost use Rattle.pg_value_core.specs.View.{view};
ghost use Rattle.pg_write_make.specs.Makings.{bindings, making_of, making_with, named_ids, others_view, outcomes_view, AllThere, AreThere, Grows};
ghost use Rattle.pg_write_make.specs.Outcomes.{node_found, node_of, nodes_made, outcome_view};
ghost use Rattle.pg_write_make.specs.Scenes.{max_elements_in, row_at};

use crate::clause_scope::RowScene;
use crate::elements::add_node;
use pg_graph::Tables;
use pg_live::LiveGraph;
use pg_meaning::Fault;
use pg_syntax_tree::{Name, NodePattern, PathPattern, RelationshipPattern};
use pg_value_core::{NodeId, Value};
use std::alloc::AllocError;

fn find_named(named: &Vec<(&str, NodeId)>, name: &str) -> Option<NodeId>
    ensures { lookup (bytes_eq name.now) (bindings named.now.items)
        ≡ option_map (λ id. node id.0) result }
{
    for binding in named {
        if name == binding.0 {
            return Some(binding.1);
        }
    }
    None
}

fn node_id(value: &Value) -> Result<NodeId, Fault>
    ensures ok { IfOk result (λ id. view value.now ≡ node id.0) }
    ensures err { IfErr result (λ e. node_found (Some (view value.now)) ≡ Err e) }
{
    match value {
        Value::Node(id) => Ok(*id),
        _ => Err(Fault::TypeFault),
    }
}

// The node of a variable that the row or the clause has bound.
#[tactic(auto, using(crate::proofs::BoundLemmas::bound_before, crate::proofs::BoundLemmas::bound_here))]
fn find_node(
    row: &RowScene<'_>,
    named: &Vec<(&str, NodeId)>,
    name: &str,
) -> Result<Option<NodeId>, Fault>
    ensures ok { IfOk result
        (λ found. node_found (value_in name.now (row_at row.now ++ bindings named.now.items))
        ≡ Ok (option_map (λ id. id.0) found)) }
    ensures err { IfErr result
        (λ e. node_found (value_in name.now (row_at row.now ++ bindings named.now.items)) ≡ Err e) }
{
    match row.scene.find(row.values, name) {
        Some(value) => Ok(Some(node_id(value)?)),
        None => Ok(find_named(named, name)),
    }
}

/// The node of a variable, if it has one already.
pub(crate) fn find_bound(
    row: &RowScene<'_>,
    named: &Vec<(&str, NodeId)>,
    variable: &Option<Name>,
) -> Result<Option<NodeId>, Fault>
    ensures ok { IfOk result (λ found. node_found (bound_value
        (text_of (option_map name_view variable.now)) (row_at row.now ++ bindings named.now.items))
        ≡ Ok (option_map (λ id. id.0) found)) }
    ensures err { IfErr result (λ e. node_found (bound_value
        (text_of (option_map name_view variable.now)) (row_at row.now ++ bindings named.now.items))
        ≡ Err e) }
{
    match variable {
        Some(name) => find_node(row, named, name.text.as_str()),
        None => Ok(None),
    }
}

// A new node under its variable, which has none yet.
fn bind_new<'a>(
    named: &mut Vec<(&'a str, NodeId)>,
    variable: &'a Option<Name>,
    id: NodeId,
) -> Result<(), AllocError>
    ensures none { OnOk result (text_of (option_map name_view variable.now) ≡ None
        → named.new.items ≡ named.old.items) }
    ensures bound { OnOk result ((name : List ℕ)
        → text_of (option_map name_view variable.now) ≡ Some name
        → bindings named.new.items ≡ bindings named.old.items ++ (name, node id.0) ∷ []) }
    ensures ids { OnOk result (IsSome (text_of (option_map name_view variable.now))
        → named_ids named.new.items ≡ named_ids named.old.items ++ id.0 ∷ []) }
{
    if let Some(name) = variable {
        named.push((name.text.as_str(), id))?;
    }
    Ok(())
}

/// The node of a pattern, bound or new.
#[tactic(auto, using(crate::proofs::BoundLemmas::bound_last, crate::proofs::GrowthLemmas::added_grows, crate::proofs::GrowthLemmas::added_there, crate::proofs::GrowthLemmas::there_grows))]
pub(crate) fn place_node<'a, T: Tables>(
    row: &RowScene<'_>,
    live: &mut LiveGraph<T>,
    pattern: &'a NodePattern,
    outcome: Result<Vec<(&str, Value)>, Fault>,
    named: &mut Vec<(&'a str, NodeId)>,
) -> Result<NodeId, Fault>
    requires tested { test_bound false live.old.graph
        (bound_value (node_name (node_view pattern.now)) (row_at row.now)) ≡ Ok tt }
    requires there { AreThere live.old.graph (named_ids named.old.items) }
    ensures ok { IfOk result (λ id. (ids : List ℕ) → node_of
        (max_elements_in row.now.scene.now) (outcome_view outcome.entry) (node_view pattern.now)
        (making_with live.old.graph (row_at row.now) named.old.items ids) ≡ Ok
        (making_with live.new.graph (row_at row.now) named.new.items (ids ++ id.0 ∷ []))) }
    ensures err { IfErr result (λ e. e ≢ OutOfMemory → (ids : List ℕ) → node_of
        (max_elements_in row.now.scene.now) (outcome_view outcome.entry) (node_view pattern.now)
        (making_with live.old.graph (row_at row.now) named.old.items ids) ≡ Err e) }
    ensures aside { live.new.aside ≡ live.old.aside }
    ensures grows { OnOk result (Grows live.old.graph live.new.graph) }
    ensures there { IfOk result (λ id. has_node live.new.graph id.0 ≡ true) }
    ensures named { OnOk result (AreThere live.new.graph (named_ids named.new.items)) }
{
    match find_bound(row, named, &pattern.variable)? {
        Some(id) => Ok(id),
        None => {
            let new = add_node(row.scene.query, live, pattern, outcome)?;
            bind_new(named, &pattern.variable, new)?;
            Ok(new)
        }
    }
}

// The node of a pattern, behind the ids of those before.
#[tactic(auto, using(crate::proofs::BoundLemmas::pushed_id, crate::proofs::GrowthLemmas::there_grows, crate::proofs::GrowthLemmas::there_push))]
fn make_node<'a, T: Tables>(
    row: &RowScene<'_>,
    live: &mut LiveGraph<T>,
    pattern: &'a NodePattern,
    outcome: Result<Vec<(&str, Value)>, Fault>,
    named: &mut Vec<(&'a str, NodeId)>,
    ids: &mut Vec<NodeId>,
) -> Result<(), Fault>
    requires tested { test_bound false live.old.graph
        (bound_value (node_name (node_view pattern.now)) (row_at row.now)) ≡ Ok tt }
    requires there { AllThere live.old.graph named.old.items ids.old.items }
    ensures ok { OnOk result (node_of
        (max_elements_in row.now.scene.now) (outcome_view outcome.entry) (node_view pattern.now)
        (making_of live.old.graph (row_at row.now) named.old.items ids.old.items)
        ≡ Ok (making_of live.new.graph (row_at row.now) named.new.items ids.new.items)) }
    ensures err { IfErr result (λ e. e ≢ OutOfMemory → node_of
        (max_elements_in row.now.scene.now) (outcome_view outcome.entry) (node_view pattern.now)
        (making_of live.old.graph (row_at row.now) named.old.items ids.old.items) ≡ Err e) }
    ensures aside { live.new.aside ≡ live.old.aside }
    ensures grows { OnOk result (Grows live.old.graph live.new.graph) }
    ensures there { OnOk result (AllThere live.new.graph named.new.items ids.new.items) }
{
    let id = place_node(row, live, pattern, outcome, named)?;
    ids.push(id)?;
    Ok(())
}

// The nodes behind the first.
#[tactic(auto, using(crate::proofs::GrowthLemmas::grows_not, crate::proofs::GrowthLemmas::grows_twice, crate::proofs::StepLemmas::node_made, crate::proofs::StepLemmas::node_refused, crate::proofs::StepLemmas::tests_left))]
fn make_others<'a, T: Tables>(
    row: &RowScene<'_>,
    live: &mut LiveGraph<T>,
    hops: &'a Vec<(RelationshipPattern, NodePattern)>,
    outcomes: Vec<Result<Vec<(&str, Value)>, Fault>>,
    named: &mut Vec<(&'a str, NodeId)>,
    ids: &mut Vec<NodeId>,
) -> Result<(), Fault>
    requires tested { test_nodes false live.old.graph (row_at row.now) (others_view hops.now.items)
        ≡ Ok tt }
    requires there { AllThere live.old.graph named.old.items ids.old.items }
    ensures ok { OnOk result (nodes_made (max_elements_in row.now.scene.now)
        (outcomes_view outcomes.entry.items) (others_view hops.now.items)
        (making_of live.old.graph (row_at row.now) named.old.items ids.old.items)
        ≡ Ok (making_of live.new.graph (row_at row.now) named.new.items ids.new.items)) }
    ensures err { IfErr result (λ e. e ≢ OutOfMemory
        → nodes_made (max_elements_in row.now.scene.now)
        (outcomes_view outcomes.entry.items) (others_view hops.now.items)
        (making_of live.old.graph (row_at row.now) named.old.items ids.old.items) ≡ Err e) }
    ensures aside { live.new.aside ≡ live.old.aside }
    ensures grows { OnOk result (Grows live.old.graph live.new.graph) }
    ensures there { OnOk result (AllThere live.new.graph named.new.items ids.new.items) }
{
    let mut rest = outcomes.into_iter();
    for hop in hops {
        match rest.next() {
            Some(outcome) => make_node(row, live, &hop.1, outcome, named, ids)?,
            None => return Ok(()),
        }
    }
    Ok(())
}

/// All nodes of a path.
#[tactic(auto, using(crate::proofs::GrowthLemmas::grows_twice, crate::proofs::GrowthLemmas::tests_grow, crate::proofs::GrowthLemmas::both_passed))]
pub(crate) fn make_nodes<'a, T: Tables>(
    row: &RowScene<'_>,
    live: &mut LiveGraph<T>,
    path: &'a PathPattern,
    first: Result<Vec<(&str, Value)>, Fault>,
    others: Vec<Result<Vec<(&str, Value)>, Fault>>,
    named: &mut Vec<(&'a str, NodeId)>,
) -> Result<Vec<NodeId>, Fault>
    requires tested { test_nodes false live.old.graph
        (row_at row.now) (nodes_of (path_view path.now)) ≡ Ok tt }
    requires there { AreThere live.old.graph (named_ids named.old.items) }
    ensures ok { IfOk result (λ ids. nodes_made (max_elements_in row.now.scene.now)
        (outcome_view first.entry ∷ outcomes_view others.entry.items)
        (nodes_of (path_view path.now))
        (making_of live.old.graph (row_at row.now) named.old.items [])
        ≡ Ok (making_of live.new.graph (row_at row.now) named.new.items ids.items)) }
    ensures err { IfErr result (λ e. e ≢ OutOfMemory
        → nodes_made (max_elements_in row.now.scene.now) (outcome_view first.entry
        ∷ outcomes_view others.entry.items) (nodes_of (path_view path.now))
        (making_of live.old.graph (row_at row.now) named.old.items []) ≡ Err e) }
    ensures aside { live.new.aside ≡ live.old.aside }
    ensures grows { OnOk result (Grows live.old.graph live.new.graph) }
    ensures there { IfOk result (λ ids. AllThere live.new.graph named.new.items ids.items) }
{
    let mut ids = Vec::with_capacity(row.scene.query.alloc, path.hops.len().saturating_add(1))?;
    make_node(row, live, &path.first, first, named, &mut ids)?;
    make_others(row, live, &path.hops, others, named, &mut ids)?;
    Ok(ids)
}
