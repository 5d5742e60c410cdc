//! One new element, where there is room and an id for it.
ghost use Rattle.std.specs.Prelude.{◌≡◌, ◌≢◌, ◌<◌, ◌^◌, true, OnOk, IfOk, IfErr, Ok, Err};
ghost use Rattle.pg_meaning.specs.Graph.{element_count, has_node};
ghost use Rattle.pg_meaning.specs.Meters.{greatest_id, test_counter};
ghost use Rattle.pg_meaning.specs.Updates.{first_text, add_between};
ghost use Rattle.pg_meaning.specs.Patterns.{types_of, way_of};
ghost use Rattle.pg_meaning.specs.declared.fault.Fault.TheVariants.{OutOfMemory};
ghost use Rattle.pg_store.specs.Stores.{pairs_of, texts_of};
ghost use Rattle.pg_meaning.specs.Entries.{set_keys};
ghost use Rattle.pg_meaning.specs.Value.{no_entries};
ghost use Rattle.pg_syntax_tree.specs.View.{node_view, relationship_view};
ghost use Rattle.pg_write_make.specs.Outcomes.{labelled_added, node_added, relationship_of, outcome_view, room_and_id};

use crate::texts::{label_texts, type_text};
use pg_expr::QueryContext;
use pg_graph::Tables;
use pg_live::LiveGraph;
use pg_meaning::Fault;
use pg_meter::{MaxElements, Room};
use pg_store::GraphView;
use pg_syntax_tree::{NodePattern, RelationshipPattern};
use pg_value_core::{NodeId, RelId, Value};
use std::alloc::{AllocError, Global};

/// A counter that stands here hands out no id.
const GREATEST_ID: u64 = 9_223_372_036_854_775_807;

fn test_counter(next: u64) -> Result<(), Fault>
    ensures is { result ≡ test_counter next }
    ensures below { OnOk result (next < greatest_id) }
{
    if GREATEST_ID <= next {
        return Err(Fault::IdsExhausted);
    }
    Ok(())
}

// Whether there is room for one more element, and an id for it.
fn test_new<T: Tables>(
    graph: &GraphView<'_, T>,
    max_elements: MaxElements,
    next: u64,
) -> Result<(), Fault>
    ensures is { result ≡ room_and_id max_elements next graph.now }
    ensures left { OnOk result (element_count graph.now < 2 ^ 63) }
    ensures below { OnOk result (next < greatest_id) }
{
    Room::new(graph.elements(), max_elements.most()).take()?;
    test_counter(next)
}

/// Adds a node with these labels and properties, or what stands in place of the properties.
#[tactic(auto, using(crate::proofs::RoomLemmas::few_elements))]
pub(crate) fn add_labelled<T: Tables>(
    query: &QueryContext<'_>,
    live: &mut LiveGraph<T>,
    labels: &Vec<&str>,
    outcome: Result<Vec<(&str, Value)>, Fault>,
) -> Result<NodeId, Fault>
    ensures ok { OnOk result (labelled_added query.now.max_elements (outcome_view outcome.entry)
        (texts_of labels.now.items) live.old.graph ≡ Ok live.new.graph) }
    ensures id { IfOk result (λ id. id.0 ≡ live.old.graph.next_node) }
    ensures err { IfErr result (λ e. e ≢ OutOfMemory
        → labelled_added query.now.max_elements (outcome_view outcome.entry)
        (texts_of labels.now.items) live.old.graph ≡ Err e) }
    ensures aside { live.new.aside ≡ live.old.aside }
{
    let properties = outcome?;
    test_new(&live.graph(), query.max_elements, live.next_ids().node)?;
    Ok(live.create_node(query.alloc, labels, properties)?)
}

/// Adds a node, as the pattern says and with these properties, or what stands in their place.
pub(crate) fn add_node<T: Tables>(
    query: &QueryContext<'_>,
    live: &mut LiveGraph<T>,
    pattern: &NodePattern,
    outcome: Result<Vec<(&str, Value)>, Fault>,
) -> Result<NodeId, Fault>
    ensures ok { OnOk result (node_added query.now.max_elements
        (outcome_view outcome.entry) (node_view pattern.now) live.old.graph ≡ Ok live.new.graph) }
    ensures id { IfOk result (λ id. id.0 ≡ live.old.graph.next_node) }
    ensures err { IfErr result (λ e. e ≢ OutOfMemory → node_added query.now.max_elements
        (outcome_view outcome.entry) (node_view pattern.now) live.old.graph ≡ Err e) }
    ensures aside { live.new.aside ≡ live.old.aside }
{
    let labels = label_texts(query.alloc, &pattern.labels)?;
    add_labelled(query, live, &labels, outcome)
}

// Adds a relationship that goes as the heads of its pattern say.
fn add_between<T: Tables>(
    alloc: Global,
    live: &mut LiveGraph<T>,
    pattern: &RelationshipPattern,
    left: NodeId,
    right: NodeId,
    properties: Vec<(&str, Value)>,
) -> Result<RelId, AllocError>
    requires room { live.old.graph.next_relationship < 2 ^ 63 }
    requires count { element_count live.old.graph < 2 ^ 63 }
    requires left { has_node live.old.graph left.0 ≡ true }
    requires right { has_node live.old.graph right.0 ≡ true }
    ensures ok { OnOk result (add_between (way_of (relationship_view pattern.now))
        (first_text (types_of (relationship_view pattern.now))) left.0 right.0
        (set_keys (pairs_of properties.entry.items) no_entries) live.old.graph ≡ live.new.graph) }
    ensures id { IfOk result (λ id. id.0 ≡ live.old.graph.next_relationship) }
    ensures aside { live.new.aside ≡ live.old.aside }
{
    let kind = type_text(pattern);
    if pattern.left_head && !pattern.right_head {
        live.create_rel(alloc, kind, right, left, properties)
    } else {
        live.create_rel(alloc, kind, left, right, properties)
    }
}

/// Adds a relationship between two nodes, with these properties, or what stands in their place.
#[tactic(auto, using(crate::proofs::RoomLemmas::few_elements))]
pub(crate) fn add_relationship<T: Tables>(
    query: &QueryContext<'_>,
    live: &mut LiveGraph<T>,
    pattern: &RelationshipPattern,
    outcome: Result<Vec<(&str, Value)>, Fault>,
    left: NodeId,
    right: NodeId,
) -> Result<RelId, Fault>
    requires left { has_node live.old.graph left.0 ≡ true }
    requires right { has_node live.old.graph right.0 ≡ true }
    ensures ok { OnOk result (relationship_of query.now.max_elements (outcome_view outcome.entry)
        (relationship_view pattern.now) left.0 right.0 live.old.graph ≡ Ok live.new.graph) }
    ensures id { IfOk result (λ id. id.0 ≡ live.old.graph.next_relationship) }
    ensures err { IfErr result (λ e. e ≢ OutOfMemory
        → relationship_of query.now.max_elements (outcome_view outcome.entry)
        (relationship_view pattern.now) left.0 right.0 live.old.graph ≡ Err e) }
    ensures aside { live.new.aside ≡ live.old.aside }
{
    let properties = outcome?;
    test_new(&live.graph(), query.max_elements, live.next_ids().rel)?;
    Ok(add_between(query.alloc, live, pattern, left, right, properties)?)
}
