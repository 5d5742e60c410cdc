//! A path by itself at a row: no list is made for one node or one relationship.
ghost use Rattle.std.specs.Prelude.{◌≡◌, ◌≢◌, ◌∷◌, [], false, OnOk, IfOk, IfErr, Ok, Err};
ghost use Rattle.pg_meaning.specs.Patterns.{nodes_of, texts_of as meant_texts};
ghost use Rattle.pg_meaning.specs.Reading.{test_nodes};
ghost use Rattle.pg_meaning.specs.declared.fault.Fault.TheVariants.{OutOfMemory};
ghost use Rattle.pg_store.specs.Stores.{texts_of};
ghost use Rattle.pg_syntax_tree.specs.View.{names_view, path_view};
ghost use Rattle.pg_write_make.specs.Creations.{graph_at, left_at};
ghost use Rattle.pg_write_make.specs.Outcomes.{trail_of};
ghost use Rattle.pg_write_make.specs.Scenes.{row_at};

use crate::clause_scope::RowScene;
use crate::elements::{add_labelled, add_relationship};
use crate::kept::{kept_of, relationship_outcome};
use crate::making::{find_bound, place_node};
use crate::paths::make_path;
use crate::values::outcome;
use pg_graph::Tables;
use pg_live::LiveGraph;
use pg_meaning::Fault;
use pg_syntax_tree::{NodePattern, PathPattern, RelationshipPattern};
use pg_value_core::{NodeId, RelId};

/// A path of one node, whose labels are given.
pub(crate) fn make_lone_node<T: Tables>(
    row: &RowScene<'_>,
    live: &mut LiveGraph<T>,
    path: &PathPattern,
    labels: &Vec<&str>,
) -> Result<NodeId, Fault>
    requires alone { path.now.hops.items ≡ [] }
    requires labels { texts_of labels.now.items
        ≡ meant_texts (names_view path.now.first.labels.items) }
    ensures ok { IfOk result (λ id. left_at row.now (path_view path.now) live.old.graph
        ≡ Ok (live.new.graph, trail_of (id.0 ∷ []) [])) }
    ensures err { IfErr result (λ e. e ≢ OutOfMemory
        → left_at row.now (path_view path.now) live.old.graph ≡ Err e) }
    ensures aside { live.new.aside ≡ live.old.aside }
{
    let first = &path.first;
    let properties = outcome(row.scene, &live.graph(), row.values, &first.properties)?;
    let none = Vec::new(row.scene.query.alloc);
    match find_bound(row, &none, &first.variable)? {
        Some(id) => Ok(id),
        None => add_labelled(row.scene.query, live, labels, properties),
    }
}

/// A relationship between its nodes.
#[derive(Clone, Copy)]
pub(crate) struct Bond {
    pub(crate) left: NodeId,
    pub(crate) id: RelId,
    pub(crate) right: NodeId,
}

/// A path of one relationship.
pub(crate) fn make_lone_bond<T: Tables>(
    row: &RowScene<'_>,
    live: &mut LiveGraph<T>,
    path: &PathPattern,
    hop: &(RelationshipPattern, NodePattern),
) -> Result<Bond, Fault>
    requires alone { path.now.hops.items ≡ hop.now ∷ [] }
    requires tested { test_nodes false live.old.graph
        (row_at row.now) (nodes_of (path_view path.now)) ≡ Ok tt }
    ensures ok { IfOk result (λ made. left_at row.now (path_view path.now) live.old.graph
        ≡ Ok (live.new.graph, trail_of (made.left.0 ∷ made.right.0 ∷ []) (made.id.0 ∷ []))) }
    ensures err { IfErr result (λ e. e ≢ OutOfMemory
        → left_at row.now (path_view path.now) live.old.graph ≡ Err e) }
    ensures aside { live.new.aside ≡ live.old.aside }
{
    let first = outcome(row.scene, &live.graph(), row.values, &path.first.properties)?;
    let last = outcome(row.scene, &live.graph(), row.values, &hop.1.properties)?;
    let between = relationship_outcome(row.scene, &live.graph(), row.values, &hop.0)?;
    let mut named = Vec::new(row.scene.query.alloc);
    let left = place_node(row, live, &path.first, first, &mut named)?;
    let right = place_node(row, live, &hop.1, last, &mut named)?;
    let id = add_relationship(row.scene.query, live, &hop.0, between, left, right)?;
    Ok(Bond { left, id, right })
}

// A path of any length.
fn make_long<T: Tables>(
    row: &RowScene<'_>,
    live: &mut LiveGraph<T>,
    path: &PathPattern,
) -> Result<(), Fault>
    requires tested { test_nodes false live.old.graph
        (row_at row.now) (nodes_of (path_view path.now)) ≡ Ok tt }
    ensures ok { OnOk result
        (graph_at row.now (path_view path.now) live.old.graph ≡ Ok live.new.graph) }
    ensures err { IfErr result (λ e. e ≢ OutOfMemory
        → graph_at row.now (path_view path.now) live.old.graph ≡ Err e) }
    ensures aside { live.new.aside ≡ live.old.aside }
{
    let kept = kept_of(row.scene, &live.graph(), row.values, path)?;
    let mut named = Vec::new(row.scene.query.alloc);
    make_path(row, live, path, kept, &mut named)?;
    Ok(())
}

/// A path whose bound nodes were tested, where its ids are not asked for. The labels are those of
/// its first node.
pub(crate) fn make_lone<T: Tables>(
    row: &RowScene<'_>,
    live: &mut LiveGraph<T>,
    path: &PathPattern,
    labels: &Vec<&str>,
) -> Result<(), Fault>
    requires tested { test_nodes false live.old.graph
        (row_at row.now) (nodes_of (path_view path.now)) ≡ Ok tt }
    requires labels { texts_of labels.now.items
        ≡ meant_texts (names_view path.now.first.labels.items) }
    ensures ok { OnOk result
        (graph_at row.now (path_view path.now) live.old.graph ≡ Ok live.new.graph) }
    ensures err { IfErr result (λ e. e ≢ OutOfMemory
        → graph_at row.now (path_view path.now) live.old.graph ≡ Err e) }
    ensures aside { live.new.aside ≡ live.old.aside }
{
    let Some((hop, others)) = path.hops.split_first() else {
        make_lone_node(row, live, path, labels)?;
        return Ok(());
    };
    if !others.is_empty() {
        return make_long(row, live, path);
    }
    make_lone_bond(row, live, path, hop)?;
    Ok(())
}
