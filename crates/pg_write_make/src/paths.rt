//! The paths of a pattern, made at a row.
ghost use Rattle.std.specs.Prelude.{◌≡◌, ◌≢◌, ◌++◌, false, OnOk, IfOk, IfErr, Ok, Err, map};
ghost use Rattle.pg_meaning.specs.Patterns.{nodes_of};
ghost use Rattle.pg_meaning.specs.Reading.{test_nodes, test_paths};
ghost use Rattle.pg_meaning.specs.declared.fault.Fault.TheVariants.{OutOfMemory};
ghost use Rattle.pg_syntax_tree.specs.View.{path_view};
ghost use Rattle.pg_write_make.specs.Lent.{kept_view, paths_view, trail_view};
ghost use Rattle.pg_write_make.specs.Makings.{bindings, named_ids, AreThere, Grows};
ghost use Rattle.pg_write_make.specs.Outcomes.{path_made, paths_made};
ghost use Rattle.pg_write_make.specs.Scenes.{max_elements_in, row_at};

use crate::clause_scope::RowScene;
use crate::hops::make_bonds;
use crate::kept::Kept;
use crate::making::make_nodes;
use pg_graph::Tables;
use pg_live::LiveGraph;
use pg_meaning::Fault;
use pg_syntax_tree::PathPattern;
use pg_value_core::{NodeId, RelId};

/// The ids of a path's nodes and relationships at a row.
#[derive(Drop)]
pub(crate) struct Trail {
    pub(crate) nodes: Vec<NodeId>,
    pub(crate) relationships: Vec<RelId>,
}

#[tactic(auto, using(crate::proofs::GrowthLemmas::grows_not, crate::proofs::GrowthLemmas::grows_twice, crate::proofs::GrowthLemmas::there_grows))]
pub(crate) fn make_path<'a, T: Tables>(
    row: &RowScene<'_>,
    live: &mut LiveGraph<T>,
    path: &'a PathPattern,
    kept: Kept<'_>,
    named: &mut Vec<(&'a str, NodeId)>,
) -> Result<Trail, Fault>
    requires tested { test_nodes false live.old.graph
        (row_at row.now) (nodes_of (path_view path.now)) ≡ Ok tt }
    requires there { AreThere live.old.graph (named_ids named.old.items) }
    ensures ok { IfOk result
        (λ trail. path_made (max_elements_in row.now.scene.now) (kept_view kept.entry)
        (path_view path.now) (live.old.graph, row_at row.now ++ bindings named.old.items)
        ≡ Ok (live.new.graph, row_at row.now ++ bindings named.new.items, trail_view trail)) }
    ensures err { IfErr result (λ e. e ≢ OutOfMemory
        → path_made (max_elements_in row.now.scene.now) (kept_view kept.entry)
        (path_view path.now) (live.old.graph, row_at row.now ++ bindings named.old.items) ≡ Err e) }
    ensures aside { live.new.aside ≡ live.old.aside }
    ensures grows { OnOk result (Grows live.old.graph live.new.graph) }
    ensures there { OnOk result (AreThere live.new.graph (named_ids named.new.items)) }
{
    let nodes = make_nodes(row, live, path, kept.first, kept.nodes, named)?;
    let query = row.scene.query;
    let relationships = make_bonds(query, live, &path.hops, kept.relationships, &nodes)?;
    Ok(Trail {
        nodes,
        relationships,
    })
}

/// Makes all paths at a row, whose bound nodes were tested.
#[tactic(auto, using(crate::proofs::StepLemmas::path_done, crate::proofs::StepLemmas::path_failed, crate::proofs::StepLemmas::path_is_tested, crate::proofs::StepLemmas::paths_tested_on))]
pub(crate) fn make_paths<'a, T: Tables>(
    row: &RowScene<'_>,
    live: &mut LiveGraph<T>,
    paths: &'a [PathPattern],
    kept: Vec<Kept<'_>>,
) -> Result<Vec<Trail>, Fault>
    requires tested { test_paths false live.old.graph (row_at row.now) (paths_view paths.now)
        ≡ Ok tt }
    ensures ok { IfOk result (λ trails. paths_made (max_elements_in row.now.scene.now)
        (map kept_view kept.entry.items) (paths_view paths.now) (live.old.graph, row_at row.now)
        ≡ Ok (live.new.graph, map trail_view trails.items)) }
    ensures err { IfErr result (λ e. e ≢ OutOfMemory
        → paths_made (max_elements_in row.now.scene.now) (map kept_view kept.entry.items)
        (paths_view paths.now) (live.old.graph, row_at row.now) ≡ Err e) }
    ensures aside { live.new.aside ≡ live.old.aside }
{
    let alloc = row.scene.query.alloc;
    let mut trails = Vec::with_capacity(alloc, paths.len())?;
    let mut named = Vec::new(alloc);
    let mut rest = kept.into_iter();
    for path in paths {
        match rest.next() {
            Some(values) => trails.push(make_path(row, live, path, values, &mut named)?)?,
            None => return Ok(trails),
        }
    }
    Ok(trails)
}
