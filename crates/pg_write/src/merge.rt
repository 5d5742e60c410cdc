//! MERGE.
ghost use Rattle.std.specs.Prelude.{◌≡◌, ◌∷◌, [], IfOk, length, map};
ghost use Rattle.pg_match_stages.specs.View.{anchor_view};
ghost use Rattle.pg_meaning.specs.Meters.{Setting};
ghost use Rattle.pg_meaning.specs.Patterns.{add_path_names};
ghost use Rattle.pg_meaning.specs.Updates.{merge_clause};
ghost use Rattle.pg_rows.specs.States.{Suits, seen, state_of};
ghost use Rattle.pg_syntax_tree.specs.View.{on_view, path_view};
ghost use Rattle.pg_value_core.specs.Given.{parameters_view};
ghost use Rattle.pg_value_core.specs.Gives.{Gives};

use crate::merged_rows::merge_rows;
use crate::merging::{Merge, prepare};
use pg_expr::QueryContext;
use pg_graph::Tables;
use pg_live::LiveGraph;
use pg_match_bindings::bind_names;
use pg_meaning::Fault;
use pg_meter::Meter;
use pg_rows::BindingTable;
use pg_write_make::count_new;
use std::slice::from_ref;

/// Finds the path at each row, or makes it, in the graph of the rows before, and sets what the items
/// of its kind say at each resulting row. An error leaves a part of it done, and the caller takes
/// that back.
pub fn merge_path<'a, T: Tables>(
    query: &'a QueryContext<'a>,
    merge: &Merge<'a>,
    live: &mut LiveGraph<T>,
    table: BindingTable,
    meter: &mut Meter,
) -> Result<BindingTable, Fault>
    requires anchors { length merge.now.anchors.now ≡ 1 }
    ensures gives { (s : Setting)
        → Suits s (parameters_view query.now.parameters.now) meter.old.limit (seen table).names
        → s.quota.max_elements ≡ query.now.max_elements
        → s.anchors ≡ map anchor_view merge.now.anchors.now
        → Gives result
        (merge_clause s (path_view merge.now.path.now) (map on_view merge.now.items.now.items)
        (state_of live.old.graph (seen table) meter.old.used))
        (λ t. state_of live.new.graph (seen t) meter.new.used) }
    ensures names { IfOk result (λ t. (seen t).names
        ≡ add_path_names (path_view merge.now.path.now ∷ []) (seen table).names) }
    ensures aside { live.new.aside ≡ live.old.aside }
    ensures limit { meter.new.limit ≡ meter.old.limit }
{
    let (mut names, rows) = table.split();
    let alloc = query.alloc;
    let bound = names.len();
    let count = count_new(alloc, &names, from_ref(merge.path))?;
    let bindings = bind_names(alloc, from_ref(merge.path), &mut names)?;
    let merged = {
        let merging = prepare(&*query, &*merge, &names, bound, count, bindings)?;
        merge_rows(&merging, live, rows, meter)?
    };
    Ok(BindingTable::new(names, merged))
}
