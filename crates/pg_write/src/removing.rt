//! REMOVE: row by row, item by item, each in the graph of those before.
ghost use Rattle.std.specs.Prelude.{◌≡◌, ◌≢◌, OnOk, IfErr, Ok, Err, map, string_bytes};
ghost use Rattle.pg_meaning.specs.Meters.{Setting};
ghost use Rattle.pg_meaning.specs.Entries.{without_key};
ghost use Rattle.pg_meaning.specs.Updates.{change_properties, remove_item, remove_row, remove_clause};
ghost use Rattle.pg_meaning.specs.declared.fault.Fault.TheVariants.{OutOfMemory};
ghost use Rattle.pg_rows.specs.States.{Suits, seen, state_of};
ghost use Rattle.pg_syntax_tree.specs.View.{name_view, remove_item_view};
ghost use Rattle.pg_value_core.specs.Given.{parameters_view};
ghost use Rattle.pg_value_core.specs.Gives.{Gives};
ghost use Rattle.pg_write.specs.Parts.{remove_target};
ghost use Rattle.pg_write.specs.Targets.{target_view, IsThere};
ghost use Rattle.pg_write_make.specs.Scenes.{row_in};

use crate::changes::{change_labels, put_properties};
use crate::targets::{Target, target_of};
use pg_expr::QueryContext;
use pg_graph::Tables;
use pg_live::LiveGraph;
use pg_meaning::Fault;
use pg_meter::Meter;
use pg_rows::BindingTable;
use pg_syntax_tree::{Name, RemoveItem};
use pg_value_core::Value;
use pg_write_make::{ClauseScope, spend_for_rows};
use std::alloc::Global;

fn target_name(item: &RemoveItem) -> &Name
    ensures { name_view result.now ≡ remove_target (remove_item_view item.now) }
{
    match item {
        RemoveItem::Property(target, _) => target,
        RemoveItem::Labels(target, _) => target,
    }
}

// Takes a key from a target.
fn take_key<T: Tables>(
    alloc: Global,
    live: &mut LiveGraph<T>,
    key: &Name,
    target: Target,
) -> Result<(), Fault>
    requires there { IsThere live.old.graph (target_view target) }
    ensures ok { OnOk result (change_properties (without_key (string_bytes key.now.text))
        (target_view target) live.old.graph ≡ live.new.graph) }
    ensures err { IfErr result (λ e. e ≡ OutOfMemory) }
    ensures aside { live.new.aside ≡ live.old.aside }
{
    let mut pairs = Vec::with_capacity(alloc, 1)?;
    pairs.push((key.text.as_str(), Value::Null))?;
    Ok(put_properties(alloc, live, target, pairs, false)?)
}

// One item at one row.
fn remove_item<T: Tables>(
    scene: &ClauseScope<'_>,
    live: &mut LiveGraph<T>,
    row: &[Value],
    item: &RemoveItem,
) -> Result<(), Fault>
    ensures ok { OnOk result
        (remove_item (row_in scene.now row.now) live.old.graph (remove_item_view item.now)
        ≡ Ok live.new.graph) }
    ensures err { IfErr result (λ e. e ≢ OutOfMemory
        → remove_item (row_in scene.now row.now) live.old.graph (remove_item_view item.now)
        ≡ Err e) }
    ensures aside { live.new.aside ≡ live.old.aside }
{
    match target_of(&live.graph(), scene, row, target_name(item))? {
        Target::Nothing => Ok(()),
        target => match item {
            RemoveItem::Property(_, key) => take_key(scene.query.alloc, live, key, target),
            RemoveItem::Labels(_, labels) => {
                change_labels(scene.query.alloc, live, target, labels, false)
            }
        },
    }
}

// All items at one row.
fn remove_row<T: Tables>(
    scene: &ClauseScope<'_>,
    live: &mut LiveGraph<T>,
    row: &[Value],
    items: &Vec<RemoveItem>,
) -> Result<(), Fault>
    ensures ok { OnOk result
        (remove_row (map remove_item_view items.now.items) live.old.graph (row_in scene.now row.now)
        ≡ Ok live.new.graph) }
    ensures err { IfErr result (λ e. e ≢ OutOfMemory → remove_row
        (map remove_item_view items.now.items) live.old.graph (row_in scene.now row.now) ≡ Err e) }
    ensures aside { live.new.aside ≡ live.old.aside }
{
    for item in items {
        remove_item(scene, live, row, item)?;
    }
    Ok(())
}

/// Removes what the items say, row by row, at the steps of all rows. An error leaves a part of it
/// done, and the caller takes that back.
pub fn remove_items<T: Tables>(
    query: &QueryContext<'_>,
    items: &Vec<RemoveItem>,
    live: &mut LiveGraph<T>,
    table: &BindingTable,
    meter: &mut Meter,
) -> Result<(), Fault>
    ensures answer { (s : Setting)
        → Suits s (parameters_view query.now.parameters.now) meter.old.limit (seen table.now).names
        → Gives result (remove_clause s (map remove_item_view items.now.items)
        (state_of live.old.graph (seen table.now) meter.old.used))
        (λ _. state_of live.new.graph (seen table.now) meter.new.used) }
    ensures aside { live.new.aside ≡ live.old.aside }
    ensures limit { meter.new.limit ≡ meter.old.limit }
{
    spend_for_rows(meter, table.rows().len(), items.len())?;
    let scene = ClauseScope {
        query,
        names: table.names(),
    };
    let rows = table.rows();
    for at in 0..rows.len() {
        remove_row(&scene, live, rows.row(at), items)?;
    }
    Ok(())
}
