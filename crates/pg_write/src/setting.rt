//! SET: row by row, item by item, each in the graph of those before.
ghost use Rattle.std.specs.Prelude.{◌≡◌, ◌≢◌, ◌<◌, OnOk, IfErr, Ok, Err, map, string_bytes, length};
ghost use Rattle.pg_meaning.specs.Answer.{each_step};
ghost use Rattle.pg_meaning.specs.Entries.{set_keys};
ghost use Rattle.pg_meaning.specs.Meters.{Setting};
ghost use Rattle.pg_meaning.specs.Updates.{mapping_pairs, set_pairs, set_item, set_row, set_clause};
ghost use Rattle.pg_meaning.specs.declared.fault.Fault.TheVariants.{OutOfMemory};
ghost use Rattle.pg_rows.specs.Named.{rows_named};
ghost use Rattle.pg_rows.specs.States.{Suits, seen, state_of};
ghost use Rattle.pg_rows.specs.Tables.{table};
ghost use Rattle.pg_syntax_tree.specs.View.{set_item_view};
ghost use Rattle.pg_value_core.specs.Given.{parameters_view};
ghost use Rattle.pg_value_core.specs.Gives.{Gives};
ghost use Rattle.pg_write.specs.Items.{item_of};
ghost use Rattle.pg_write.specs.Parts.{one_pair, put_map};
ghost use Rattle.pg_write.specs.Targets.{target_view, IsThere};
ghost use Rattle.pg_write_make.specs.Scenes.{given, row_in, parameters_in, reading};

use crate::changes::{change_labels, put_properties};
use crate::items::{ReadyChange, ReadySet, push_ready};
use crate::maps::{join, map_parts};
use crate::targets::{Target, target_of};
use pg_expr::{Prepared, QueryContext};
use pg_graph::Tables;
use pg_live::LiveGraph;
use pg_meaning::Fault;
use pg_meter::Meter;
use pg_rows::{BindingTable, Rows};
use pg_syntax_tree::{Name, SetItem};
use pg_value_core::Value;
use pg_write_make::{ClauseScope, spend_for_rows, test_storable};

// Gives a target a value under one key.
fn set_key<T: Tables>(
    scene: &ClauseScope<'_>,
    live: &mut LiveGraph<T>,
    row: &[Value],
    key: &Name,
    value: &Prepared<'_>,
    target: Target,
) -> Result<(), Fault>
    requires there { IsThere live.old.graph (target_view target) }
    ensures ok { OnOk result (set_pairs live.old.graph (one_pair (string_bytes key.now.text))
        set_keys (given scene.now live.old.graph row.now value.now) (target_view target)
        ≡ Ok live.new.graph) }
    ensures err { IfErr result (λ e. e ≢ OutOfMemory
        → set_pairs live.old.graph (one_pair (string_bytes key.now.text)) set_keys
        (given scene.now live.old.graph row.now value.now) (target_view target) ≡ Err e) }
    ensures aside { live.new.aside ≡ live.old.aside }
{
    let value = scene.evaluate(&live.graph(), row, value)?;
    let mut pairs = Vec::with_capacity(scene.query.alloc, 1)?;
    pairs.push((key.text.as_str(), value))?;
    test_storable(&pairs)?;
    Ok(put_properties(scene.query.alloc, live, target, pairs, false)?)
}

// Gives a target the entries of a map, in the place of its own properties or beside them.
fn set_map<T: Tables>(
    scene: &ClauseScope<'_>,
    live: &mut LiveGraph<T>,
    row: &[Value],
    value: &Prepared<'_>,
    target: Target,
    is_whole: bool,
) -> Result<(), Fault>
    requires there { IsThere live.old.graph (target_view target) }
    ensures ok { OnOk result (set_pairs live.old.graph mapping_pairs
        (put_map is_whole) (given scene.now live.old.graph row.now value.now) (target_view target)
        ≡ Ok live.new.graph) }
    ensures err { IfErr result (λ e. e ≢ OutOfMemory
        → set_pairs live.old.graph mapping_pairs (put_map is_whole)
        (given scene.now live.old.graph row.now value.now) (target_view target) ≡ Err e) }
    ensures aside { live.new.aside ≡ live.old.aside }
{
    let value = scene.evaluate(&live.graph(), row, value)?;
    let (keys, values) = map_parts(scene.query.alloc, value)?;
    let pairs = join(scene.query.alloc, &keys, values)?;
    test_storable(&pairs)?;
    Ok(put_properties(scene.query.alloc, live, target, pairs, is_whole)?)
}

// One item at one row. On null nothing is evaluated.
fn set_item<T: Tables>(
    scene: &ClauseScope<'_>,
    live: &mut LiveGraph<T>,
    row: &[Value],
    item: &ReadySet<'_>,
) -> Result<(), Fault>
    ensures ok { OnOk result (set_item (reading (parameters_in scene.now))
        (row_in scene.now row.now) live.old.graph (item_of scene.now.names.now item.now)
        ≡ Ok live.new.graph) }
    ensures err { IfErr result (λ e. e ≢ OutOfMemory → set_item (reading (parameters_in scene.now))
        (row_in scene.now row.now) live.old.graph (item_of scene.now.names.now item.now) ≡ Err e) }
    ensures aside { live.new.aside ≡ live.old.aside }
{
    match target_of(&live.graph(), scene, row, item.target)? {
        Target::Nothing => Ok(()),
        target => match &item.change {
            ReadyChange::Key(key, value) => set_key(scene, live, row, key, value, target),
            ReadyChange::Map(value, is_whole) => {
                set_map(scene, live, row, value, target, *is_whole)
            }
            ReadyChange::Labels(labels) => {
                change_labels(scene.query.alloc, live, target, labels, true)
            }
        },
    }
}

/// Sets what the items say at one row. An error leaves a part of it done, and the caller takes that
/// back.
pub(crate) fn set_row<T: Tables>(
    scene: &ClauseScope<'_>,
    live: &mut LiveGraph<T>,
    row: &[Value],
    items: &Vec<ReadySet<'_>>,
) -> Result<(), Fault>
    ensures ok { OnOk result (set_row (reading (parameters_in scene.now))
        (map (item_of scene.now.names.now) items.now.items) live.old.graph
        (row_in scene.now row.now) ≡ Ok live.new.graph) }
    ensures err { IfErr result (λ e. e ≢ OutOfMemory → set_row (reading (parameters_in scene.now))
        (map (item_of scene.now.names.now) items.now.items) live.old.graph
        (row_in scene.now row.now) ≡ Err e) }
    ensures aside { live.new.aside ≡ live.old.aside }
{
    for item in items {
        set_item(scene, live, row, item)?;
    }
    Ok(())
}

// All items at all rows.
fn set_rows<T: Tables>(
    scene: &ClauseScope<'_>,
    live: &mut LiveGraph<T>,
    rows: &Rows,
    items: &Vec<ReadySet<'_>>,
) -> Result<(), Fault>
    ensures ok { OnOk result (each_step (set_row
        (reading (parameters_in scene.now)) (map (item_of scene.now.names.now) items.now.items))
        live.old.graph (rows_named scene.now.names.now (table rows.now)) ≡ Ok live.new.graph) }
    ensures err { IfErr result (λ e. e ≢ OutOfMemory → each_step (set_row
        (reading (parameters_in scene.now)) (map (item_of scene.now.names.now) items.now.items))
        live.old.graph (rows_named scene.now.names.now (table rows.now)) ≡ Err e) }
    ensures aside { live.new.aside ≡ live.old.aside }
{
    for at in 0..rows.len() {
        set_row(scene, live, rows.row(at), items)?;
    }
    Ok(())
}

/// Sets what the items say, row by row, at the steps of all rows. An error leaves a part of it
/// done, and the caller takes that back.
pub fn set_items<T: Tables>(
    query: &QueryContext<'_>,
    items: &Vec<SetItem>,
    live: &mut LiveGraph<T>,
    table: &BindingTable,
    meter: &mut Meter,
) -> Result<(), Fault>
    ensures answer { (s : Setting)
        → Suits s (parameters_view query.now.parameters.now) meter.old.limit (seen table.now).names
        → Gives result (set_clause s (map set_item_view items.now.items)
        (state_of live.old.graph (seen table.now) meter.old.used))
        (λ _. state_of live.new.graph (seen table.now) meter.new.used) }
    ensures aside { live.new.aside ≡ live.old.aside }
    ensures limit { meter.new.limit ≡ meter.old.limit }
{
    spend_for_rows(meter, table.rows().len(), items.len())?;
    let mut ready = Vec::new(query.alloc);
    push_ready(query.alloc, table.names(), items, &mut ready)?;
    let scene = ClauseScope {
        query,
        names: table.names(),
    };
    set_rows(&scene, live, table.rows(), &ready)
}
