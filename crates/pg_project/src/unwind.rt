//! UNWIND.
ghost use Rattle.std.specs.Prelude.{◌≡◌, IfOk, length, position, bytes_eq, is_none};
ghost use Rattle.pg_meaning.specs.Meters.{Setting};
ghost use Rattle.pg_meaning.specs.Names.{add_name};
ghost use Rattle.pg_meaning.specs.Reading.{unwind_clause};
ghost use Rattle.pg_project.specs.Unwound.{lists_view, rows_unwound};
ghost use Rattle.pg_rows.specs.Named.{with_name};
ghost use Rattle.pg_rows.specs.States.{seen, state_of, Suits};
ghost use Rattle.pg_rows.specs.Tables.{table};
ghost use Rattle.pg_syntax_tree.specs.View.{expression_view, name_view};
ghost use Rattle.pg_value_core.specs.Given.{parameters_view};
ghost use Rattle.pg_value_core.specs.Gives.{Gives};

use crate::clause_scope::ClauseScope;
use crate::lists::{lists_at, spend_items, unwound};
use pg_expr::{QueryContext, prepare};
use pg_graph::Tables;
use pg_meaning::Fault;
use pg_meter::Meter;
use pg_rows::{BindingTable, Columns, Rows};
use pg_store::GraphView;
use pg_syntax_tree::{Expression, Name};
use pg_value_core::Value;
use std::alloc::{AllocError, Global};

/// One row for each item of each row's list.
pub fn unwind_rows<T: Tables>(
    query: &QueryContext<'_>,
    list: &Expression,
    name: &Name,
    graph: &GraphView<'_, T>,
    table: BindingTable,
    meter: &mut Meter,
) -> Result<BindingTable, Fault>
    ensures unwinds { (s : Setting)
        → Suits s (parameters_view query.now.parameters.now) meter.old.limit (seen table).names
        → Gives result (unwind_clause s (expression_view list.now)
        (name_view name.now) (state_of graph.now (seen table) meter.old.used))
        (λ t. state_of graph.now (seen t) meter.new.used) }
    ensures names { IfOk result
        (λ t. (seen t).names ≡ add_name (seen table).names (name_view name.now).text) }
    ensures limit { meter.new.limit ≡ meter.old.limit }
{
    let (names, rows) = table.split();
    let prepared = prepare(query.alloc, list, &names)?;
    let scope = ClauseScope {
        query,
        names: &names,
    };
    let lists = lists_at(&scope, &prepared, &rows, graph)?;
    spend_items(&lists, meter)?;
    Ok(unwound_table(query.alloc, names, rows, name.text.as_str(), lists)?)
}

/// The rows under the names, with one column more unless the name is there.
fn unwound_table(
    alloc: Global,
    mut names: Columns,
    rows: Rows,
    name: &str,
    lists: Vec<Vec<Value>>,
) -> Result<BindingTable, AllocError>
    requires { rows.width ≡ length names }
    ensures names { IfOk result (λ t. (seen t).names ≡ with_name name.now names) }
    ensures rows { IfOk result (λ t. (seen t).rows ≡ rows_unwound
        (is_none (position (bytes_eq name.now) names)) (table rows) (lists_view lists.items)) }
{
    let has_column = names.find(name).is_none();
    names.add(alloc, name)?;
    let found = unwound(alloc, rows, lists, has_column, names.len())?;
    Ok(BindingTable::new(names, found))
}
