//! Grouping and aggregates.
ghost use Rattle.std.specs.Prelude.{◌≡◌, ℕ, [], ◌∷◌, List, pos, true, IfOk, IfErr, length};
ghost use Rattle.pg_meaning.specs.Value.{integer};
ghost use Rattle.pg_meaning.specs.declared.fault.Fault.TheVariants.{OutOfMemory};
ghost use Rattle.pg_project.specs.Items.{expressions_view};
ghost use Rattle.pg_project.specs.Kept.{row_count, rows_given};
ghost use Rattle.pg_project.specs.ReadyItems.{aggregate_view, aggregates_view};
ghost use Rattle.pg_rows.specs.Tables.{table};
ghost use Rattle.pg_value_core.specs.Given.{parameters_view};
ghost use Rattle.pg_value_core.specs.Gives.{Gives};

use crate::clause_scope::ClauseScope;
use crate::items::{Aggregate, Items};
use crate::rows::groups_of_rows;
use crate::told::told_rows;
use pg_graph::Tables;
use pg_meaning::Fault;
use pg_rows::Rows;
use pg_scope::AggregateFunction;
use pg_store::GraphView;
use pg_syntax_tree::Expression;
use pg_value_core::Value;
use std::alloc::Global;

/// The rows of groups: for each group a row with a value for each of the expressions.
pub(crate) fn group_rows<T: Tables>(
    scope: &ClauseScope<'_>,
    items: &Vec<&Expression>,
    rows: &Rows,
    graph: &GraphView<'_, T>,
) -> Result<Rows, Fault>
    ensures rows { Gives result (rows_given (parameters_view scope.now.query.now.parameters.now)
        graph.now scope.now.names.now (expressions_view items.now.items) (table rows.now)) table }
    ensures width { IfOk result (λ found. found.width ≡ length items.now.items) }
{
    let ready = Items::new(scope.query.alloc, items, scope.names)?;
    if items.len() == 1 && count_rows_alone(&ready) {
        return counted(scope.query.alloc, rows.len());
    }
    let groups = groups_of_rows(scope, items, &ready, rows, graph)?;
    Ok(told_rows(scope.query.alloc, &ready.are_aggregates, groups)?)
}

/// Whether nothing groups, and there is one aggregate, which counts rows.
fn count_rows_alone(items: &Items<'_>) -> bool
    ensures keys { result ≡ true → items.now.keys.items ≡ [] }
    ensures aggregates { (names : List (List ℕ)) → result ≡ true
        → aggregates_view names items.now.aggregates.items ≡ row_count ∷ [] }
{
    if !items.keys.is_empty() {
        return false;
    }
    match items.aggregates.as_slice() {
        [aggregate] => counts_rows(aggregate),
        _ => false,
    }
}

fn counts_rows(aggregate: &Aggregate<'_>) -> bool
    ensures { (names : List (List ℕ)) → result ≡ true
        → aggregate_view names aggregate.now ≡ row_count }
{
    match (aggregate.summary, &aggregate.argument) {
        (AggregateFunction::Counting, None) => !aggregate.distinct,
        _ => false,
    }
}

/// The row of one group that has so many rows.
fn counted(alloc: Global, count: usize) -> Result<Rows, Fault>
    ensures rows { IfOk result (λ found. table found ≡ (integer (pos count) ∷ []) ∷ []) }
    ensures width { IfOk result (λ found. found.width ≡ 1) }
    ensures err { IfErr result (λ e. e ≡ OutOfMemory) }
{
    let Ok(count) = i64::try_from(count) else {
        return Err(Fault::OutOfMemory);
    };
    let mut values = Vec::new(alloc);
    values.push(Value::Int(count))?;
    Ok(Rows::of_column(values))
}
