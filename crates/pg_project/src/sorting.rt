//! DISTINCT and ORDER BY.
ghost use Rattle.std.specs.Prelude.{◌≡◌, ◌≢◌, [], length, map, position, slice_index_or, IfOk, IfErr, OnOk, Ok, Err};
ghost use Rattle.pg_meaning.specs.Projections.{is_descending};
ghost use Rattle.pg_meaning.specs.Trees.{same_expression};
ghost use Rattle.pg_meaning.specs.Value.{null};
ghost use Rattle.pg_meaning.specs.declared.fault.Fault.TheVariants.{OutOfMemory};
ghost use Rattle.pg_project.specs.Cuts.{cut_view};
ghost use Rattle.pg_project.specs.Given.{all_keys_given, cut_of, distinct_given, key_given, sort_source, keys_given, let_in_given, ordered_given};
ghost use Rattle.pg_project.specs.Items.{expressions_view};
ghost use Rattle.pg_project.specs.Sources.{key_view, source_directions, sources_view};
ghost use Rattle.pg_rows.specs.Sorts.{directions, directions_of, picked, sorted_places};
ghost use Rattle.pg_rows.specs.Tables.{rows_at_places, table};
ghost use Rattle.pg_syntax_tree.specs.View.{expression_view, sort_item_view};
ghost use Rattle.pg_value_core.specs.Given.{parameters_view};
ghost use Rattle.pg_value_core.specs.View.{view};

use crate::clause_scope::ClauseScope;
use crate::passing::Cut;
use crate::sort_columns::{key_sorts, row_sorts};
use pg_expr::{Prepared, RowContext, evaluate_at, prepare};
use pg_graph::Tables;
use pg_meaning::{Fault, Sort};
use pg_rows::{Columns, Rows, SortBy, distinct, least};
use pg_store::GraphView;
use pg_syntax_tree::{Expression, SortItem};
use pg_tree_equality::same_expression;
use pg_value_core::Value;
use std::alloc::{AllocError, Global};
use std::hash::RandomState;

/// What a sort goes by: the value of an item, or that of an expression.
#[derive(Clone, Copy)]
pub(crate) enum SortKey<'a> {
    Item(usize),
    Other(Prepared<'a>),
}

/// The same with the direction.
#[derive(Clone, Copy)]
pub(crate) struct SortSource<'a> {
    pub(crate) key: SortKey<'a>,
    pub(crate) descends: bool,
}

/// The rows, of equivalent ones the first alone where DISTINCT is written.
#[tactic(auto, using(crate::proofs::Moves::firsts_moved))]
pub(crate) fn distinct_rows(
    alloc: Global,
    hasher: RandomState,
    is_distinct: bool,
    mut rows: Rows,
) -> Result<Rows, AllocError>
    ensures rows { IfOk result (λ found. table found ≡ distinct_given is_distinct (table rows)) }
    ensures width { IfOk result (λ found. found.width ≡ rows.width) }
{
    if !is_distinct {
        return Ok(rows);
    }
    let places = distinct(&rows, alloc, hasher)?;
    rows.pick(&places, alloc)
}

/// The rows, sorted by the keys where ORDER BY is written; those behind all that the cut lets in may be left out.
pub(crate) fn ordered_rows<T: Tables>(
    scope: &ClauseScope<'_>,
    items: &Vec<&Expression>,
    order: &Vec<SortItem>,
    cut: Cut,
    rows: Rows,
    graph: &GraphView<'_, T>,
) -> Result<Rows, Fault>
    ensures ok { IfOk result (λ found. let_in_given
        (parameters_view scope.now.query.now.parameters.now) graph.now scope.now.names.now
        (expressions_view items.now.items) (map sort_item_view order.now.items)
        (cut_view cut) (table rows) ≡ Ok (cut_of (cut_view cut) (table found))) }
    ensures width { IfOk result (λ found. found.width ≡ rows.width) }
    ensures err { IfErr result (λ e. e ≢ OutOfMemory → ordered_given
        (parameters_view scope.now.query.now.parameters.now) graph.now scope.now.names.now
        (expressions_view items.now.items) (map sort_item_view order.now.items) (table rows)
        ≡ Err e) }
{
    if order.is_empty() {
        return Ok(rows);
    }
    let alloc = scope.query.alloc;
    let sources = sources(alloc, items, order, scope.names)?;
    let columns = row_sorts(alloc, &sources, scope.names, rows.width())?;
    if let Some(sorts) = columns {
        return Ok(sorted_rows(alloc, sorts.as_slice(), cut, rows)?);
    }
    let keys = keys(scope, &sources, &rows, graph)?;
    Ok(rows_by_keys(alloc, &sources, &keys, cut, rows)?)
}

/// The rows sorted by columns of theirs, as far as the cut lets any in.
fn sorted_rows(
    alloc: Global,
    sorts: &[SortBy],
    cut: Cut,
    mut rows: Rows,
) -> Result<Rows, AllocError>
    ensures rows { IfOk result (λ found. cut_of (cut_view cut) (table found)
        ≡ cut_of (cut_view cut) (rows_at_places (table rows)
        (sorted_places (directions_of sorts.now) (map (picked sorts.now) (table rows))))) }
    ensures width { IfOk result (λ found. found.width ≡ rows.width) }
{
    let most = cut.reach(rows.len());
    let places = least(&rows, sorts, most, alloc)?;
    rows.pick(&places, alloc)
}

/// The rows in the order of their keys, as far as the cut lets any in.
fn rows_by_keys(
    alloc: Global,
    sources: &Vec<SortSource<'_>>,
    keys: &Rows,
    cut: Cut,
    mut rows: Rows,
) -> Result<Rows, AllocError>
    requires len { length (table keys.now) ≡ length (table rows) }
    requires width { keys.now.width ≡ length sources.now.items }
    ensures rows { IfOk result (λ found. cut_of (cut_view cut) (table found)
        ≡ cut_of (cut_view cut) (rows_at_places (table rows)
        (sorted_places (source_directions sources.now.items) (table keys.now)))) }
    ensures width { IfOk result (λ found. found.width ≡ rows.width) }
{
    let sorts = key_sorts(alloc, sources)?;
    let most = cut.reach(keys.len());
    let places = least(keys, sorts.as_slice(), most, alloc)?;
    rows.pick(&places, alloc)
}

/// What each sort goes by.
fn sources<'a>(
    alloc: Global,
    items: &Vec<&'a Expression>,
    order: &'a Vec<SortItem>,
    names: &Columns,
) -> Result<Vec<SortSource<'a>>, AllocError>
    ensures sources { IfOk result (λ found. sources_view names.now found.items
        ≡ map (λ o. sort_source (expressions_view items.now.items) o.key)
        (map sort_item_view order.now.items)) }
    ensures directions { IfOk result (λ found.
        source_directions found.items ≡ directions (map sort_item_view order.now.items)) }
    ensures len { IfOk result (λ found. length found.items ≡ length order.now.items) }
{
    let mut found = Vec::new(alloc);
    for item in order {
        let key = sort_key(alloc, items, &item.key, names)?;
        found.push(SortSource {
            key,
            descends: is_descending(item.direction),
        })?;
    }
    Ok(found)
}

fn is_descending(direction: Option<Sort>) -> bool
    ensures { result ≡ is_descending direction }
{
    match direction {
        Some(Sort::Desc) | Some(Sort::Descending) => true,
        Some(Sort::Asc) | Some(Sort::Ascending) | None => false,
    }
}

/// A sort whose tree equals an item's stands for that item.
fn sort_key<'a>(
    alloc: Global,
    items: &Vec<&'a Expression>,
    key: &'a Expression,
    names: &Columns,
) -> Result<SortKey<'a>, AllocError>
    ensures { IfOk result (λ s. key_view names.now s
        ≡ sort_source (expressions_view items.now.items) (expression_view key.now)) }
{
    match item_place(items, key) {
        Some(at) => Ok(SortKey::Item(at)),
        None => Ok(SortKey::Other(prepare(alloc, key, names)?)),
    }
}

/// The place of the first item of this tree.
fn item_place(items: &Vec<&Expression>, key: &Expression) -> Option<usize>
    ensures { result
        ≡ position
        (λ x. same_expression x (expression_view key.now)) (expressions_view items.now.items) }
{
    for (at, item) in items.iter().enumerate() {
        if same_expression(item, key) {
            return Some(at);
        }
    }
    None
}

/// The keys of all rows, row by row.
#[tactic(auto, using(crate::proofs::InTurn::no_more))]
fn keys<T: Tables>(
    scope: &ClauseScope<'_>,
    sources: &Vec<SortSource<'_>>,
    rows: &Rows,
    graph: &GraphView<'_, T>,
) -> Result<Rows, Fault>
    ensures ok { IfOk result (λ found. all_keys_given
        (parameters_view scope.now.query.now.parameters.now) graph.now scope.now.names.now
        (sources_view scope.now.names.now sources.now.items) (table rows.now) ≡ Ok (table found)) }
    ensures len { IfOk result (λ found. length (table found) ≡ length (table rows.now)) }
    ensures width { IfOk result (λ found. found.width ≡ length sources.now.items) }
    ensures err { IfErr result (λ e. e ≢ OutOfMemory
        → all_keys_given (parameters_view scope.now.query.now.parameters.now) graph.now
        scope.now.names.now (sources_view scope.now.names.now sources.now.items) (table rows.now)
        ≡ Err e) }
{
    let mut found = Rows::new(scope.query.alloc, sources.len());
    let mut keys = Vec::new(scope.query.alloc);
    for at in 0..rows.len() {
        let context = RowContext {
            alloc: scope.query.alloc,
            names: scope.names,
            row: rows.row(at),
            parameters: scope.query.parameters,
        };
        push_keys(&context, sources, graph, &mut keys)?;
        found.push_from(&mut keys)?;
    }
    Ok(found)
}

/// The keys of a row, taken into a list that is empty.
fn push_keys<T: Tables>(
    context: &RowContext<'_>,
    sources: &Vec<SortSource<'_>>,
    graph: &GraphView<'_, T>,
    keys: &mut Vec<Value>,
) -> Result<(), Fault>
    requires { keys.old.items ≡ [] }
    ensures ok { OnOk result
        (keys_given (parameters_view context.now.parameters.now) graph.now context.now.names.now
        (sources_view context.now.names.now sources.now.items) (map view context.now.row.now)
        ≡ Ok (map view keys.new.items)) }
    ensures len { OnOk result (length keys.new.items ≡ length sources.now.items) }
    ensures err { IfErr result (λ e. e ≢ OutOfMemory
        → keys_given (parameters_view context.now.parameters.now) graph.now context.now.names.now
        (sources_view context.now.names.now sources.now.items) (map view context.now.row.now)
        ≡ Err e) }
{
    for source in sources {
        keys.push(key(context, &source.key, graph)?)?;
    }
    Ok(())
}

fn key<T: Tables>(
    context: &RowContext<'_>,
    key: &SortKey<'_>,
    graph: &GraphView<'_, T>,
) -> Result<Value, Fault>
    ensures ok { IfOk result
        (λ v. key_given (parameters_view context.now.parameters.now) graph.now context.now.names.now
        (map view context.now.row.now) (key_view context.now.names.now key.now)
        ≡ Ok (view v)) }
    ensures err { IfErr result (λ e. e ≢ OutOfMemory
        → key_given (parameters_view context.now.parameters.now) graph.now context.now.names.now
        (map view context.now.row.now) (key_view context.now.names.now key.now) ≡ Err e) }
{
    match key {
        SortKey::Item(at) => Ok(item_value(context.alloc, context.row, *at)?),
        SortKey::Other(prepared) => evaluate_at(context, prepared, graph),
    }
}

/// The value of an item, and null where the row has none.
#[tactic(auto, using(crate::proofs::SortPlaces::value_there, crate::proofs::SortPlaces::no_value_there))]
fn item_value(alloc: Global, row: &[Value], at: usize) -> Result<Value, AllocError>
    ensures { IfOk result (λ v. view v ≡ slice_index_or (map view row.now) at null) }
{
    if at < row.len() {
        row[at].copy(alloc)
    } else {
        Ok(Value::Null)
    }
}
