//! `*` alone, over variables that stand in its order already: their rows stay as they are.
ghost use Rattle.std.specs.Bool.{Decides};
ghost use Rattle.std.specs.List.Sorted.{IsStrictlySortedBy};
ghost use Rattle.std.specs.Prelude.{◌≡◌, length, option_map, IfOk};
ghost use Rattle.pg_meaning.specs.Meters.{Setting};
ghost use Rattle.pg_meaning.specs.Order.{text_order};
ghost use Rattle.pg_project.specs.Columns.{naming_columns};
ghost use Rattle.pg_project.specs.LoneStar.{IsLoneStar};
ghost use Rattle.pg_project.specs.Parts.{rows_projected};
ghost use Rattle.pg_rows.specs.Named.{rows_named};
ghost use Rattle.pg_rows.specs.Tables.{table};
ghost use Rattle.pg_syntax_tree.specs.View.{expression_view, projection_view};
ghost use Rattle.pg_value_core.specs.Given.{parameters_view};
ghost use Rattle.pg_value_core.specs.Gives.{Gives};

use crate::clause_scope::ClauseScope;
use crate::counts::cut_at;
use crate::passing::{lets_all_pass, passing_rows};
use crate::projection_clause::ProjectionClause;
use pg_expr::prepare_condition;
use pg_graph::Tables;
use pg_meaning::Fault;
use pg_rows::Rows;
use pg_store::GraphView;
use pg_syntax_tree::Projection;

/// Whether the projection is `*` with no item beside it, without DISTINCT and ORDER BY.
pub(crate) fn is_lone_star(projection: &Projection) -> bool
    ensures { Decides result (IsLoneStar (projection_view projection.now)) }
{
    !projection.distinct
        && projection.star.is_some()
        && projection.items.is_empty()
        && projection.order.is_empty()
}

/// The rows of `*` alone, whose columns are the names in scope, since those rise: the rows that are let in and meet
/// the condition.
pub(crate) fn lone_star_rows<T: Tables>(
    scope: &ClauseScope<'_>,
    clause: &ProjectionClause<'_>,
    rows: Rows,
    graph: &GraphView<'_, T>,
) -> Result<Rows, Fault>
    requires star { IsLoneStar (projection_view clause.now.projection.now) }
    requires rising { IsStrictlySortedBy text_order scope.now.names.now }
    requires width { rows.width ≡ length scope.now.names.now }
    ensures gives { (s : Setting)
        → s.parameters ≡ parameters_view scope.now.query.now.parameters.now
        → Gives result (rows_projected s graph.now (naming_columns clause.now.naming
        scope.now.names.now (projection_view clause.now.projection.now))
        (projection_view clause.now.projection.now)
        (option_map expression_view clause.now.condition.now)
        (rows_named scope.now.names.now (table rows)))
        (λ found. rows_named scope.now.names.now (table found)) }
    ensures width { IfOk result (λ found. found.width ≡ length scope.now.names.now) }
{
    let query = scope.query;
    let cut = cut_at(query.alloc, clause.projection, query.parameters, graph)?;
    if lets_all_pass(cut, clause.condition) {
        return Ok(rows);
    }
    let wanted = prepare_condition(query.alloc, clause.condition, scope.names, query.parameters)?;
    passing_rows(query.alloc, cut, &wanted, rows, scope.names.len(), graph)
}
