//! What the rows of a clause share.
ghost use Rattle.std.specs.Option.{option_and_then};
ghost use Rattle.std.specs.Prelude.{◌≡◌, map, option_map, slice_get};
ghost use Rattle.pg_meaning.specs.Rows.{value_in};
ghost use Rattle.pg_syntax_tree.specs.View.{expression_view};
ghost use Rattle.pg_value_core.specs.Gives.{Gives};
ghost use Rattle.pg_value_core.specs.View.{view};
ghost use Rattle.pg_write_make.specs.Scenes.{given, row_in, value_given};

use pg_expr::{Prepared, QueryContext, RowContext, evaluate, evaluate_once};
use pg_graph::Tables;
use pg_meaning::Fault;
use pg_rows::Columns;
use pg_store::GraphView;
use pg_syntax_tree::Expression;
use pg_value_core::Value;

/// The names of the columns, and what stays the same while the query runs.
#[derive(Clone, Copy)]
pub struct ClauseScope<'a> {
    pub query: &'a QueryContext<'a>,
    pub names: &'a Columns,
}

/// The values of a row, with what it shares with the clause's other rows.
#[derive(Clone, Copy)]
pub(crate) struct RowScene<'a> {
    pub(crate) scene: &'a ClauseScope<'a>,
    pub(crate) values: &'a [Value],
}

fn value_at(row: &[Value], column: Option<usize>) -> Option<&Value>
    ensures { option_map (λ v. view v.now) result
        ≡ option_and_then (slice_get (map view row.now)) column }
{
    row.get(column?)
}

impl<'a> ClauseScope<'a> {
    /// The value of a variable of the row.
    #[tactic(auto, using(pg_rows::proofs::NamedRows::values_stand))]
    pub fn find<'r>(&self, row: &'r [Value], name: &str) -> Option<&'r Value>
        ensures { option_map (λ v. view v.now) result
            ≡ value_in name.now (row_in self.now row.now) }
    {
        value_at(row, self.names.find(name))
    }

    /// What an expression that was made ready gives at a row.
    pub fn evaluate<T: Tables>(
        &self,
        graph: &GraphView<'_, T>,
        row: &[Value],
        value: &Prepared<'_>,
    ) -> Result<Value, Fault>
        ensures { Gives result (given self.now graph.now row.now value.now) view }
    {
        evaluate(
            self.query.alloc,
            value,
            self.names,
            row,
            self.query.parameters,
            graph,
        )
    }

    /// What an expression gives at a row.
    pub fn value<T: Tables>(
        &self,
        graph: &GraphView<'_, T>,
        row: &[Value],
        expression: &Expression,
    ) -> Result<Value, Fault>
        ensures { Gives result
            (value_given self.now graph.now row.now (expression_view expression.now)) view }
    {
        let context = RowContext {
            alloc: self.query.alloc,
            names: self.names,
            row,
            parameters: self.query.parameters,
        };
        evaluate_once(&context, expression, graph)
    }
}
