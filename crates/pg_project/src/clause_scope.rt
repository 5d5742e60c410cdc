//! What the rows of a table are evaluated under.

use pg_expr::QueryContext;
use pg_rows::Columns;

/// The variables in scope, each a column, while a query runs.
#[derive(Clone, Copy)]
pub(crate) struct ClauseScope<'a> {
    pub(crate) query: &'a QueryContext<'a>,
    pub(crate) names: &'a Columns,
}
