//! WITH and RETURN as they are written.

use pg_scope::Naming;
use pg_syntax_tree::{Expression, Projection};

/// WITH or RETURN, and the WHERE after it.
#[derive(Clone, Copy)]
pub(crate) struct ProjectionClause<'a> {
    pub(crate) naming: Naming,
    pub(crate) projection: &'a Projection,
    pub(crate) condition: &'a Option<Expression>,
}
